//! Each call of a desk fails in turn.

use super::*;

/// A kind of call, the status where one fails, and how many calls of the input and of the output have failed then.
#[derive(Clone, Copy)]
struct Failing {
    call: Call,
    status: Status,
    faults: (u64, u64),
}

const CALLS: [Failing; 5] = [
    Failing {
        call: Call::OpenIn,
        status: Status::ReadFault,
        faults: (1, 0),
    },
    Failing {
        call: Call::Read,
        status: Status::ReadFault,
        faults: (1, 0),
    },
    Failing {
        call: Call::Create,
        status: Status::WriteFault,
        faults: (0, 1),
    },
    Failing {
        call: Call::Write,
        status: Status::WriteFault,
        faults: (0, 1),
    },
    Failing {
        call: Call::Say,
        status: Status::WriteFault,
        faults: (0, 1),
    },
];

/// More calls of a kind than any of these runs makes.
const MOST: u32 = 1000;

/// Whether the first bytes are a prefix of the others.
fn is_prefix(prefix: &[u8], whole: &[u8]) -> bool {
    whole.get(..prefix.len()) == Some(prefix)
}

/// Checks a run that failed: it ended with the fault of its kind, which is counted once, after a prefix of the bytes; and there
/// is no file where none was created.
fn expect_stop<R: Abort>(
    rt: &R,
    desk: &MemDesk,
    status: Status,
    said: &str,
    file: &[u8],
    wanted: Failing,
) {
    assert_eq!(rt; status, wanted.status);
    assert_eq!(rt; desk.faults(), wanted.faults);
    assert!(rt; is_prefix(desk.said(), said.as_bytes()));
    assert!(rt; is_prefix(written(desk).unwrap_or(b""), file));
    assert_eq!(rt; written(desk).is_some(), wanted.call == Call::Write);
}

/// Checks what a run that is done has given: all that it says, after so many bytes that were said before, and the file.
fn expect_all<R: Abort>(rt: &R, desk: &MemDesk, before: usize, said: &str, file: &[u8]) {
    assert!(rt; desk.said().get(before..) == Some(said.as_bytes()));
    assert_eq!(rt; written(desk).unwrap_or(b""), file);
}

/// Lets the k-th call of a kind fail, and runs the command: whether it was done. Where it was not, a second run on that desk
/// gives all bytes, after what the first has said.
fn fails_once<R: Abort + AllocGlobal + Threads + Wait + Sync>(
    rt: &R,
    line: &str,
    said: &str,
    file: &[u8],
    wanted: Failing,
    k: u32,
) -> Result<bool, Fail> {
    let mut desk = desk_of(rt.alloc(), 8, &[(wanted.call, k)])?;
    let status = status_of(rt, line, &mut desk)?;
    if status == Status::Done {
        expect_all(rt, &desk, 0, said, file);
        return Ok(true);
    }
    expect_stop(rt, &desk, status, said, file, wanted);
    let before = desk.said().len();
    assert_eq!(rt; status_of(rt, line, &mut desk)?, Status::Done);
    expect_all(rt, &desk, before, said, file);
    Ok(false)
}

/// Lets each call of a kind fail, until a run makes no more: how many have failed.
fn failed_calls<R: Abort + AllocGlobal + Threads + Wait + Sync>(
    rt: &R,
    line: &str,
    said: &str,
    file: &[u8],
    wanted: Failing,
) -> Result<u32, Fail> {
    for k in 1..MOST {
        if fails_once(rt, line, said, file, wanted, k)? {
            return Ok(k - 1);
        }
    }
    Ok(MOST)
}

#[test]
fn each_call_fails_in_turn(rt: HostRuntime) -> Result<(), Fail> {
    let mut failed = 0u32;
    for (line, said, file) in &COMMANDS {
        for wanted in &CALLS {
            failed = failed.saturating_add(failed_calls(&rt, line, said, file, *wanted)?);
        }
    }
    assert!(rt; failed > 200);
    Ok(())
}
