//! However few bytes a call of the desk moves, a run comes to the same.
use super::*;

/// How many bytes one call of the desk moves at most.
const BITES: [u32; 5] = [1, 2, 3, 7, 4096];

/// Runs a command over a desk whose calls move so many bytes at most, and checks what it has given.
fn expect_bytes<R: Abort + AllocGlobal + Threads + Wait + Sync>(
    rt: &R,
    line: &str,
    said: &str,
    file: &[u8],
    bite: u32,
) -> Result<(), Fail> {
    let mut desk = desk_of(rt.alloc(), bite.max(1), &[])?;
    assert_eq!(rt; status_of(rt, line, &mut desk)?, Status::Done);
    assert_eq!(rt; desk.said(), said.as_bytes());
    assert_eq!(rt; written(&desk).unwrap_or(b""), file);
    Ok(())
}

#[test]
fn each_command_gives_its_bytes(rt: HostRuntime) -> Result<(), Fail> {
    for (line, said, file) in &COMMANDS {
        for bite in &BITES {
            expect_bytes(&rt, line, said, file, *bite)?;
        }
    }
    Ok(())
}

/// The status that no file of a case brings about.
#[test]
fn an_input_too_long_has_its_line_and_number(rt: HostRuntime) -> Result<(), Fail> {
    let status = Status::TooLong;
    let told = format!(in rt.alloc(); "{status}")?;
    assert_eq!(rt; told.as_str(), "chl: input too long");
    assert_eq!(rt; status.number(), 12);
    Ok(())
}
