//! Two workers grow trees at the same time, in builds that a run makes.

use super::gates::{Order, Watch};
use super::*;
use chl_cmd::{Status, run};
use mem_desk::MemDesk;
use std::alloc::AllocError;

/// The square 1-2-3-4-1, its nodes by rank, and a pair.
const FILES: [(&str, &[u8]); 3] = [
    ("g", b"p sp 4 4\na 1 2 1\na 2 3 1\na 3 4 1\na 4 1 1\n"),
    ("o", b"1\n2\n3\n4\n"),
    ("q", b"p aux sp p2p 1\nq 2 4\n"),
];

/// Puts a file on a desk. It promises nothing, so that no proof goes along the bytes.
fn put(desk: &mut MemDesk, name: &str, bytes: &[u8]) -> Result<(), AllocError> {
    desk.put_file(name, bytes)
}

/// A desk with the files.
fn square_desk(alloc: Global) -> Result<MemDesk, AllocError> {
    let mut desk = MemDesk::new(alloc, 4096, Vec::new(alloc))?;
    for (name, bytes) in &FILES {
        put(&mut desk, name, bytes)?;
    }
    Ok(desk)
}

/// The words of a line.
fn words_of(alloc: Global, line: &str) -> Result<Vec<String>, AllocError> {
    let mut words = Vec::new(alloc);
    for word in line.split_whitespace() {
        words.push(String::from_str(alloc, word)?)?;
    }
    Ok(words)
}

/// Runs a line over a desk with the square, watched by a gate: how it ended.
fn status_of<R: AllocGlobal + Threads + Wait + Sync>(
    rt: &R,
    line: &str,
    watch: &Watch,
) -> Result<Status, AllocError> {
    let words = words_of(rt.alloc(), line)?;
    let mut desk = square_desk(rt.alloc())?;
    Ok(run(rt, rt.alloc(), &words, &mut desk, watch))
}

/// Runs a line over a desk with the square, to the end, under a watch.
fn run_square<R: Abort + AllocGlobal + Threads + Wait + Sync>(
    rt: &R,
    line: &str,
    order: Order,
) -> Result<Watch, Fail> {
    let watch = Watch::new(rt.alloc(), 4, order)?;
    assert_eq!(rt; status_of(rt, line, &watch)?, Status::Done);
    assert!(rt; watch.all_came(), "{line}");
    Ok(watch)
}

/// How many entries the tree of a root puts, given by its position, from 0.
fn puts_at<R: Abort + AllocGlobal + Threads + Wait + Sync>(
    rt: &R,
    line: &str,
    order: Order,
    p: u32,
) -> Result<u32, Fail> {
    let watch = run_square(rt, line, order)?;
    Ok(watch.puts.at(p))
}

/// Checks how many entries the tree of root 1 puts where it grows before that of root 0, and where it grows after it.
fn expect_meeting<R: Abort + AllocGlobal + Threads + Wait + Sync>(
    rt: &R,
    line: &str,
    puts: (u32, u32),
) -> Result<(), Fail> {
    let before = puts_at(rt, line, Order::SecondBeforeFirst, 1)?;
    let after = puts_at(rt, line, Order::FirstBeforeSecond, 1)?;
    assert_eq!(rt; (before, after), puts, "{line}");
    Ok(())
}

/// With how many workers two of them have to meet.
const WORKERS: [u32; 3] = [2, 3, 64];

/// The same of a command by a construction, with each of these numbers of workers.
fn expect_meetings<R: Abort + AllocGlobal + Threads + Wait + Sync>(
    rt: &R,
    command: &str,
    by: &str,
    puts: (u32, u32),
) -> Result<(), Fail> {
    for workers in &WORKERS {
        let line = format!(in rt.alloc(); "{command} --by {by} --workers {workers}")?;
        expect_meeting(rt, line.as_str(), puts)?;
    }
    Ok(())
}

/// The two commands that build with workers, of which the second keeps plain rows.
const COMMANDS: [&str; 2] = [
    "chl build --graph g --order o --out x",
    "chl solve --graph g --order o --pairs q",
];

/// The constructions, each with what the tree of root 1 puts before and after that of root 0.
const PUTS: [(&str, (u32, u32)); 5] = [
    ("plant", (2, 2)),
    ("lcc", (3, 2)),
    ("gll", (3, 2)),
    ("hybrid --eta 0", (3, 2)),
    ("hybrid --eta 2", (2, 2)),
];

/// Two workers have roots 0 and 1 at the same time, whatever the construction and the number of workers. A pruned tree of root 1
/// puts three entries where it grows before that of root 0, and two after it: it finds then that node 1 covers the way to
/// node 4. A planted one puts two.
#[test]
fn two_roots_at_once(rt: HostRuntime) -> Result<(), Fail> {
    for command in &COMMANDS {
        for (by, puts) in &PUTS {
            expect_meetings(&rt, command, by, *puts)?;
        }
    }
    Ok(())
}

/// With the cut 3 the tree of root 0 puts enough for its worker, and less than twice as much. While the other one is held up at
/// root 1, and has put nothing, it goes on with root 2.
#[test]
fn a_worker_goes_on_while_another_is_late(rt: HostRuntime) -> Result<(), Fail> {
    let line = "chl build --graph g --order o --out x --by gll --workers 2 --cut 3";
    assert_eq!(rt; puts_at(&rt, line, Order::ThirdBeforeSecond, 2)?, 2);
    Ok(())
}

/// Where as many roots are to be planted as there are, or more, all are, and none is left for a superstep: the tree of root 0 begins
/// when those of all others have ended, while another worker plants them.
#[test]
fn all_roots_are_planted(rt: HostRuntime) -> Result<(), Fail> {
    let command = "chl build --graph g --order o --out x --by hybrid --workers 2 --cut 1";
    for eta in &[4u32, 5] {
        let line = format!(in rt.alloc(); "{command} --eta {eta}")?;
        run_square(&rt, line.as_str(), Order::FirstAfterAll)?;
    }
    Ok(())
}

/// Checks how often a run tells its gate that the tree of a root begins, and that it ends.
fn expect_told<R: Abort + AllocGlobal + Threads + Wait + Sync>(
    rt: &R,
    line: &str,
    times: u32,
) -> Result<(), Fail> {
    let watch = run_square(rt, line, Order::Free)?;
    for p in 0..4 {
        let told = (watch.begun.at(p), watch.ended.at(p));
        assert_eq!(rt; told, (times, times), "{line}");
    }
    Ok(())
}

/// A run tells its gate of each root: once for a build or a solve, and three times for a grid, which is built by three
/// constructions.
#[test]
fn a_run_tells_of_each_root(rt: HostRuntime) -> Result<(), Fail> {
    expect_told(&rt, "chl build --graph g --order o --out x --workers 2", 1)?;
    expect_told(&rt, "chl solve --graph g --order o --pairs q --by gll", 1)?;
    expect_told(&rt, "chl grid --side 2 --seed 1 --workers 2", 3)
}
