//! What the tests of runs share: the square with its order, its pairs and its index, and the commands over them.
ghost use Rattle.std.specs.Prelude.{◌<◌};

mod calls;
mod pieces;

use chl_cmd::{Status, run};
use desk_io::FreeGate;
use mem_desk::{Call, MemDesk};
use std::alloc::{AllocError, Global};
use std::process::Abort;
use std::sync::Wait;
use std::test::Fail;
use std::thread::Threads;

const ROUND_ORDER: &str = "1\n2\n3\n4\n";

/// The index file of the square.
const SQUARE_FILE: &[u8] = b"CHLABEL\x01\0\0\0\x04\0\0\0\x01\0\0\0\x02\0\0\0\x03\0\0\0\x04\
\0\0\0\x01\0\0\0\0\0\0\0\0\0\0\0\0\
\0\0\0\x02\0\0\0\0\0\0\0\0\0\0\0\x01\0\0\0\x01\0\0\0\0\0\0\0\0\
\0\0\0\x03\0\0\0\0\0\0\0\0\0\0\0\x02\0\0\0\x01\0\0\0\0\0\0\0\x01\0\0\0\x02\0\0\0\0\0\0\0\0\
\0\0\0\x03\0\0\0\0\0\0\0\0\0\0\0\x01\0\0\0\x02\0\0\0\0\0\0\0\x01\0\0\0\x03\0\0\0\0\0\0\0\0";

/// The same with its vias: version 2.
const SQUARE_VIAS: &[u8] = b"CHLABEL\x02\0\0\0\x04\0\0\0\x01\0\0\0\x02\0\0\0\x03\0\0\0\x04\
\0\0\0\x01\0\0\0\0\0\0\0\0\0\0\0\0\0\0\0\0\
\0\0\0\x02\0\0\0\0\0\0\0\0\0\0\0\x01\0\0\0\x01\0\0\0\x01\0\0\0\0\0\0\0\0\0\0\0\0\
\0\0\0\x03\0\0\0\0\0\0\0\0\0\0\0\x02\0\0\0\x02\0\0\0\x01\0\0\0\0\0\0\0\x01\0\0\0\x02\0\0\0\x02\0\0\0\0\0\0\0\0\0\0\0\0\
\0\0\0\x03\0\0\0\0\0\0\0\0\0\0\0\x01\0\0\0\x01\0\0\0\x02\0\0\0\0\0\0\0\x01\0\0\0\x03\0\0\0\x03\0\0\0\0\0\0\0\0\0\0\0\0";

/// The files of a desk: four nodes in a round, each edge of weight 1, with their order, two pairs, and the index without vias and with them; and one node.
const FILES: [(&str, &[u8]); 6] = [
    ("g", b"p sp 4 4\na 1 2 1\na 2 3 1\na 3 4 1\na 4 1 1\n"),
    ("o", b"1\n2\n3\n4\n"),
    ("p", b"p aux sp p2p 2\nq 2 4\nq 1 3\n"),
    ("x", SQUARE_FILE),
    ("v", SQUARE_VIAS),
    ("one", b"p sp 1 0\n"),
];

/// A command, the bytes that it says, and those of the file that it writes.
const COMMANDS: [(&str, &str, &[u8]); 15] = [
    (
        "chl list --graph g --order o",
        "l 1 1 0\nl 2 1 1 2 0\nl 3 1 2 2 1 3 0\nl 4 1 1 3 1 4 0\n",
        b"",
    ),
    ("chl build --graph g --order o --out y", "", SQUARE_FILE),
    (
        "chl build --graph g --order o --out y --by lcc --workers 2",
        "",
        SQUARE_FILE,
    ),
    (
        "chl build --graph g --order o --out y --by gll --workers 2",
        "",
        SQUARE_FILE,
    ),
    (
        "chl build --graph g --order o --out y --version 2 --workers 2",
        "",
        SQUARE_VIAS,
    ),
    ("chl upgrade --graph g --index x --out y", "", SQUARE_VIAS),
    (
        "chl solve --graph g --order o --pairs p",
        "d 2 4 2 1\nd 1 3 2 1\n",
        b"",
    ),
    (
        "chl query --index x --pairs p",
        "d 2 4 2 1\nd 1 3 2 1\n",
        b"",
    ),
    (
        "chl path --graph g --index v --pairs p",
        "w 2 4 2 2 1 4\nw 1 3 2 1 2 3\n",
        b"",
    ),
    (
        "chl trace --index v --pairs p",
        "t 2 4 2 2 1 4\nt 1 3 2 1 2 3\n",
        b"",
    ),
    ("chl audit --graph g --order o --index x", "same\n", b""),
    ("chl audit --graph g --order o --index v", "same\n", b""),
    ("chl degree --graph g", ROUND_ORDER, b""),
    ("chl rank --graph one", "1\n", b""),
    (
        "chl grid --side 2 --seed 1",
        "grid 2 1\nnodes 4 edges 4\nplant 10 35\nlcc 10 35\ngll 10 35\n",
        b"",
    ),
];

/// A desk with all files, each of whose calls moves so many bytes at most, and of which these calls fail.
fn desk_of(alloc: Global, bite: u32, fails: &[(Call, u32)]) -> Result<MemDesk, AllocError>
    requires { 0 < bite }
{
    let mut desk = MemDesk::new(alloc, bite, Vec::from_slice(alloc, fails)?)?;
    for (name, bytes) in &FILES {
        put(&mut desk, name, bytes)?;
    }
    Ok(desk)
}

/// Puts a file on a desk. It promises nothing, so that no proof goes along the bytes.
fn put(desk: &mut MemDesk, name: &str, bytes: &[u8]) -> Result<(), AllocError> {
    desk.put_file(name, bytes)
}

/// Runs a line over a desk in memory.
fn status_of<R: AllocGlobal + Threads + Wait + Sync>(
    rt: &R,
    line: &str,
    desk: &mut MemDesk,
) -> Result<Status, AllocError> {
    let alloc = rt.alloc();
    let mut words = Vec::new(alloc);
    for word in line.split_whitespace() {
        words.push(String::from_str(alloc, word)?)?;
    }
    Ok(run(rt, alloc, &words, desk, &FreeGate))
}

/// What the created file holds; None where there is none.
fn written(desk: &MemDesk) -> Option<&[u8]> {
    desk.file("y")
}
