//! The program `chl`: the canonical hub labelling of a weighted graph. It runs the command of its words over the
//! files and standard output, prints the status on standard error where the output was not written, and ends with
//! the status's number.
#![tactic(auto)]

use chl_cmd::{Status, run};
use desk_io::{FreeGate, RealDesk};
use std::process::ExitCode;
use std::rt::Env;
use std::{env, io};

fn main(rt: HostRuntime) -> ExitCode {
    let status = match words_of(&rt) {
        Ok(words) => run(
            &rt,
            rt.alloc(),
            &words,
            &mut RealDesk::new(&rt, rt.alloc()),
            &FreeGate,
        ),
        Err(status) => status,
    };
    if status != Status::Done {
        // The number tells the status too, where this line can't be written.
        let _ = eprintln!(rt; "{status}");
    }
    ExitCode::from(status.number())
}

/// The words that the program was called with. Bytes that are no text are no command.
fn words_of<R: Env + AllocGlobal>(rt: &R) -> Result<Vec<String>, Status> {
    let mut words = Vec::new(rt.alloc());
    match env::args(rt) {
        Ok(args) => {
            for word in args {
                if words.push(word).is_err() {
                    return Err(Status::NoMemory);
                }
            }
            Ok(words)
        }
        Err(error) if error.kind() == io::ErrorKind::OutOfMemory => Err(Status::NoMemory),
        Err(_) => Err(Status::Usage),
    }
}
