//! The program `lorry_plan`: `front_desk::run` over the real files, the real standard output and the command line's words.
//!
//! The contract of `run` says what it prints and why it refuses. The files and the output are those of `system_files`. This crate adds
//! the words, the status, and the tests that cross crates.
#![tactic(auto)]

#[cfg(test)]
mod tests;

use front_desk::run;
use route_base::{Status, Text};
use std::env;
use std::io::ErrorKind;
use std::process::ExitCode;
use system_files::{RealFolder, RealOut};

// The words after the program's name, or the status to exit with if they can't be had.
fn words_of(rt: &HostRuntime) -> Result<Vec<Text>, Status> {
    let args = match env::args(rt) {
        Ok(args) => args,
        Err(error) => {
            return Err(if error.kind() == ErrorKind::OutOfMemory {
                Status::NoMemory
            } else {
                Status::Usage
            });
        }
    };
    let mut words = Vec::new(rt.alloc());
    for word in args.skip(1) {
        let Ok(text) = Text::of(rt.alloc(), word.as_str()) else {
            return Err(Status::NoMemory);
        };
        if words.push(text).is_err() {
            return Err(Status::NoMemory);
        }
    }
    Ok(words)
}

fn main(rt: HostRuntime) -> ExitCode {
    let status = match words_of(&rt) {
        Ok(words) => run(
            &rt,
            rt.alloc(),
            words.as_slice(),
            &mut RealFolder::new(&rt),
            &mut RealOut::new(&rt),
        ),
        Err(status) => status,
    };
    ExitCode::from(status.code())
}
