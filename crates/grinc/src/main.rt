//! The compiler as a program: its words, files and streams, and the status of the process.
#![tactic(auto)]

use grin_driver::{Line, Status};
use promise::run_main;
use std::env;
use std::io::ErrorKind;
use std::process::ExitCode;
use system_io::{FileShelf, std_err, std_in, std_out};

/// The words of the command line. `Usage` where one of them isn't UTF-8, and `OutOfMemory` where
/// memory is wanting.
fn words(runtime: &HostRuntime) -> Result<Line, Status> {
    let mut line = Line::new(runtime.alloc());
    let words = match env::args(runtime) {
        Ok(words) => words,
        Err(error) => {
            return Err(if error.kind() == ErrorKind::OutOfMemory {
                Status::OutOfMemory
            } else {
                Status::Usage
            });
        }
    };
    for word in words {
        if line.add(word.as_str()).is_err() {
            return Err(Status::OutOfMemory);
        }
    }
    Ok(line)
}

fn main(runtime: HostRuntime) -> ExitCode {
    let alloc = runtime.alloc();
    let mut input = std_in(&runtime);
    let mut out = std_out(&runtime);
    let mut err = std_err(&runtime);
    let status = match words(&runtime) {
        Ok(line) => {
            let mut shelf = FileShelf::new(runtime);
            run_main(alloc, &line, &mut shelf, &mut input, &mut out, &mut err)
        }
        Err(status) => {
            status.tell(&mut err);
            status
        }
    };
    ExitCode::from(status.code())
}
