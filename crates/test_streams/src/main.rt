//! Copies the standard input to the standard output, three bytes at a time, through the adapters of
//! the system's streams, and says on the standard error that all was copied.
#![tactic(auto)]

use grin_io::{Failed, Sink, Source};
use std::process::ExitCode;
use system_io::{std_err, std_in, std_out};

/// Copies what a source gives in at most a thousand readings.
fn copy(input: &mut impl Source, out: &mut impl Sink) -> Result<(), Failed> {
    let mut buf = [0; 3];
    for _reading in 0..1000 {
        let count = input.read(&mut buf)?;
        if count == 0 {
            return Ok(());
        }
        out.put(&buf[..count])?;
    }
    Ok(())
}

fn main(rt: HostRuntime) -> ExitCode {
    let mut input = std_in(&rt);
    let mut out = std_out(&rt);
    let copied = copy(&mut input, &mut out);
    if copied.is_err() || std_err(&rt).put(b"copied\n").is_err() {
        return ExitCode::from(1);
    }
    ExitCode::from(0)
}
