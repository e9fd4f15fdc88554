//! The program `tevents`: runs the threads of a script and writes what they did.
#![tactic(auto)]

mod answering;
mod checking;
mod faults;
mod generating;
mod modes;
mod parting;
mod program;
mod reporting;
mod running;
mod task;
#[cfg(test)]
mod tests;
mod words;

use program::tevents;
use std::env;
use std::io::ErrorKind;
use std::process::ExitCode;
use te_io::{StdSink, StdSource};
use te_runtime::OpenGate;

fn main(rt: HostRuntime) -> ExitCode {
    let status = match words_of(&rt) {
        Ok(words) => {
            let mut source = StdSource::new(rt.reader());
            let mut sink = StdSink::new(rt.stdout());
            tevents(
                &rt,
                rt.alloc(),
                words.as_slice(),
                &mut source,
                &mut sink,
                &OpenGate,
            )
        }
        Err(status) => status,
    };
    ExitCode::from(status)
}

/// The words behind the program's name, or the status with which it ends for want of them. A word that isn't text is a faulty
/// command line, as any other word that isn't known.
fn words_of(rt: &HostRuntime) -> Result<Vec<String>, u8> {
    match env::args(rt) {
        Ok(words) => match words.skip(1).collect(rt.alloc()) {
            Ok(words) => Ok(words),
            Err(_) => Err(9),
        },
        Err(error) => match error.kind() {
            ErrorKind::InvalidData => Err(2),
            _ => Err(9),
        },
    }
}
