//! An example of the library: callers in threads of their own swap in a ring, and then all wait for each other.
#![tactic(auto)]

mod callers;
mod events;

use callers::{Answer, all_synchronise};
use events::{barriers, swaps};
use std::alloc::Global;
use std::io;
use std::process::ExitCode;
use std::sync::Wait;
use std::thread::Threads;
use te_terms::{Atom, NoMemory, Outcome, Value};

/// Why the program stops.
#[derive(Drop)]
enum Trouble {
    Memory,
    Output,
}

impl From<NoMemory> for Trouble {
    fn from(_: NoMemory) -> Trouble {
        Trouble::Memory
    }
}

impl From<io::Error> for Trouble {
    fn from(_: io::Error) -> Trouble {
        Trouble::Output
    }
}

// The integer that a value of one has.
fn integer(value: &Value) -> Option<i64> {
    match value.get(0) {
        Some(Atom::Int(integer)) => Some(integer),
        _ => None,
    }
}

// A line for each answer, in order of the parties.
fn tell(rt: &impl Print, answers: &[Answer]) -> io::Result<()> {
    for (party, answer) in answers.iter().enumerate() {
        match answer {
            Ok(Outcome::Gives(value)) => match integer(value) {
                Some(integer) => println!(rt; "party {party} gets {integer}")?,
                None => println!(rt; "party {party} goes on")?,
            },
            Ok(Outcome::Raises(_)) => println!(rt; "party {party} raises")?,
            Err(fault) => println!(rt; "party {party} is told {fault:?}")?,
        }
    }
    Ok(())
}

fn run<R: Threads + Wait + Sync + Print>(rt: &R, alloc: Global) -> Result<(), Trouble> {
    println!(rt; "three swap in a ring")?;
    let swapped = all_synchronise(rt, alloc, swaps(alloc)?.as_slice())?;
    tell(rt, swapped.as_slice())?;
    println!(rt; "five meet at a barrier")?;
    let met = all_synchronise(rt, alloc, barriers(alloc)?.as_slice())?;
    tell(rt, met.as_slice())?;
    Ok(())
}

fn main(rt: HostRuntime) -> ExitCode {
    match run(&rt, rt.alloc()) {
        Ok(()) => ExitCode::SUCCESS,
        Err(_) => ExitCode::FAILURE,
    }
}
