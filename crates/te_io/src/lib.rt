//! Sources and sinks of bytes, whose contracts tell the bytes and count the faults.
#![tactic(auto)]

mod copying;
mod fault;
mod in_memory;
mod reading;
mod sink;
mod source;
mod std_ends;
mod steady;
mod writing;

pub use fault::{Failed, ReadFault};
pub use in_memory::{MemSink, MemSource};
pub use reading::read_up_to;
pub use sink::Sink;
pub use source::Source;
pub use std_ends::{StdSink, StdSource};
pub use steady::{SteadySink, SteadySource};
pub use writing::write_whole;
