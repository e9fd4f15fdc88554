//! A search for groups of parked events whose looks at paths are stolen, and the relay of numbers that they are taken from.
#![tactic(auto)]

mod closing;
mod finding;
mod gathering;
mod robbing;
mod rule;
mod sharing;
mod stealing;

pub use closing::close;
pub use finding::find_steal;
pub use sharing::{Owner, Thief, relay};
