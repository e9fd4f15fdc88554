//! Paths with clocks: partial runs of threads, and which of them are parts of one run.
#![tactic(auto)]

mod conditions;
mod laws;
mod making;
mod moves;
mod planned;
mod reading;
mod store;
mod ticks;
mod trailing;

pub use laws::{clocks_name_the_deepest, pasts_are_chains, paths_have_names};
pub use moves::Move;
pub use store::TrailStore;
