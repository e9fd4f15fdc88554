//! Paths that wait at a channel, and those of them that a path can meet.
#![tactic(auto)]

mod end;
mod places;
mod waiting;

pub use waiting::Waiting;
