//! The board of transactional events: a legal history with room for all that its callers may still need.
#![tactic(auto)]

mod appending;
mod board;
mod fault;
mod matching;
mod snapshot;

pub use board::Board;
pub use fault::BoardFault;
pub use snapshot::Snapshot;
