//! Serial rounds: one thread runs the cores of a board's callers until every caller has ended.
#![tactic(auto)]

mod closing;
mod committing;
mod fault;
mod finishing;
mod fresh;
mod opening;
mod place;
mod rounds;
mod taking;

pub use fault::FinishFault;
pub use finishing::finish;
pub use fresh::{fresh_channels_are_different, fresh_channels_are_made_by_commits};
