//! A search for groups of parked events that reduce together.
#![tactic(auto)]

mod assembly;
mod batched;
mod batches;
mod bound;
mod certifying;
mod finals;
mod finding;
mod kept;
mod listed;
mod planted;
mod stack;
mod work;

pub use batched::Look;
pub use batches::Search;
pub use bound::{enough, names_are_few};
pub use finding::{Found, SearchFault};
pub use kept::{KeptFound, KeptSearch, find};
