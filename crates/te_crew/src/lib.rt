//! A search for groups of parked events whose looks at paths are shared among workers.
#![tactic(auto)]

mod applying;
mod finding;
mod looking;

#[doc(hidden)]
pub use applying::apply_all;
pub use finding::find_with;
#[doc(hidden)]
pub use looking::{crew_for, look_at, looks_of, no_looks};
