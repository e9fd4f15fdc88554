//! Scripts as values, one script thread with its wishes, and the scripts of the generator.
#![tactic(auto)]

mod generator;
mod limits;
mod script;
mod wish;

pub use generator::generate;
#[doc(hidden)]
pub use limits::{MOST_CHANNELS, MOST_STATEMENTS};
pub use script::{Script, Stmt, ThreadText};
pub use wish::{Core, Site, Want};
