//! Reports of transactional events: the text of a history of a script's threads, written and read.
#![tactic(auto)]

mod commits;
mod commits_told;
mod cutting;
mod ending;
mod entries;
mod fault;
mod following;
mod indexed;
mod judging;
mod laws;
mod lines;
mod names;
mod numbers;
mod reading;
mod saying;
mod values;
mod values_told;
mod writing;

pub use ending::Ending;
pub use fault::{Cause, ReportFault};
#[doc(hidden)]
pub use laws::readings_are_one;
pub use laws::{channels_are_of_the_script, fresh_channels_are_spelled};
pub use reading::read_report;
#[doc(hidden)]
pub use reading::{Declaration, Reading, read_declared};
pub use writing::write_report;
