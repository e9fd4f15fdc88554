//! Path states: an event as far as a thread's path through it has come.
#![tactic(auto)]

mod cells;
mod frames;
mod fresh;
mod laws;
mod looking;
mod moves;
mod path;
mod place;
mod posted;
mod spot;
mod values;

pub use cells::{CellMark, Cells};
pub use laws::spots_stay;
pub use path::PathState;
pub use posted::Posted;
pub use spot::{Spot, Stop};
