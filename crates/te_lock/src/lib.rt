//! A turn over one history, which callers in threads of their own add to.
#![tactic(auto)]

mod closing;
mod kept;
mod law;
mod meeting;
mod note;
mod pass;
mod steps;
mod turn;
mod view;

pub use kept::Kept;
pub use note::Note;
pub use pass::{Busy, Pass};
pub use turn::Turn;
