//! Events of many parties: guarded receives, and swaps and barriers over a ring of channels.
#![tactic(auto)]

mod building;
mod entries;
mod form;
mod forms;
mod handing;
mod naming;
mod pair;
mod privacy;
mod reading;
mod ring;

pub use forms::{barrier, guarded, swap};
pub use handing::handed;
pub use pair::Handed;
pub use privacy::is_private;
pub use ring::Ring;
