//! Callers in threads of their own share one legal history of transactional events.
#![tactic(auto)]

mod answers;
mod comparing;
mod driving;
mod ending;
mod fault;
mod gate;
mod house;
mod looking;
mod offering;
mod parting;
mod polling;
mod recalling;
mod resting;
mod running;
mod runtime;
mod syncing;
mod telling;
mod turns;
mod waking;
mod working;

pub use answers::{Driven, Polled};
pub use fault::SyncFault;
pub use gate::{Gate, OpenGate};
pub use house::House;
pub use running::run_threads;
pub use runtime::TeRuntime;
