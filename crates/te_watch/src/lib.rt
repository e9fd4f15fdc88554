//! Observers that never wait see the state of a runtime that one publisher shows.
#![tactic(auto)]

mod fault;
mod ledger;
mod light;
mod notice;
mod observer;
mod publisher;
mod publishing;
mod shown;
mod view;
mod watching;

pub use fault::PublishFault;
pub use light::Light;
pub use observer::{Observer, Told};
pub use publisher::Publisher;
pub use view::View;
pub use watching::watch;
