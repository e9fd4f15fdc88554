//! Certificates: how a group reduces, and the check that it does.
#![tactic(auto)]

mod cert;
mod checking;
mod group;
mod laws;
mod lent;
mod playing;
mod room;
mod seat;

pub use cert::{Cert, CertFault, Meeting, Member};
pub use checking::{check, check_in};
pub use laws::{advances_end, checks_accept, checks_are_one, plays_reduce, reductions_play};
pub use lent::Lent;
pub use room::Room;
