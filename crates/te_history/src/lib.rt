//! Histories of transactional events: their entries, and the machine that says which entry may follow.
#![tactic(auto)]

mod committing;
mod copying;
mod entry;
mod following;
mod history;
mod laws;
mod parking;
mod same;
mod seat;
mod status;

#[doc(hidden)]
pub use committing::{may_commit_played, play_commit};
pub use entry::{Entry, StepFault};
#[doc(hidden)]
pub use following::first_live;
pub use following::may_follow;
pub use history::Hist;
pub use laws::{
    declarations_stand, ended_stays, legal_is_loose, posts_alone_raise_room, refusals_are_one,
    room_goes_by_entries, stuck_boards_wait, tickets_are_given_once,
};
#[doc(hidden)]
pub use parking::parked_of;
pub use status::{How, Phase, Status};
