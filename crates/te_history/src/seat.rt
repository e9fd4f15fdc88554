// A caller as the machine keeps it, and what an entry changes of it.

ghost use Rattle.te_terms.specs.declared.event.Outcome.{Outcome as Given};
ghost use Rattle.te_cert.specs.Certificates.{Certificate};
ghost use Rattle.std.specs.Prelude.{ℕ, List, ◌≡◌, ◌<◌, ◌^◌, length, replicate, slice_get, IfOk};
ghost use Rattle.std.specs.List.{AllByRecursion};
ghost use Rattle.te_history.specs.declared.status.Status.TheVariants.{Idle};
ghost use Rattle.te_history.specs.declared.entry.Entry.TheVariants.{Commit};
ghost use Rattle.te_history.specs.Follows.{caller_of};
ghost use Rattle.te_history.specs.Kept.{with_status, with_post, seats_given, seats_after, phase_after, resting_after};

use crate::entry::Entry;
use crate::status::{Phase, Status};
use std::alloc::Global;
use te_cert::Member;
use te_terms::{NoMemory, Outcome};

/// How often a caller has posted, the place of its last post among the entries, and where it stands.
#[derive(Clone, Copy)]
pub(crate) struct Seat {
    pub(crate) posts: u32,
    pub(crate) place: u32,
    pub(crate) status: Status,
}

/// So many callers that stand idle and have never posted.
pub(crate) fn idle_seats(alloc: Global, callers: u32) -> Result<Vec<Seat>, NoMemory>
    ensures { IfOk result (λ seats. seats.items ≡ replicate callers (record { posts = 0; place = 0; status = Idle })) }
{
    // The checker knows the type within a status only where the body names it.
    let _outcome: Option<Outcome> = None;
    let seat = Seat {
        posts: 0,
        place: 0,
        status: Status::Idle,
    };
    let seats = vec![in alloc; seat; callers as usize]?;
    Ok(seats)
}

fn take_status(seats: &mut [Seat], t: u32, status: Status)
    requires { t < length seats.old }
    ensures { seats.new ≡ with_status t status seats.old }
{
    seats[t as usize].status = status;
}

fn take_post(seats: &mut [Seat], t: u32, ticket: u32, place: u32)
    requires within { t < length seats.old }
    requires few { (seat : Seat) → slice_get seats.old t ≡ Some seat → seat.posts < 2 ^ 31 }
    ensures { seats.new ≡ with_post t ticket place seats.old }
{
    let posts = seats[t as usize].posts + 1;
    seats[t as usize] = Seat {
        posts,
        place,
        status: Status::Parked(ticket),
    };
}

fn give(seats: &mut [Seat], members: &[Member], outcomes: &[Outcome])
    requires { AllByRecursion (λ m. m.thread < length seats.old) members.now }
    ensures { seats.new ≡ seats_given members.now outcomes.now seats.old }
{
    match members {
        [] => {}
        [member, members_rest @ ..] => match outcomes {
            [] => {}
            [outcome, outcomes_rest @ ..] => {
                let status = Status::Given(member.ticket, *outcome);
                take_status(seats, member.thread, status);
                give(seats, members_rest, outcomes_rest);
            }
        },
    }
}

/// The seats after an entry, which stands at the place among the entries.
pub(crate) fn sit(seats: &mut [Seat], place: u32, entry: &Entry)
    requires caller { caller_of entry.now < length seats.old }
    requires members { (by : ℕ) (cert : Certificate) (outcomes : List Given) → entry.now ≡ Commit by cert outcomes
        → AllByRecursion (λ m. m.thread < length seats.old) cert.members }
    requires few { (seat : Seat) → slice_get seats.old (caller_of entry.now) ≡ Some seat → seat.posts < 2 ^ 31 }
    ensures { seats.new ≡ seats_after place seats.old entry.now }
{
    match entry {
        Entry::Post { by, ticket, .. } => take_post(seats, *by, *ticket, place),
        Entry::Commit { cert, outcomes, .. } => give(
            seats,
            cert.members.as_slice(),
            outcomes.as_slice(),
        ),
        Entry::Withdraw { by, .. } | Entry::Take { by, .. } => take_status(
            seats,
            *by,
            Status::Idle,
        ),
        Entry::End { by, .. } => take_status(seats, *by, Status::Ended),
        Entry::Rest { .. } | Entry::Stuck { .. } => {}
    }
}

/// The phase after an entry.
pub(crate) fn phase_after(phase: Phase, entry: &Entry) -> Phase
    ensures { result ≡ phase_after phase entry.now }
{
    match entry {
        Entry::Stuck { .. } => Phase::Stuck,
        _ => phase,
    }
}

/// Whether the board rests after an entry.
pub(crate) fn resting_after(resting: bool, entry: &Entry) -> bool
    ensures { result ≡ resting_after resting entry.now }
{
    match entry {
        Entry::Rest { .. } => true,
        _ => resting,
    }
}
