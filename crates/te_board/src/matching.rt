// The parked callers of a history, compared with a list.

ghost use Rattle.std.specs.Prelude.{◌≡◌, ◌≢◌, ◌↔◌, ◌<◌, false, IsTrue};
ghost use Rattle.te_terms.specs.Terms.{Term};
ghost use Rattle.te_history.specs.declared.status.Status.TheVariants as statuses;
ghost use Rattle.te_history.specs.State.{parked as parked_as, parked_list};
ghost use Rattle.te_history.specs.Follows.{Stands};
ghost use Rattle.te_history.specs.Histories.{now, HasStatus};

use te_history::{Hist, Status};
use te_terms::Parked;

/// Whether the parked callers are these.
pub(crate) fn are_parked(hist: &Hist, parked: &[Parked]) -> bool
    ensures { IsTrue result ↔ (parked_list (now hist.now) ≡ parked.now) }
{
    let mut next = 0;
    for thread in 0..hist.callers() {
        let Status::Parked(ticket) = hist.status(thread) else {
            continue;
        };
        let Some(that) = parked.get(next) else {
            return false;
        };
        if !is_that(hist, thread, ticket, that) {
            return false;
        }
        next += 1;
    }
    next == parked.len()
}

// Whether the caller, which is parked under the ticket, is this one with this event.
fn is_that(hist: &Hist, thread: u32, ticket: u32, parked: &Parked) -> bool
    requires low { thread < hist.now.callers }
    requires stands { HasStatus (now hist.now) thread (statuses.Parked ticket) }
    ensures yes { IsTrue result → Stands (now hist.now) thread (parked_as ticket parked.now.event) × (parked.now.thread ≡ thread) × (parked.now.ticket ≡ ticket) }
    ensures not { result ≡ false → (event : Term) → Stands (now hist.now) thread (parked_as ticket event) → parked.now ≢ record { thread = thread; ticket = ticket; event = event } }
{
    if parked.thread != thread {
        return false;
    }
    if parked.ticket != ticket {
        return false;
    }
    parked.event.same(hist.parked_event(thread))
}
