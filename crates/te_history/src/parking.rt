ghost use Rattle.std.specs.Prelude.{◌≡◌, IfOk};
ghost use Rattle.te_history.specs.State.{parked_list};
ghost use Rattle.te_history.specs.Histories.{now};

use crate::history::Hist;
use crate::status::Status;
use std::alloc::Global;
use te_terms::{NoMemory, Parked, Rows};

/// The parked callers with ticket and event, threads rising; the codes of the events are shared.
/// Refused for want of memory alone.
pub fn parked_of(alloc: Global, hist: &Hist) -> Result<Rows<Parked>, NoMemory>
    ensures { IfOk result (λ rows. rows ≡ parked_list (now hist.now)) }
{
    let mut parked = Vec::new(alloc);
    for thread in 0..hist.callers() {
        let Status::Parked(ticket) = hist.status(thread) else {
            continue;
        };
        let event = hist.parked_event(thread).copy()?;
        parked.push(Parked {
            thread,
            ticket,
            event,
        })?;
    }
    Ok(Rows::from(parked))
}
