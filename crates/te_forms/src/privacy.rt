ghost use Rattle.std.specs.Prelude.{◌↔◌, IsTrue};
ghost use Rattle.te_forms.specs.Privacy.{FitsRing, ValueAvoids, IsPrivate};
ghost use Rattle.te_forms.specs.Forms.{offer_of};
ghost use Rattle.te_forms.specs.Reading.{EntryFits};

use crate::entries::entry_at;
use crate::form::Form;
use crate::naming::{avoids_under, value_avoids};
use crate::reading::form_of;
use crate::ring::Ring;
use te_history::{Entry, Hist};
use te_terms::Event;

fn offer_avoids(form: &Form, ring: &Ring) -> bool
    ensures { IsTrue result ↔ ValueAvoids ring.now (offer_of form.now) }
{
    match form {
        Form::Swap(_, offer) => value_avoids(offer, ring),
        Form::Barrier(_) => true,
    }
}

// Whether the event is a form's over the ring whose offer names no channel of the ring, or names none at all.
fn fits(event: &Event, ring: &Ring) -> bool
    ensures { IsTrue result ↔ FitsRing ring.now event.now }
{
    // Every ring is one.
    let _ = ring.len();
    match form_of(event, ring) {
        Some(form) => offer_avoids(&form, ring),
        None => {
            let (code, root, regs) = event.parts();
            avoids_under(code, root, regs, ring)
        }
    }
}

fn entry_fits(entry: &Entry, ring: &Ring) -> bool
    ensures { IsTrue result ↔ EntryFits ring.now entry.now }
{
    match entry {
        Entry::Post { event, .. } => fits(event, ring),
        _ => true,
    }
}

/// Whether the history keeps the ring private: each event that is posted in it is a swap or a barrier over the ring
/// whose offer names no channel of the ring, or names no channel of the ring at all. It takes no memory. This project's own.
pub fn is_private(hist: &Hist, ring: &Ring) -> bool
    ensures { IsTrue result ↔ IsPrivate ring.now hist.now.entries }
{
    for i in 0..hist.len() {
        if !entry_fits(entry_at(hist, i), ring) {
            return false;
        }
    }
    true
}
