// Two lists of parked events.

ghost use Rattle.std.specs.Prelude.{◌≡◌, ◌↔◌, IsTrue};

use te_terms::Parked;

/// Whether two parked events are one: of the same thread, under the same ticket, and the same event.
fn is_same(one: &Parked, other: &Parked) -> bool
    ensures { IsTrue result ↔ (one.now ≡ other.now) }
{
    one.thread == other.thread && one.ticket == other.ticket && one.event.same(&other.event)
}

/// Whether two lists of parked events are one.
pub(crate) fn are_same(ones: &[Parked], others: &[Parked]) -> bool
    ensures { IsTrue result ↔ (ones.now ≡ others.now) }
{
    if ones.len() != others.len() {
        return false;
    }
    for k in 0..ones.len() {
        if !is_same(&ones[k], &others[k]) {
            return false;
        }
    }
    true
}
