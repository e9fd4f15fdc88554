ghost use Rattle.std.specs.Prelude.{◌≡◌, ◌↔◌, IsTrue};

use te_terms::Outcome;

/// Whether two outcomes are the same.
pub(crate) fn is_same(outcome: &Outcome, other: &Outcome) -> bool
    ensures { IsTrue result ↔ (outcome.now ≡ other.now) }
{
    match outcome {
        Outcome::Gives(v) => match other {
            Outcome::Gives(w) => *v == *w,
            Outcome::Raises(_) => false,
        },
        Outcome::Raises(v) => match other {
            Outcome::Gives(_) => false,
            Outcome::Raises(w) => *v == *w,
        },
    }
}
