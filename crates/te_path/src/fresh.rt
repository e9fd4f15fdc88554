// Fresh channels.

ghost use Rattle.std.specs.Prelude.{◌≡◌, ◌<◌, [], ◌∷◌};
ghost use Rattle.te_terms.specs.declared.value.Atom.TheVariants.{Chan};
ghost use Rattle.te_terms.specs.Limits.{most_fresh};
ghost use Rattle.te_terms.specs.Values.{fresh_channel};

use crate::posted::Posted;
use te_terms::{Atom, Value};

/// The value that has the fresh channel that is made after so many others.
pub(crate) fn fresh_value(posted: &Posted, count: u32) -> Value
    requires { count < most_fresh }
    ensures { result ≡ Chan (fresh_channel posted.now.thread posted.now.ticket count) ∷ [] }
{
    let posting = (posted.thread % 64) * 262_144 + posted.ticket % 262_144;
    let channel = 1_073_741_824 + posting * 16 + count;
    match Value::of(&[Atom::Chan(channel)]) {
        Some(value) => value,
        None => unreachable!(),
    }
}
