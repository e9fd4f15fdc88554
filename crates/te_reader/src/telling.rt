ghost use Rattle.std.specs.Prelude.{◌≡◌, None, length};
ghost use Rattle.te_reader.specs.Runs.{fault_of};
ghost use Rattle.te_reader.specs.Places.{fault_from};
ghost use Rattle.te_reader.specs.Telling.{FaultIsTold};

use crate::cause::{Cause, Which};
use crate::fault::ScriptFault;
use crate::finder::fault_of;
use crate::place::{Place, place_behind};
use std::alloc::Global;

// A fault at its place.
fn fault_at(cause: Cause, place: Place) -> ScriptFault
    ensures { result ≡ fault_from cause place }
{
    match cause {
        Cause::Bytes => ScriptFault::Bytes(place),
        Cause::Token => ScriptFault::Token(place),
        Cause::Syntax => ScriptFault::Syntax(place),
        Cause::Integer => ScriptFault::Integer(place),
        Cause::Unbound => ScriptFault::Unbound(place),
        Cause::Twice => ScriptFault::Twice(place),
        Cause::Shadow => ScriptFault::Shadow(place),
        Cause::NoThread => ScriptFault::NoThread(place),
        Cause::Limit(which) => ScriptFault::Limit(which, place),
    }
}

/// The fault of a text that has one, or that there was no memory. The text is gone through once more, for
/// most texts have no fault, and their reader keeps no places.
pub fn told(alloc: Global, bytes: &[u8]) -> ScriptFault
    requires { fault_of bytes.now ≡ None → ⊥ }
    ensures { FaultIsTold bytes.now result }
{
    if bytes.len() > 1_048_576 {
        return ScriptFault::Limit(Which::Bytes, Place { line: 1, column: 1 });
    }
    match fault_of(alloc, bytes) {
        Ok(Some(found)) => {
            let before = bytes.len().saturating_sub(found.left);
            fault_at(found.cause, place_behind(bytes, before))
        }
        // a text that was refused has a fault, so only want of memory comes here
        _ => ScriptFault::Memory,
    }
}
