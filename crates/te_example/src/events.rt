// The events of the parties, by the forms of te_forms.

ghost use Rattle.std.specs.Prelude.{◌≤◌, IfOk, length};

use std::alloc::Global;
use te_forms::{Ring, barrier, swap};
use te_terms::{Atom, Event, NoMemory, Value};

/// The swaps of three parties in a ring, who offer 10, 20 and 30.
pub fn swaps(alloc: Global) -> Result<Vec<Event>, NoMemory>
    ensures { IfOk result (λ events. length events.items ≤ 63) }
{
    let mut events = Vec::new(alloc);
    if let Some(ring) = Ring::of(&[0, 1, 2]) {
        'role: for role in 0..ring.len() {
            let offer = Value::of(&[Atom::Int(10 + 10 * i64::from(role))]).unwrap_or_default();
            events.push(swap(alloc, &ring, role, offer)?)?;
        }
    }
    Ok(events)
}

/// The barriers of five parties.
pub fn barriers(alloc: Global) -> Result<Vec<Event>, NoMemory>
    ensures { IfOk result (λ events. length events.items ≤ 63) }
{
    let mut events = Vec::new(alloc);
    if let Some(ring) = Ring::of(&[0, 1, 2, 3, 4]) {
        'role: for role in 0..ring.len() {
            events.push(barrier(alloc, &ring, role)?)?;
        }
    }
    Ok(events)
}
