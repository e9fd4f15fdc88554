ghost use Rattle.std.specs.Prelude.{◌≡◌, ◌-◌, ◌≤◌, [], ◌∷◌, length, replicate, IfOk};
ghost use Rattle.te_terms.specs.Terms.{closed};
ghost use Rattle.te_terms.specs.Codes.{term_under};

use std::alloc::Global;
use std::sync::Arc;
use te_terms::{Event, EventCode, NoMemory, Node, Value};

/// The event under the last of these few nodes, over a value in register 0. The nodes of a form keep all limits, so that
/// the one refusal is want of memory.
pub(crate) fn event_of(alloc: Global, nodes: &[Node], value: Value) -> Result<Event, NoMemory>
    requires { 1 ≤ length nodes.now }
    ensures { IfOk result (λ event. event ≡ closed (value ∷ replicate 7 []) (term_under nodes.now (length nodes.now - 1))) }
{
    let mut code = EventCode::new(alloc);
    for node in nodes {
        let Ok(_) = code.push(*node) else {
            return Err(NoMemory);
        };
    }
    let root = code.len() - 1;
    let mut regs = [Value::unit(); 8];
    regs[0] = value;
    match Event::new(Arc::new(alloc, code)?, root, regs) {
        Some(event) => Ok(event),
        None => unreachable!(),
    }
}
