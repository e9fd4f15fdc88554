// Calls of a runtime, of which the tests need that the pass has read on.

ghost use Rattle.std.specs.Prelude.{◌≡◌, ◌≤◌, false, length};
ghost use mathlib.Core.List.{IsPrefix};
ghost use Rattle.te_lock.specs.Lock.{IsSamePass};

use std::alloc::Global;
use std::sync::Arc;
use std::test::Fail;
use std::thread::Threads;
use te_board::Board;
use te_history::Entry;
use te_lock::Pass;
use te_runtime::{Driven, Polled, SyncFault, TeRuntime};
use te_terms::{Atom, Calc, Calcs, Event, EventCode, Expr, Node, Prim, Rows, Value};

pub(crate) fn event(alloc: Global, node: Node) -> Result<Event, Fail> {
    let mut code = EventCode::new(alloc);
    let root = code.push(node).ok().ok_or("a node")?;
    let code = Arc::new(alloc, code)?;
    Ok(Event::new(code, root, [Value::unit(); 8]).ok_or("a root")?)
}

// send 0 (7)
pub(crate) fn sends(alloc: Global) -> Result<Event, Fail> {
    let calcs = Calcs::of(&[Calc::One(Prim::Int(7))]).ok_or("a tuple")?;
    event(alloc, Node::Send(Prim::Chan(0), Expr::Tuple(calcs)))
}

pub(crate) fn offer(
    runtime: &TeRuntime,
    pass: &mut Pass<Board>,
    event: &Event,
) -> Result<u32, SyncFault>
    requires here { pass.old.lock ≡ runtime.now }
    requires idle { pass.old.has_turn ≡ false }
    ensures same { IsSamePass pass.old pass.new }
    ensures turn { pass.new.has_turn ≡ false }
    ensures grows { IsPrefix pass.old.read pass.new.read }
{
    runtime.offer(pass, event)
}

fn recall(runtime: &TeRuntime, pass: &mut Pass<Board>) -> Result<u32, SyncFault>
    requires here { pass.old.lock ≡ runtime.now }
    requires idle { pass.old.has_turn ≡ false }
    ensures same { IsSamePass pass.old pass.new }
    ensures turn { pass.new.has_turn ≡ false }
    ensures grows { IsPrefix pass.old.read pass.new.read }
{
    runtime.recall(pass)
}

// Parks the event, or takes it back.
pub(crate) fn offer_or_recall(
    runtime: &TeRuntime,
    pass: &mut Pass<Board>,
    event: &Event,
    parks: bool,
) -> Result<u32, SyncFault>
    requires here { pass.old.lock ≡ runtime.now }
    requires idle { pass.old.has_turn ≡ false }
    ensures same { IsSamePass pass.old pass.new }
    ensures turn { pass.new.has_turn ≡ false }
    ensures grows { IsPrefix pass.old.read pass.new.read }
{
    if parks {
        offer(runtime, pass, event)
    } else {
        recall(runtime, pass)
    }
}

pub(crate) fn poll(runtime: &TeRuntime, pass: &mut Pass<Board>) -> Result<Polled, SyncFault>
    requires here { pass.old.lock ≡ runtime.now }
    requires idle { pass.old.has_turn ≡ false }
    ensures same { IsSamePass pass.old pass.new }
    ensures turn { pass.new.has_turn ≡ false }
    ensures grows { IsPrefix pass.old.read pass.new.read }
{
    runtime.poll(pass)
}

pub(crate) fn drive<R: Threads + Sync>(
    rt: &R,
    alloc: Global,
    runtime: &TeRuntime,
    pass: &mut Pass<Board>,
) -> Result<Driven, SyncFault>
    requires here { pass.old.lock ≡ runtime.now }
    requires idle { pass.old.has_turn ≡ false }
    ensures same { IsSamePass pass.old pass.new }
    ensures turn { pass.new.has_turn ≡ false }
    ensures grows { IsPrefix pass.old.read pass.new.read }
{
    runtime.drive(rt, alloc, pass, 100_000)
}

pub(crate) fn news(
    alloc: Global,
    runtime: &TeRuntime,
    pass: &mut Pass<Board>,
    from: u64,
) -> Result<Rows<Entry>, SyncFault>
    requires here { pass.old.lock ≡ runtime.now }
    requires idle { pass.old.has_turn ≡ false }
    requires from { from ≤ length pass.old.read }
    ensures same { IsSamePass pass.old pass.new }
    ensures turn { pass.new.has_turn ≡ false }
    ensures grows { IsPrefix pass.old.read pass.new.read }
{
    runtime.news(alloc, pass, from)
}
