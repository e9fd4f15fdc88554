// Events that tests search.

ghost use Rattle.std.specs.Prelude.{IfOk};
ghost use Rattle.te_terms.specs.Joint.{IsGroup, as_group};

use std::alloc::Global;
use std::sync::Arc;
use std::test::Fail;
use te_search::KeptSearch;
use te_terms::{Arith, Calc, Calcs, Event, EventCode, Expr, Node, Parked, Prim, Value, Var};

/// A step of an event that tests search.
#[derive(Clone, Copy)]
pub(crate) enum Step {
    /// send channel (1)
    Send(u32),
    /// send channel (u.0 + 1), where u is what the first step gave
    SendMore(u32),
    /// recv channel
    Recv(u32),
    /// always u, where u is what the first step gave
    Give,
    /// throw (1)
    Throw,
    /// never
    Never,
    /// choose { send first (1) | send second (1) }
    Either(u32, u32),
    /// choose { always (1) | always (1) }
    Fork,
}

fn tuple(calc: Calc) -> Expr {
    match Calcs::of(&[calc]) {
        Some(calcs) => Expr::Tuple(calcs),
        None => Expr::Whole(Var::Reg(0)),
    }
}

// (1)
fn one() -> Expr {
    tuple(Calc::One(Prim::Int(1)))
}

// (u.0 + 1)
fn one_more() -> Expr {
    tuple(Calc::Op(Arith::Add, Prim::Part(Var::Inner(0), 0), Prim::Int(1)))
}

fn push(code: &mut EventCode, node: Node) -> Result<u32, Fail> {
    Ok(code.push(node).ok().ok_or("a node")?)
}

fn push_fork(code: &mut EventCode) -> Result<u32, Fail> {
    let left = push(code, Node::Always(one()))?;
    let right = push(code, Node::Always(one()))?;
    push(code, Node::Choose(left, right))
}

fn push_either(code: &mut EventCode, first: u32, second: u32) -> Result<u32, Fail> {
    let left = push(code, Node::Send(Prim::Chan(first), one()))?;
    let right = push(code, Node::Send(Prim::Chan(second), one()))?;
    push(code, Node::Choose(left, right))
}

/// Puts a step into a code.
pub(crate) fn push_step(code: &mut EventCode, step: Step) -> Result<u32, Fail> {
    match step {
        Step::Send(channel) => push(code, Node::Send(Prim::Chan(channel), one())),
        Step::SendMore(channel) => push(code, Node::Send(Prim::Chan(channel), one_more())),
        Step::Recv(channel) => push(code, Node::Recv(Prim::Chan(channel))),
        Step::Give => push(code, Node::Always(Expr::Whole(Var::Inner(0)))),
        Step::Throw => push(code, Node::Throw(one())),
        Step::Never => push(code, Node::Never),
        Step::Either(first, second) => push_either(code, first, second),
        Step::Fork => push_fork(code),
    }
}

/// Puts a part before another, where there is one.
pub(crate) fn push_before(
    code: &mut EventCode,
    first: u32,
    rest: Option<u32>,
) -> Result<u32, Fail> {
    match rest {
        Some(rest) => push(code, Node::Then(first, rest)),
        None => Ok(first),
    }
}

/// The event of a code under a node.
pub(crate) fn event_of(alloc: Global, code: EventCode, root: u32) -> Result<Event, Fail> {
    let regs = [Value::unit(); 8];
    Ok(Event::new(Arc::new(alloc, code)?, root, regs).ok_or("a root")?)
}

// The event of these steps, one after the other.
fn event(alloc: Global, steps: &[Step]) -> Result<Event, Fail> {
    let mut code = EventCode::new(alloc);
    let mut root = None;
    for i in 0..steps.len() {
        let first = push_step(&mut code, steps[steps.len() - 1 - i])?;
        root = Some(push_before(&mut code, first, root)?);
    }
    event_of(alloc, code, root.ok_or("a step")?)
}

/// Posts an event of these steps, for a thread that has none.
pub(crate) fn post(
    alloc: Global,
    kept: &mut KeptSearch,
    thread: u32,
    steps: &[Step],
) -> Result<(), Fail> {
    if thread >= 64 || kept.has_thread(thread) {
        Err("a thread without an event")?;
    }
    let event = event(alloc, steps)?;
    Ok(kept.post(thread, 0, &event)?)
}

/// A search of events of these steps, of threads from 0 on.
pub(crate) fn kept(alloc: Global, events: &[&[Step]]) -> Result<KeptSearch, Fail> {
    let mut kept = KeptSearch::new(alloc);
    let mut thread = 0u32;
    for steps in events {
        post(alloc, &mut kept, thread, steps)?;
        thread = thread.saturating_add(1);
    }
    Ok(kept)
}

/// Events of these steps, of threads from 0 on, parked under ticket 0.
pub(crate) fn parked(alloc: Global, events: &[&[Step]]) -> Result<Vec<Parked>, Fail>
    ensures { IfOk result (λ parked. IsGroup (as_group parked.items)) }
{
    let kept = kept(alloc, events)?;
    Ok(kept.listed(alloc)?)
}

/// A ring: each of three threads sends to the next, and only all together reduce.
pub(crate) fn ring(alloc: Global) -> Result<Vec<Parked>, Fail>
    ensures { IfOk result (λ parked. IsGroup (as_group parked.items)) }
{
    parked(
        alloc,
        &[
            &[Step::Send(0), Step::Recv(2)],
            &[Step::Recv(0), Step::SendMore(1), Step::Give],
            &[Step::Recv(1), Step::SendMore(2), Step::Give],
        ],
    )
}
