// Events that tests search.

ghost use Rattle.std.specs.Prelude.{IfOk};
ghost use Rattle.te_terms.specs.Joint.{IsGroup, as_group};

use std::alloc::Global;
use std::sync::Arc;
use std::test::Fail;
use te_search::KeptSearch;
use te_terms::{Arith, Calc, Calcs, Event, EventCode, Expr, Node, Parked, Prim, Value, Var};

fn tuple(calc: Calc) -> Expr {
    match Calcs::of(&[calc]) {
        Some(calcs) => Expr::Tuple(calcs),
        None => Expr::Whole(Var::Reg(0)),
    }
}

// (1)
fn one() -> Expr {
    tuple(Calc::One(Prim::Int(1)))
}

// (u.0 + 1), where u is what the first step gave
fn one_more() -> Expr {
    tuple(Calc::Op(Arith::Add, Prim::Part(Var::Inner(0), 0), Prim::Int(1)))
}

/// send channel (1)
fn send(channel: u32) -> Node {
    Node::Send(Prim::Chan(channel), one())
}

/// recv channel
fn recv(channel: u32) -> Node {
    Node::Recv(Prim::Chan(channel))
}

fn push(code: &mut EventCode, node: Node) -> Result<u32, Fail> {
    Ok(code.push(node).ok().ok_or("a node")?)
}

// The event under the last of these nodes, after so many choices that don't matter.
fn event(alloc: Global, nodes: &[Node], choices: u32) -> Result<Event, Fail> {
    let mut code = EventCode::new(alloc);
    let mut root = 0;
    for node in nodes {
        root = push(&mut code, *node)?;
    }
    for _ in 0..choices {
        let left = push(&mut code, Node::Always(one()))?;
        let right = push(&mut code, Node::Always(one()))?;
        let choice = push(&mut code, Node::Choose(left, right))?;
        root = push(&mut code, Node::Then(choice, root))?;
    }
    let regs = [Value::unit(); 8];
    Ok(Event::new(Arc::new(alloc, code)?, root, regs).ok_or("a root")?)
}

// Parks an event for a thread that has none.
fn post(kept: &mut KeptSearch, thread: u32, event: &Event) -> Result<(), Fail> {
    if thread >= 64 || kept.has_thread(thread) {
        Err("a thread without an event")?;
    }
    Ok(kept.post(thread, 0, event)?)
}

// Three events, of threads 0 to 2, parked under ticket 0.
fn parked(alloc: Global, first: Event, second: Event, third: Event) -> Result<Vec<Parked>, Fail>
    ensures { IfOk result (λ parked. IsGroup (as_group parked.items)) }
{
    let mut kept = KeptSearch::new(alloc);
    post(&mut kept, 0, &first)?;
    post(&mut kept, 1, &second)?;
    post(&mut kept, 2, &third)?;
    Ok(kept.listed(alloc)?)
}

// do { u <- recv from; send to (u.0 + 1); always u }
fn passes_on(alloc: Global, from: u32, to: u32) -> Result<Event, Fail> {
    let sends = Node::Send(Prim::Chan(to), one_more());
    let gives = Node::Always(Expr::Whole(Var::Inner(0)));
    event(
        alloc,
        &[recv(from), sends, gives, Node::Then(1, 2), Node::Then(0, 3)],
        0,
    )
}

/// A ring: each of three threads sends to the next, and only all together reduce.
pub(crate) fn ring(alloc: Global) -> Result<Vec<Parked>, Fail>
    ensures { IfOk result (λ parked. IsGroup (as_group parked.items)) }
{
    let first = event(alloc, &[send(0), recv(2), Node::Then(0, 1)], 0)?;
    parked(
        alloc,
        first,
        passes_on(alloc, 0, 1)?,
        passes_on(alloc, 1, 2)?,
    )
}

/// What the first two could meet rests on both branches of the third.
pub(crate) fn apart(alloc: Global) -> Result<Vec<Parked>, Fail>
    ensures { IfOk result (λ parked. IsGroup (as_group parked.items)) }
{
    let first = event(alloc, &[recv(0), send(2), Node::Then(0, 1)], 0)?;
    let second = event(alloc, &[recv(1), recv(2), Node::Then(0, 1)], 0)?;
    let third = event(alloc, &[send(0), send(1), Node::Choose(0, 1)], 0)?;
    parked(alloc, first, second, third)
}

/// Each of 32 paths of the first meets each of 32 of the second, and then the first can't end; the third has no partner.
pub(crate) fn crowd(alloc: Global) -> Result<Vec<Parked>, Fail>
    ensures { IfOk result (λ parked. IsGroup (as_group parked.items)) }
{
    let first = event(alloc, &[send(0), Node::Never, Node::Then(0, 1)], 5)?;
    let second = event(alloc, &[recv(0)], 5)?;
    let third = event(alloc, &[recv(1)], 0)?;
    parked(alloc, first, second, third)
}
