// The calls that wait, on one thread and on three.

ghost use Rattle.std.specs.Prelude.{◌≡◌, false, IfOk};

use crate::runtime::{event, nevers, one};
use std::alloc::Global;
use std::sync::{Arc, Wait};
use std::test::Fail;
use std::thread;
use std::thread::Threads;
use te_board::Board;
use te_history::{How, Status};
use te_lock::Pass;
use te_runtime::*;
use te_terms::{
    Arith, Atom, Calc, Calcs, Event, EventCode, Expr, Node, Outcome, Prim, Rows, Value, Var,
};

fn tuple(calc: Calc) -> Result<Expr, Fail> {
    Ok(Expr::Tuple(Calcs::of(&[calc]).ok_or("a tuple")?))
}

fn gives(number: i64) -> Outcome {
    Outcome::Gives(Value::of(&[Atom::Int(number)]).unwrap_or_default())
}

fn nothing() -> Outcome {
    Outcome::Gives(Value::unit())
}

// always (4)
fn fours(alloc: Global) -> Result<Event, Fail> {
    event(alloc, Node::Always(tuple(Calc::One(Prim::Int(4)))?))
}

// The event under the last of three nodes, of which it is one part after the other.
fn both(alloc: Global, first: Node, second: Node) -> Result<Event, Fail> {
    let mut code = EventCode::new(alloc);
    let one = code.push(first).ok().ok_or("a node")?;
    let other = code.push(second).ok().ok_or("a node")?;
    let root = code.push(Node::Then(one, other)).ok().ok_or("a node")?;
    let code = Arc::new(alloc, code)?;
    Ok(Event::new(code, root, [Value::unit(); 8]).ok_or("a root")?)
}

// do { u <- send 0 (1); recv 2 }
fn starts(alloc: Global) -> Result<Event, Fail> {
    let one = tuple(Calc::One(Prim::Int(1)))?;
    both(
        alloc,
        Node::Send(Prim::Chan(0), one),
        Node::Recv(Prim::Chan(2)),
    )
}

// do { u <- recv channel; send channel + 1 (u.0 + 1) }
fn hands_on(alloc: Global, channel: u32, next: u32) -> Result<Event, Fail> {
    let got = Prim::Part(Var::Inner(0), 0);
    let more = tuple(Calc::Op(Arith::Add, got, Prim::Int(1)))?;
    both(
        alloc,
        Node::Recv(Prim::Chan(channel)),
        Node::Send(Prim::Chan(next), more),
    )
}

// A runtime of three callers, with their passes.
fn three(alloc: Global) -> Result<(TeRuntime, Pass<Board>, Pass<Board>, Pass<Board>), Fail>
    ensures here { IfOk result (λ made. (made.1.lock ≡ made.0) × (made.2.lock ≡ made.0) × (made.3.lock ≡ made.0)) }
    ensures idle { IfOk result (λ made. (made.1.has_turn ≡ false) × (made.2.has_turn ≡ false) × (made.3.has_turn ≡ false)) }
{
    let (runtime, mut passes) = TeRuntime::new(alloc, 3, 1)?;
    let third = passes.pop().ok_or("a third pass")?;
    let second = passes.pop().ok_or("a second pass")?;
    let first = passes.pop().ok_or("a first pass")?;
    Ok((runtime, first, second, third))
}

#[test]
fn one_caller_synchronises_alone(rt: HostRuntime) -> Result<(), Fail> {
    let alloc = rt.alloc();
    let (runtime, mut pass) = one(alloc)?;
    assert!(rt; runtime.sync(&rt, alloc, &mut pass, &fours(alloc)?, 100) == Ok(gives(4)));
    assert!(rt; runtime.sync(&rt, alloc, &mut pass, &nevers(alloc)?, 100) == Err(SyncFault::Stuck));
    assert!(rt; runtime.rest(&rt, &mut pass) == Err(SyncFault::Stuck));
    assert!(rt; runtime.sync(&rt, alloc, &mut pass, &fours(alloc)?, 100) == Err(SyncFault::Stuck));
    Ok(())
}

#[test]
fn nobody_posts_on_a_resting_board(rt: HostRuntime) -> Result<(), Fail> {
    let alloc = rt.alloc();
    let (runtime, mut pass) = one(alloc)?;
    let resting = SyncFault::Resting;
    assert!(rt; runtime.rest(&rt, &mut pass) == Ok(()));
    assert!(rt; runtime.rest(&rt, &mut pass) == Err(resting));
    assert!(rt; runtime.offer(&mut pass, &nevers(alloc)?) == Err(resting));
    assert!(rt; runtime.sync(&rt, alloc, &mut pass, &nevers(alloc)?, 100) == Err(resting));
    let done = How::Done(Rows::new(alloc));
    assert!(rt; runtime.end(&rt, &mut pass, done) == Ok(()));
    let again = How::Raised(Value::unit());
    assert!(rt; runtime.end(&rt, &mut pass, again) == Err(SyncFault::Other(Status::Ended)));
    Ok(())
}

#[test]
fn a_spent_caller_takes_its_event_back(rt: HostRuntime) -> Result<(), Fail> {
    let alloc = rt.alloc();
    let (runtime, mut a, mut b, mut c) = three(alloc)?;
    let spent = SyncFault::Spent {
        front: 3,
        paths: 1,
        groups: 0,
    };
    assert!(rt; runtime.offer(&mut a, &starts(alloc)?) == Ok(0));
    assert!(rt; runtime.offer(&mut b, &hands_on(alloc, 0, 1)?) == Ok(0));
    assert!(rt; runtime.sync(&rt, alloc, &mut c, &hands_on(alloc, 1, 2)?, 1) == Err(spent));
    assert!(rt; runtime.recall(&mut c) == Err(SyncFault::Other(Status::Idle)));
    assert!(rt; runtime.recall(&mut a) == Ok(0));
    Ok(())
}

// Three callers synchronise in threads of their own. Where one can't start, the third tells the others to come back.
fn all_synchronise<R: Threads + Wait + Sync>(
    rt: &R,
    alloc: Global,
) -> Result<[Result<Outcome, SyncFault>; 3], Fail> {
    let (runtime, mut a, mut b, mut c) = three(alloc)?;
    let (first, second, third) = (
        starts(alloc)?,
        hands_on(alloc, 0, 1)?,
        hands_on(alloc, 1, 2)?,
    );
    let shared = &runtime;
    Ok(thread::scope(
        thread::scope_env(),
        rt,
        |scope| -> [Result<Outcome, SyncFault>; 3]
            requires here { (a.lock ≡ shared.now) × (b.lock ≡ shared.now) × (c.lock ≡ shared.now) }
            requires idle { (a.has_turn ≡ false) × (b.has_turn ≡ false) × (c.has_turn ≡ false) }
        {
            let one = scope.spawn(
                move || -> Result<Outcome, SyncFault>
                    requires { (a.lock ≡ shared.now) × (a.has_turn ≡ false) }
                { shared.sync(rt, alloc, &mut a, &first, 1_000) },
            );
            let other = scope.spawn(
                move || -> Result<Outcome, SyncFault>
                    requires { (b.lock ≡ shared.now) × (b.has_turn ≡ false) }
                { shared.sync(rt, alloc, &mut b, &second, 1_000) },
            );
            match (one, other) {
                (Ok(one), Ok(other)) => {
                    let last = shared.sync(rt, alloc, &mut c, &third, 1_000);
                    [one.join(rt), other.join(rt), last]
                }
                _ => {
                    let _told = shared.rest(rt, &mut c);
                    [Err(SyncFault::Memory); 3]
                }
            }
        },
    ))
}

#[test]
fn three_callers_swap_in_a_ring(rt: HostRuntime) -> Result<(), Fail> {
    for _ in 0..20 {
        let [first, second, third] = all_synchronise(&rt, rt.alloc())?;
        assert!(rt; first == Ok(gives(3)));
        assert!(rt; second == Ok(nothing()));
        assert!(rt; third == Ok(nothing()));
    }
    Ok(())
}
