// Two callers exchange a value, and one observer sees it.

ghost use Rattle.std.specs.Prelude.{◌≡◌, [], false};

use crate::calls::{drive, event, news, offer, poll, sends};
use std::alloc::Global;
use std::process::Abort;
use std::sync::Wait;
use std::test::Fail;
use std::thread::Threads;
use te_board::Board;
use te_history::{Entry, Phase};
use te_lock::Pass;
use te_runtime::{Driven, Polled, TeRuntime};
use te_terms::{Node, Outcome, Prim, Value};
use te_watch::*;

// Whether a view shows so much, on a running board of two callers that doesn't rest.
fn shows(view: &View, front: u64, commits: u64, first: Light, second: Light) -> bool {
    view.front() == front
        && view.commits() == commits
        && view.phase() == Phase::Running
        && !view.resting()
        && view.light(0) == Some(first)
        && view.light(1) == Some(second)
        && view.light(2) == None
}

fn is_first_post_of_second(entry: &Entry) -> bool {
    match entry {
        Entry::Post {
            by: 1,
            ticket: 0,
            ..
        } => true,
        _ => false,
    }
}

fn exchange<R: Threads + Wait + Sync + Abort>(
    rt: &R,
    alloc: Global,
    runtime: &TeRuntime,
    a: &mut Pass<Board>,
    b: &mut Pass<Board>,
    publisher: &mut Publisher,
    observer: &mut Observer,
) -> Result<(), Fail>
    requires here { (a.old.lock ≡ runtime.now) × (b.old.lock ≡ runtime.now) }
    requires idle { (a.old.has_turn ≡ false) × (b.old.has_turn ≡ false) }
    requires nothing { publisher.old.list ≡ [] }
    requires callers { publisher.old.watch.callers ≡ runtime.now.callers }
    requires watch { observer.old.watch ≡ publisher.old.watch }
{
    assert!(rt; shows(&observer.read(), 0, 0, Light::Idle, Light::Idle));
    assert!(rt; offer(runtime, a, &sends(alloc)?) == Ok(0));
    assert!(rt; runtime.offer(b, &event(alloc, Node::Recv(Prim::Chan(0)))?) == Ok(0));
    assert!(rt; publisher.publish(rt, alloc, runtime, a) == Ok(2));
    observer.learn(publisher.tell()?);
    assert!(rt; shows(&observer.read(), 2, 0, Light::Parked(0), Light::Parked(0)));
    let told = news(alloc, runtime, a, 1).ok().ok_or("news")?;
    let entry = told.get(0).ok_or("an entry")?;
    assert!(rt; told.len() == 1);
    assert!(rt; is_first_post_of_second(entry));
    assert!(rt; is_first_post_of_second(&entry.copy(alloc)?));
    assert!(rt; drive(rt, alloc, runtime, a) == Ok(Driven::Committed { front: 3 }));
    assert!(rt; publisher.publish(rt, alloc, runtime, a) == Ok(3));
    observer.learn(publisher.tell()?);
    assert!(rt; shows(&observer.read(), 3, 1, Light::Given(0), Light::Given(0)));
    assert!(rt; poll(runtime, a) == Ok(Polled::Ready(Outcome::Gives(Value::unit()))));
    assert!(rt; publisher.publish(rt, alloc, runtime, a) == Ok(4));
    assert!(rt; shows(&observer.read(), 4, 1, Light::Idle, Light::Given(0)));
    Ok(())
}

#[test]
fn an_observer_sees_an_exchange(rt: HostRuntime) -> Result<(), Fail> {
    let alloc = rt.alloc();
    let (runtime, mut passes) = TeRuntime::new(alloc, 2, 2)?;
    let mut b = passes.pop().ok_or("a second pass")?;
    let mut a = passes.pop().ok_or("a first pass")?;
    let (mut publisher, observers) = watch(&rt, alloc, 2, 1)?;
    let done = match observers.into_vec().pop() {
        Some(mut observer) => exchange(
            &rt,
            alloc,
            &runtime,
            &mut a,
            &mut b,
            &mut publisher,
            &mut observer,
        ),
        None => Err("an observer".into()),
    };
    publisher.close(&rt);
    done
}
