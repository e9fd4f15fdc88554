// Sixteen observers, in threads of their own, read while entries are published.

ghost use Rattle.std.specs.Prelude.{◌≡◌, false};
ghost use mathlib.Core.List.{IsPrefix};

use crate::calls::{offer_or_recall, sends};
use std::alloc::{AllocError, Global};
use std::process::Abort;
use std::sync::Wait;
use std::sync::atomic::{AtomicU32, Ordering};
use std::test::Fail;
use std::thread;
use std::thread::Threads;
use te_board::Board;
use te_lock::Pass;
use te_runtime::TeRuntime;
use te_terms::Event;
use te_watch::*;

const OBSERVERS: u32 = 16;

const ENTRIES: u64 = 10_000;

// How many entries each publication adds.
const BATCH: u64 = 10;

// How often an observer reads at most.
const READS: u32 = 2_000_000;

// How often the publisher looks at most whether all have begun.
const LOOKS: u32 = 20_000_000;

// Reads until all entries were seen; whether no front was below the one before, and who has read.
fn reads(mut observer: Observer, begun: &AtomicU32) -> (Observer, bool) {
    let mut last = 0;
    for turn in 0..READS {
        let front = observer.read().front();
        if front < last {
            return (observer, false);
        }
        if turn == 0 {
            begun.fetch_add(1, Ordering::SeqCst);
        }
        if front == ENTRIES {
            return (observer, true);
        }
        if front == last {
            thread::yield_now();
        }
        last = front;
    }
    (observer, true)
}

// Looks whether all observers have begun, so often at most.
fn all_begin(begun: &AtomicU32) -> bool {
    for _ in 0..LOOKS {
        if begun.load(Ordering::SeqCst) == OBSERVERS {
            return true;
        }
        thread::yield_now();
    }
    false
}

// Parks the event and takes it back, by turns, and publishes after each batch; the front that was published last, where
// each call succeeded.
#[tactic(auto, using(te_runtime::proofs::Calling::prefix_then))]
fn publishes<R: Wait>(
    rt: &R,
    alloc: Global,
    runtime: &TeRuntime,
    pass: &mut Pass<Board>,
    publisher: &mut Publisher,
    event: &Event,
) -> Option<u64>
    requires here { pass.old.lock ≡ runtime.now }
    requires idle { pass.old.has_turn ≡ false }
    requires callers { publisher.old.watch.callers ≡ runtime.now.callers }
    requires goes_on { IsPrefix publisher.old.list pass.old.read }
{
    let mut front = 0;
    'entries: for k in 0..ENTRIES {
        if offer_or_recall(runtime, pass, event, k % 2 == 0).is_err() {
            return None;
        }
        if k % BATCH == BATCH - 1 {
            front = publisher.publish(rt, alloc, runtime, pass).ok()?;
        }
    }
    Some(front)
}

// What the observers saw in their threads while entries were published in this one: whether all began before that, the
// front that was published last, and each observer with whether its fronts never fell.
struct Seen {
    begun: bool,
    front: Option<u64>,
    observers: Vec<(Observer, bool)>,
}

fn publishes_beside<R: Threads + Wait + Sync>(
    rt: &R,
    alloc: Global,
    runtime: &TeRuntime,
    pass: &mut Pass<Board>,
    publisher: &mut Publisher,
    observers: Vec<Observer>,
) -> Result<Seen, Fail>
    requires here { pass.old.lock ≡ runtime.now }
    requires idle { pass.old.has_turn ≡ false }
    requires callers { publisher.old.watch.callers ≡ runtime.now.callers }
    requires goes_on { IsPrefix publisher.old.list pass.old.read }
{
    let event = sends(alloc)?;
    let counter = AtomicU32::new(0);
    let begun = &counter;
    thread::scope(
        thread::scope_env(),
        rt,
        |scope| -> Result<Seen, Fail>
            requires here { pass.now.lock ≡ runtime.now }
            requires idle { pass.now.has_turn ≡ false }
            requires callers { publisher.now.watch.callers ≡ runtime.now.callers }
            requires goes_on { IsPrefix publisher.now.list pass.now.read }
        {
            let started = scope.spawn(move || -> Result<Vec<(Observer, bool)>, AllocError> {
                thread::map_vec(rt, observers, &|observer| reads(observer, begun))
            });
            match started {
                Ok(readers) => {
                    let all = all_begin(begun);
                    let front = publishes(rt, alloc, runtime, pass, publisher, &event);
                    Ok(Seen {
                        begun: all,
                        front,
                        observers: readers.join(rt)?,
                    })
                }
                Err(_) => Err("a thread".into()),
            }
        },
    )
}

fn observes<R: Threads + Wait + Sync + Abort>(
    rt: &R,
    alloc: Global,
    runtime: &TeRuntime,
    pass: &mut Pass<Board>,
    publisher: &mut Publisher,
    observers: Vec<Observer>,
) -> Result<(), Fail>
    requires here { pass.old.lock ≡ runtime.now }
    requires idle { pass.old.has_turn ≡ false }
    requires callers { publisher.old.watch.callers ≡ runtime.now.callers }
    requires goes_on { IsPrefix publisher.old.list pass.old.read }
{
    let Seen {
        begun,
        front,
        observers,
    } = publishes_beside(rt, alloc, runtime, pass, publisher, observers)?;
    assert!(rt; begun);
    assert!(rt; front == Some(ENTRIES));
    assert!(rt; observers.len() == OBSERVERS as usize);
    for (mut observer, never_fell) in observers {
        assert!(rt; never_fell);
        assert!(rt; observer.read().front() == ENTRIES);
    }
    Ok(())
}

#[test]
fn observers_in_threads_see_fronts_that_never_fall(rt: HostRuntime) -> Result<(), Fail> {
    let alloc = rt.alloc();
    let (runtime, mut passes) = TeRuntime::new(alloc, 1, 1)?;
    let mut pass = passes.pop().ok_or("a pass")?;
    let (mut publisher, observers) = watch(&rt, alloc, 1, OBSERVERS)?;
    let done = observes(
        &rt,
        alloc,
        &runtime,
        &mut pass,
        &mut publisher,
        observers.into_vec(),
    );
    publisher.close(&rt);
    done
}
