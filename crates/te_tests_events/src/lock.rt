ghost use Rattle.std.specs.Prelude.{◌≡◌, true, false, IfOk, IfSome, OnSome};
ghost use Rattle.te_lock.specs.Lock.{IsSamePass};

use std::alloc::Global;
use std::cell::Cell;
use std::sync::Wait;
use std::test::Fail;
use std::thread;
use std::thread::Threads;
use te_lock::*;

/// A list of pairs of a caller and a number, with a number of callers.
#[derive(Drop)]
struct Slip {
    callers: u32,
    pairs: Vec<(u32, u64)>,
}

impl Kept for Slip {
    type Entry = (u32, u64);

    ghost entries = { λ slip. slip.pairs.items };

    ghost members = { λ slip. slip.callers };

    ghost author = { λ pair. pair.0 };

    ghost lawful = { λ callers pairs. Unit {0} };

    fn length(&self) -> u64 {
        self.pairs.len() as u64
    }

    fn callers(&self) -> u32 {
        self.callers
    }
}

// A lock on an empty slip, with its two passes.
fn two(alloc: Global) -> Result<(Turn<Slip>, Pass<Slip>, Pass<Slip>), Fail>
    ensures callers { IfOk result (λ made. made.0.callers ≡ 2) }
    ensures here { IfOk result (λ made. (made.1.lock ≡ made.0) × (made.2.lock ≡ made.0)) }
    ensures order { IfOk result (λ made. (made.1.caller ≡ 0) × (made.2.caller ≡ 1)) }
    ensures idle { IfOk result (λ made. (made.1.has_turn ≡ false) × (made.2.has_turn ≡ false)) }
{
    let slip = Slip {
        callers: 2,
        pairs: Vec::new(alloc),
    };
    let (turn, mut passes) = Turn::new(alloc, slip, 2).ok().ok_or("memory")?;
    let second = passes.pop().ok_or("a second pass")?;
    let first = passes.pop().ok_or("a first pass")?;
    Ok((turn, first, second))
}

// The pass takes the turn, adds a pair of its caller and this number, and leaves.
fn add<R: Wait>(rt: &R, turn: &Turn<Slip>, pass: &mut Pass<Slip>, number: u64) -> Option<()>
    requires here { pass.old.lock ≡ turn.now }
    requires idle { pass.old.has_turn ≡ false }
    ensures same { IsSamePass pass.old pass.new }
    ensures idle { OnSome result (pass.new.has_turn ≡ false) }
{
    let mut slip = turn.turn(rt, pass);
    slip.pairs.push((Turn::caller(pass), number)).ok()?;
    if slip.pairs.len() > 1000 {
        return None;
    }
    turn.leave(pass, slip);
    Some(())
}

// The pass adds the numbers 0 to 99.
fn add_hundred<R: Wait>(rt: &R, turn: &Turn<Slip>, mut pass: Pass<Slip>) -> Option<Pass<Slip>>
    requires here { pass.lock ≡ turn.now }
    requires idle { pass.has_turn ≡ false }
    ensures same { IfSome result (IsSamePass pass) }
    ensures idle { IfSome result (λ after. after.has_turn ≡ false) }
{
    for number in 0..100 {
        add(rt, turn, &mut pass, number)?;
    }
    Some(pass)
}

// Ends a lock of two callers.
fn ended(
    alloc: Global,
    turn: Turn<Slip>,
    first: Pass<Slip>,
    second: Pass<Slip>,
) -> Result<Slip, Fail>
    requires callers { turn.callers ≡ 2 }
    requires here { (first.lock ≡ turn) × (second.lock ≡ turn) }
    requires order { (first.caller ≡ 0) × (second.caller ≡ 1) }
    requires idle { (first.has_turn ≡ false) × (second.has_turn ≡ false) }
{
    let mut passes = Vec::new(alloc);
    passes.push(first)?;
    passes.push(second)?;
    Ok(turn.close(passes))
}

// How many pairs the slip has, and the number in the last.
fn last_of(slip: &Slip) -> (usize, u64) {
    match slip.pairs.last() {
        Some((_, number)) => (slip.pairs.len(), *number),
        None => (0, 0),
    }
}

/// What two passes see.
#[derive(Clone, Copy, Debug, PartialEq)]
struct Seen {
    held: [u64; 2],
    fronts: [u64; 2],
    pairs: (usize, u64),
}

// What each pass of a new lock sees while the other has the turn, and the second once the first has left, with a pair or without.
fn take_turns<R: Wait>(
    rt: &R,
    turn: &Turn<Slip>,
    first: &mut Pass<Slip>,
    second: &mut Pass<Slip>,
) -> Option<Seen>
    requires here { (first.old.lock ≡ turn.now) × (second.old.lock ≡ turn.now) }
    requires idle { (first.old.has_turn ≡ false) × (second.old.has_turn ≡ false) }
{
    let slip = turn.try_turn(first).ok()?;
    let Err(busy) = turn.try_turn(second) else {
        return None;
    };
    turn.leave(first, slip);
    let front = turn.front(second);
    add(rt, turn, first, 5)?;
    let fronts = [front, turn.front(second)];
    let slip = turn.try_turn(second).ok()?;
    let Err(busy_again) = turn.try_turn(first) else {
        return None;
    };
    let pairs = last_of(&slip);
    turn.leave(second, slip);
    Some(Seen {
        held: [busy.word, busy_again.word],
        fronts,
        pairs,
    })
}

fn turns_of_two<R: Wait>(rt: &R, alloc: Global) -> Result<Option<Seen>, Fail> {
    let (turn, mut first, mut second) = two(alloc)?;
    Ok(take_turns(rt, &turn, &mut first, &mut second))
}

#[test]
fn a_pair_is_read_by_the_other_caller(rt: HostRuntime) -> Result<(), Fail> {
    let seen = Seen {
        held: [1, 3],
        fronts: [0, 1],
        pairs: (1, 5),
    };
    assert_eq!(rt; turns_of_two(&rt, rt.alloc())?, Some(seen));
    Ok(())
}

// The fronts of the second pass once it has met a note of the first, which had added a pair, without the turn and with it.
fn meet_notes<R: Wait>(
    rt: &R,
    turn: &Turn<Slip>,
    first: &mut Pass<Slip>,
    second: &mut Pass<Slip>,
) -> Option<[u64; 2]>
    requires here { (first.old.lock ≡ turn.now) × (second.old.lock ≡ turn.now) }
    requires idle { (first.old.has_turn ≡ false) × (second.old.has_turn ≡ false) }
{
    add(rt, turn, first, 5)?;
    let note = turn.split(first);
    turn.meet(second, note);
    let front = turn.front(second);
    add(rt, turn, first, 6)?;
    let note = turn.split(first);
    let slip = turn.turn(rt, second);
    turn.meet(second, note);
    turn.leave(second, slip);
    Some([front, turn.front(second)])
}

fn fronts_of_two<R: Wait>(rt: &R, alloc: Global) -> Result<Option<[u64; 2]>, Fail> {
    let (turn, mut first, mut second) = two(alloc)?;
    Ok(meet_notes(rt, &turn, &mut first, &mut second))
}

#[test]
fn a_note_is_met_with_the_turn_or_without(rt: HostRuntime) -> Result<(), Fail> {
    assert_eq!(rt; fronts_of_two(&rt, rt.alloc())?, Some([1, 2]));
    Ok(())
}

#[test]
fn two_threads_add_a_hundred_each(rt: HostRuntime) -> Result<(), Fail> {
    let alloc: Global = rt.alloc();
    let (turn, first, second) = two(alloc)?;
    let slip = both_add(&rt, alloc, turn, first, second)?;
    assert_eq!(rt; slip.pairs.len(), 200);
    assert_eq!(rt; runs_of(slip.pairs.as_slice()), Some([100, 100]));
    Ok(())
}

// How many pairs each of the two callers has, where its numbers rise from 0 one by one.
fn runs_of(pairs: &[(u32, u64)]) -> Option<[u64; 2]> {
    let mut next = [0u64; 2];
    for (caller, number) in pairs {
        let run = next.get_mut(*caller as usize)?;
        if *run != *number || *number >= 100 {
            return None;
        }
        *run = *number + 1;
    }
    Some(next)
}

fn both_add<R: Threads + Wait + Sync>(
    rt: &R,
    alloc: Global,
    turn: Turn<Slip>,
    first: Pass<Slip>,
    second: Pass<Slip>,
) -> Result<Slip, Fail>
    requires callers { turn.callers ≡ 2 }
    requires here { (first.lock ≡ turn) × (second.lock ≡ turn) }
    requires order { (first.caller ≡ 0) × (second.caller ≡ 1) }
    requires idle { (first.has_turn ≡ false) × (second.has_turn ≡ false) }
{
    let shared = &turn;
    let (a, b) = thread::join(
        rt,
        move || -> Option<Pass<Slip>>
            requires { (first.lock ≡ shared.now) × (first.has_turn ≡ false) }
            ensures { IfSome result (λ after. IsSamePass first after × (after.has_turn ≡ false)) }
        { add_hundred(rt, shared, first) },
        move || -> Option<Pass<Slip>>
            requires { (second.lock ≡ shared.now) × (second.has_turn ≡ false) }
            ensures { IfSome result (λ after. IsSamePass second after × (after.has_turn ≡ false)) }
        { add_hundred(rt, shared, second) },
    );
    let first = a.ok_or("the first thread")?;
    let second = b.ok_or("the second thread")?;
    ended(alloc, turn, first, second)
}

/// A count of entries, each a caller number, which one thread at a time may look at.
#[derive(Drop)]
struct Tally {
    callers: u32,
    last: Cell<u32>,
    entries: Vec<u32>,
}

impl Kept for Tally {
    type Entry = u32;

    ghost entries = { λ tally. tally.entries.items };

    ghost members = { λ tally. tally.callers };

    ghost author = { λ caller. caller };

    ghost lawful = { λ callers entries. Unit {0} };

    fn length(&self) -> u64 {
        self.entries.len() as u64
    }

    fn callers(&self) -> u32 {
        self.callers
    }
}

// The front that another thread sees with this pass, which goes there and comes back with a note.
fn front_elsewhere<V: Kept + Send, R: Threads + Sync>(
    rt: &R,
    turn: &Turn<V>,
    mut pass: Pass<V>,
) -> (u64, Pass<V>, Note<V>)
    requires here { pass.lock ≡ turn.now }
    requires idle { pass.has_turn ≡ false }
{
    let there = move || -> (u64, Pass<V>, Note<V>)
        requires { (pass.lock ≡ turn.now) × (pass.has_turn ≡ false) }
    {
        let front = turn.front(&mut pass);
        let note = turn.split(&mut pass);
        (front, pass, note)
    };
    thread::join(rt, there, || ()).0
}

#[test]
fn a_pass_goes_where_its_value_may(rt: HostRuntime) -> Result<(), Fail> {
    let tally = Tally {
        callers: 1,
        last: Cell::new(0),
        entries: Vec::new(rt.alloc()),
    };
    let (turn, mut passes) = Turn::new(rt.alloc(), tally, 1).ok().ok_or("memory")?;
    let mut pass = passes.pop().ok_or("a pass")?;
    let mut tally = turn.turn(&rt, &mut pass);
    tally.entries.push(Turn::caller(&pass))?;
    tally.last.set(7);
    if tally.entries.len() > 1 {
        return Err("one entry".into());
    }
    turn.leave(&mut pass, tally);
    let (front, pass, _note) = front_elsewhere(&rt, &turn, pass);
    assert!(rt; front == 1 && Turn::caller(&pass) == 0);
    Ok(())
}
