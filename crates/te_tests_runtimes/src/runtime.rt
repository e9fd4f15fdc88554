ghost use Rattle.std.specs.Prelude.{◌≡◌, false, IfOk};
ghost use Rattle.te_lock.specs.Lock.{IsSamePass};

use std::alloc::Global;
use std::sync::Arc;
use std::test::Fail;
use std::thread;
use std::thread::Threads;
use te_board::Board;
use te_history::{Entry, Status};
use te_lock::{Busy, Kept, Pass, Turn};
use te_runtime::*;
use te_terms::{Atom, Calc, Calcs, Event, EventCode, Expr, Node, Outcome, Prim, Value};

fn seven() -> Value {
    Value::of(&[Atom::Int(7)]).unwrap_or_default()
}

pub(crate) fn event(alloc: Global, node: Node) -> Result<Event, Fail> {
    let mut code = EventCode::new(alloc);
    let root = code.push(node).ok().ok_or("a node")?;
    let code = Arc::new(alloc, code)?;
    Ok(Event::new(code, root, [Value::unit(); 8]).ok_or("a root")?)
}

// send 0 (7)
fn sends(alloc: Global) -> Result<Event, Fail> {
    let calcs = Calcs::of(&[Calc::One(Prim::Int(7))]).ok_or("a tuple")?;
    event(alloc, Node::Send(Prim::Chan(0), Expr::Tuple(calcs)))
}

// recv 0
fn receives(alloc: Global) -> Result<Event, Fail> {
    event(alloc, Node::Recv(Prim::Chan(0)))
}

pub(crate) fn nevers(alloc: Global) -> Result<Event, Fail> {
    event(alloc, Node::Never)
}

// A runtime of one caller, with its pass.
pub(crate) fn one(alloc: Global) -> Result<(TeRuntime, Pass<Board>), Fail>
    ensures here { IfOk result (λ made. made.1.lock ≡ made.0) }
    ensures idle { IfOk result (λ made. made.1.has_turn ≡ false) }
{
    let (runtime, mut passes) = TeRuntime::new(alloc, 1, 1)?;
    let pass = passes.pop().ok_or("a pass")?;
    Ok((runtime, pass))
}

// A runtime of two callers, with their passes.
fn two(alloc: Global) -> Result<(TeRuntime, Pass<Board>, Pass<Board>), Fail>
    ensures here { IfOk result (λ made. (made.1.lock ≡ made.0) × (made.2.lock ≡ made.0)) }
    ensures idle { IfOk result (λ made. (made.1.has_turn ≡ false) × (made.2.has_turn ≡ false)) }
{
    let (runtime, mut passes) = TeRuntime::new(alloc, 2, 2)?;
    let second = passes.pop().ok_or("a second pass")?;
    let first = passes.pop().ok_or("a first pass")?;
    Ok((runtime, first, second))
}

#[test]
fn two_callers_exchange_a_value(rt: HostRuntime) -> Result<(), Fail> {
    let alloc = rt.alloc();
    let (runtime, mut a, mut b) = two(alloc)?;
    let waiting = Polled::Waiting { front: 2 };
    let committed = Driven::Committed { front: 3 };
    assert!(rt; runtime.offer(&mut a, &sends(alloc)?) == Ok(0));
    assert!(rt; runtime.offer(&mut b, &receives(alloc)?) == Ok(0));
    assert!(rt; runtime.poll(&mut a) == Ok(waiting));
    assert!(rt; runtime.drive(&rt, alloc, &mut a, 100_000) == Ok(committed));
    assert!(rt; runtime.poll(&mut a) == Ok(Polled::Ready(Outcome::Gives(Value::unit()))));
    assert!(rt; runtime.poll(&mut b) == Ok(Polled::Ready(Outcome::Gives(seven()))));
    assert!(rt; runtime.recall(&mut b) == Err(SyncFault::Other(Status::Idle)));
    assert!(rt; runtime.offer(&mut a, &nevers(alloc)?) == Ok(1));
    assert!(rt; runtime.recall(&mut a) == Ok(1));
    Ok(())
}

#[test]
fn a_list_that_cannot_commit_waits_or_is_stuck(rt: HostRuntime) -> Result<(), Fail> {
    let alloc = rt.alloc();
    let (runtime, mut a, mut b) = two(alloc)?;
    let blocked = Driven::Blocked { front: 1 };
    let spent = SyncFault::Spent {
        front: 2,
        paths: 1,
        groups: 0,
    };
    assert!(rt; runtime.offer(&mut a, &receives(alloc)?) == Ok(0));
    assert!(rt; runtime.drive(&rt, alloc, &mut a, 100) == Ok(blocked));
    assert!(rt; runtime.drive(&rt, alloc, &mut b, 100) == Ok(blocked));
    assert!(rt; runtime.offer(&mut b, &receives(alloc)?) == Ok(0));
    assert!(rt; runtime.drive(&rt, alloc, &mut b, 1) == Err(spent));
    assert!(rt; runtime.drive(&rt, alloc, &mut b, 100) == Ok(Driven::Stuck));
    Ok(())
}

#[test]
fn one_caller_is_answered(rt: HostRuntime) -> Result<(), Fail> {
    let alloc = rt.alloc();
    let never = nevers(alloc)?;
    let (runtime, mut pass) = one(alloc)?;
    let parked = SyncFault::Other(Status::Parked(0));
    assert!(rt; runtime.poll(&mut pass) == Err(SyncFault::Other(Status::Idle)));
    assert!(rt; runtime.offer(&mut pass, &never) == Ok(0));
    assert!(rt; runtime.offer(&mut pass, &never) == Err(parked));
    assert!(rt; runtime.drive(&rt, alloc, &mut pass, 100) == Ok(Driven::Stuck));
    assert!(rt; runtime.poll(&mut pass) == Err(SyncFault::Stuck));
    assert!(rt; runtime.recall(&mut pass) == Err(SyncFault::Stuck));
    assert!(rt; runtime.offer(&mut pass, &never) == Err(SyncFault::Stuck));
    assert!(rt; runtime.drive(&rt, alloc, &mut pass, 100) == Err(SyncFault::Stuck));
    Ok(())
}

// ---- a lock on a board

// A lock on a board of two callers, with their passes.
fn locked(alloc: Global) -> Result<(Turn<Board>, Pass<Board>, Pass<Board>), Fail>
    ensures callers { IfOk result (λ made. made.0.callers ≡ 2) }
    ensures here { IfOk result (λ made. (made.1.lock ≡ made.0) × (made.2.lock ≡ made.0)) }
    ensures order { IfOk result (λ made. (made.1.caller ≡ 0) × (made.2.caller ≡ 1)) }
    ensures idle { IfOk result (λ made. (made.1.has_turn ≡ false) × (made.2.has_turn ≡ false)) }
{
    let board = Board::new(alloc, 2)?;
    let (turn, mut passes) = Turn::new(alloc, board, 2)?;
    let second = passes.pop().ok_or("a second pass")?;
    let first = passes.pop().ok_or("a first pass")?;
    Ok((turn, first, second))
}

#[test]
fn a_board_is_held_by_one(rt: HostRuntime) -> Result<(), Fail> {
    let (turn, mut first, mut second) = locked(rt.alloc())?;
    let board = turn.try_turn(&mut first).ok().ok_or("the turn")?;
    assert!(rt; turn.try_turn(&mut second).err() == Some(Busy { word: 1 }));
    assert!(rt; board.length() == 0);
    turn.leave(&mut first, board);
    assert!(rt; turn.front(&mut second) == 0);
    Ok(())
}

#[test]
fn a_note_tells_of_a_post(rt: HostRuntime) -> Result<(), Fail> {
    let alloc = rt.alloc();
    let (turn, mut first, mut second) = locked(alloc)?;
    let mut board = turn.try_turn(&mut first).ok().ok_or("the turn")?;
    let Ok(_ticket) = board.post(0, nevers(alloc)?) else {
        return Err("a post".into());
    };
    assert!(rt; board.length() == 1);
    turn.leave(&mut first, board);
    let note = turn.split(&mut first);
    turn.meet(&mut second, note);
    assert!(rt; turn.front(&mut second) == 1);
    Ok(())
}

// ---- four threads

// One entry more, where there is one.
fn more(entries: u32, one: bool) -> u32 {
    if one {
        entries.saturating_add(1)
    } else {
        entries
    }
}

// Offers, drives, polls and recalls a thousand times; how many entries the caller has appended.
fn works<R: Threads + Sync>(
    rt: &R,
    alloc: Global,
    runtime: &TeRuntime,
    mut pass: Pass<Board>,
    event: Event,
) -> (Pass<Board>, u32)
    requires here { pass.lock ≡ runtime.now }
    requires idle { pass.has_turn ≡ false }
    ensures same { IsSamePass pass result.0 }
    ensures idle { result.0.has_turn ≡ false }
{
    let mut entries = 0u32;
    for _ in 0..1_000 {
        let offered = runtime.offer(&mut pass, &event);
        entries = more(entries, offered.is_ok());
        let has_acted = match runtime.drive(rt, alloc, &mut pass, 1_000) {
            Ok(Driven::Committed { .. }) => true,
            Ok(Driven::Stuck) => true,
            _ => false,
        };
        entries = more(entries, has_acted);
        let has_taken = match runtime.poll(&mut pass) {
            Ok(Polled::Ready(_)) => true,
            _ => false,
        };
        entries = more(entries, has_taken);
        let recalled = runtime.recall(&mut pass);
        entries = more(entries, recalled.is_ok());
    }
    (pass, entries)
}

// Two callers work side by side.
fn both_work<R: Threads + Sync>(
    rt: &R,
    alloc: Global,
    runtime: &TeRuntime,
    first: (Pass<Board>, Event),
    second: (Pass<Board>, Event),
) -> ((Pass<Board>, u32), (Pass<Board>, u32))
    requires here { (first.0.lock ≡ runtime.now) × (second.0.lock ≡ runtime.now) }
    requires idle { (first.0.has_turn ≡ false) × (second.0.has_turn ≡ false) }
    ensures same { IsSamePass first.0 result.0.0 × IsSamePass second.0 result.1.0 }
    ensures idle { (result.0.0.has_turn ≡ false) × (result.1.0.has_turn ≡ false) }
{
    let (one, its) = first;
    let (other, others) = second;
    thread::join(
        rt,
        move || -> (Pass<Board>, u32)
            requires { (one.lock ≡ runtime.now) × (one.has_turn ≡ false) }
            ensures { IsSamePass one result.0 × (result.0.has_turn ≡ false) }
        { works(rt, alloc, runtime, one, its) },
        move || -> (Pass<Board>, u32)
            requires { (other.lock ≡ runtime.now) × (other.has_turn ≡ false) }
            ensures { IsSamePass other result.0 × (result.0.has_turn ≡ false) }
        { works(rt, alloc, runtime, other, others) },
    )
}

// A runtime of four callers, with their passes.
fn four(
    alloc: Global,
) -> Result<
    (
        TeRuntime,
        Pass<Board>,
        Pass<Board>,
        Pass<Board>,
        Pass<Board>,
    ),
    Fail,
>
    ensures callers { IfOk result (λ made. made.0.callers ≡ 4) }
    ensures here { IfOk result (λ made. ((made.1.lock ≡ made.0) × (made.2.lock ≡ made.0))
        × ((made.3.lock ≡ made.0) × (made.4.lock ≡ made.0))) }
    ensures order { IfOk result (λ made. ((made.1.caller ≡ 0) × (made.2.caller ≡ 1))
        × ((made.3.caller ≡ 2) × (made.4.caller ≡ 3))) }
    ensures idle { IfOk result (λ made. ((made.1.has_turn ≡ false) × (made.2.has_turn ≡ false))
        × ((made.3.has_turn ≡ false) × (made.4.has_turn ≡ false))) }
{
    let (runtime, mut passes) = TeRuntime::new(alloc, 4, 4)?;
    let fourth = passes.pop().ok_or("a fourth pass")?;
    let third = passes.pop().ok_or("a third pass")?;
    let second = passes.pop().ok_or("a second pass")?;
    let first = passes.pop().ok_or("a first pass")?;
    Ok((runtime, first, second, third, fourth))
}

// Ends a runtime of four callers.
fn ended(
    alloc: Global,
    runtime: TeRuntime,
    front: (Pass<Board>, Pass<Board>),
    back: (Pass<Board>, Pass<Board>),
) -> Result<Board, Fail>
    requires callers { runtime.callers ≡ 4 }
    requires here { ((front.0.lock ≡ runtime) × (front.1.lock ≡ runtime))
        × ((back.0.lock ≡ runtime) × (back.1.lock ≡ runtime)) }
    requires order { ((front.0.caller ≡ 0) × (front.1.caller ≡ 1)) × ((back.0.caller ≡ 2) × (back.1.caller ≡ 3)) }
    requires idle { ((front.0.has_turn ≡ false) × (front.1.has_turn ≡ false))
        × ((back.0.has_turn ≡ false) × (back.1.has_turn ≡ false)) }
{
    let mut passes = Vec::new(alloc);
    passes.push(front.0)?;
    passes.push(front.1)?;
    passes.push(back.0)?;
    passes.push(back.1)?;
    Ok(runtime.close(passes))
}

// How many entries of each caller a board has.
fn entries_of(board: &Board) -> [u32; 4] {
    let mut counts = [0u32; 4];
    let history = board.history();
    for k in 0..history.len() {
        let by = match history.get(k) {
            Some(Entry::Post { by, .. }) => *by,
            Some(Entry::Commit { by, .. }) => *by,
            Some(Entry::Withdraw { by, .. }) => *by,
            Some(Entry::Take { by, .. }) => *by,
            Some(Entry::Stuck { by }) => *by,
            _ => 4,
        };
        if by < 4 {
            counts[by as usize] = more(counts[by as usize], true);
        }
    }
    counts
}

// Four callers work in threads of their own, and the runtime is closed: its board, and how many entries each has appended.
fn all_work<R: Threads + Sync>(rt: &R, alloc: Global) -> Result<(Board, [u32; 4]), Fail> {
    let (runtime, a, b, c, d) = four(alloc)?;
    let (first, second) = (sends(alloc)?, sends(alloc)?);
    let (third, fourth) = (receives(alloc)?, receives(alloc)?);
    let shared = &runtime;
    let (front, back) = thread::join(
        rt,
        move || -> ((Pass<Board>, u32), (Pass<Board>, u32))
            requires here { (a.lock ≡ shared.now) × (b.lock ≡ shared.now) }
            requires idle { (a.has_turn ≡ false) × (b.has_turn ≡ false) }
            ensures same { IsSamePass a result.0.0 × IsSamePass b result.1.0 }
            ensures idle { (result.0.0.has_turn ≡ false) × (result.1.0.has_turn ≡ false) }
        { both_work(rt, alloc, shared, (a, first), (b, second)) },
        move || -> ((Pass<Board>, u32), (Pass<Board>, u32))
            requires here { (c.lock ≡ shared.now) × (d.lock ≡ shared.now) }
            requires idle { (c.has_turn ≡ false) × (d.has_turn ≡ false) }
            ensures same { IsSamePass c result.0.0 × IsSamePass d result.1.0 }
            ensures idle { (result.0.0.has_turn ≡ false) × (result.1.0.has_turn ≡ false) }
        { both_work(rt, alloc, shared, (c, third), (d, fourth)) },
    );
    let ((a, of_a), (b, of_b)) = front;
    let ((c, of_c), (d, of_d)) = back;
    let board = ended(alloc, runtime, (a, b), (c, d))?;
    Ok((board, [of_a, of_b, of_c, of_d]))
}

#[test]
fn four_callers_share_one_history(rt: HostRuntime) -> Result<(), Fail> {
    let (board, counts) = all_work(&rt, rt.alloc())?;
    assert!(rt; entries_of(&board) == counts);
    let mut total = 0u64;
    for count in counts {
        total = total.saturating_add(u64::from(count));
    }
    assert!(rt; board.len() == total && total > 0);
    Ok(())
}
