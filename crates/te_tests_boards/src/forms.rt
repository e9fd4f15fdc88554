ghost use Rattle.std.specs.Prelude.{◌≡◌};
ghost use Rattle.te_forms.specs.Commits.{is_commit};

use crate::grouping::group;
use std::alloc::Global;
use std::process::Abort;
use std::sync::Arc;
use std::test::Fail;
use te_board::Board;
use te_cert::{Cert, Meeting, Member};
use te_forms::*;
use te_history::{Entry, Hist, Status};
use te_terms::{Atom, Calc, Calcs, Event, EventCode, Expr, Node, Outcome, Prim, Rows, Test, Value};

fn number(z: i64) -> Value {
    Value::of(&[Atom::Int(z)]).unwrap_or_default()
}

fn gives(z: i64) -> Outcome {
    Outcome::Gives(number(z))
}

fn nothing() -> Outcome {
    Outcome::Gives(Value::unit())
}

fn pair(giver: u32, taker: u32) -> Handed {
    Handed { giver, taker }
}

fn ring(channels: &[u32]) -> Result<Ring, Fail> {
    Ok(Ring::of(channels).ok_or("a ring")?)
}

// The event of one node.
fn event(alloc: Global, node: Node) -> Result<Event, Fail> {
    let mut code = EventCode::new(alloc);
    let root = code.push(node).ok().ok_or("a node")?;
    let code = Arc::new(alloc, code)?;
    Ok(Event::new(code, root, [Value::unit(); 8]).ok_or("a root")?)
}

fn sends(alloc: Global, channel: u32, z: i64) -> Result<Event, Fail> {
    let calcs = Calcs::of(&[Calc::One(Prim::Int(z))]).ok_or("a tuple")?;
    event(alloc, Node::Send(Prim::Chan(channel), Expr::Tuple(calcs)))
}

fn swaps(alloc: Global, ring: &Ring, role: u32, offer: i64) -> Result<Event, Fail> {
    if role >= ring.len() {
        Err("a role of the ring")?;
    }
    Ok(swap(alloc, ring, role, number(offer))?)
}

fn waits(alloc: Global, ring: &Ring, role: u32) -> Result<Event, Fail> {
    if role >= ring.len() {
        Err("a role of the ring")?;
    }
    Ok(barrier(alloc, ring, role)?)
}

fn board(alloc: Global, callers: u32) -> Result<Board, Fail> {
    if callers == 0 || callers > 64 {
        Err("a number of callers")?;
    }
    Ok(Board::new(alloc, callers)?)
}

fn post(board: &mut Board, by: u32, event: Event) -> Result<(), Fail> {
    if by >= board.callers() {
        Err("a caller")?;
    }
    match board.post(by, event) {
        Ok(_) => Ok(()),
        Err(_) => Err("a post".into()),
    }
}

fn status(board: &Board, of: u32) -> Result<Status, Fail> {
    if of >= board.callers() {
        Err("a caller")?;
    }
    Ok(board.status(of))
}

fn take(board: &mut Board, by: u32) -> Result<Outcome, Fail> {
    // The checker knows the types within a fault only where the body names them.
    let _named: Option<Status> = None;
    if by >= board.callers() {
        Err("a caller")?;
    }
    Ok(board.take(by).ok().ok_or("a take")?)
}

fn commit(alloc: Global, board: &mut Board, cert: Cert) -> Result<(), Fail> {
    if board.callers() == 0 {
        Err("a caller")?;
    }
    match board.commit(alloc, 0, cert) {
        Ok(()) => Ok(()),
        Err(_) => Err("a commit".into()),
    }
}

// Finds a group, and commits it.
fn commit_found(alloc: Global, board: &mut Board) -> Result<(), Fail> {
    let Some(cert) = group(alloc, board)? else {
        return Err("a group".into());
    };
    commit(alloc, board, cert)
}

fn commits(entry: &Entry) -> bool
    ensures { result ≡ is_commit entry.now }
{
    match entry {
        Entry::Commit { .. } => true,
        _ => false,
    }
}

// Who hands on to whom in entry `n`, where it is a commit and the ring is private.
fn told(alloc: Global, hist: &Hist, n: u64, ring: &Ring) -> Result<Rows<Handed>, Fail> {
    if !is_private(hist, ring) {
        return Err("a private ring".into());
    }
    let Some(entry) = hist.get(n) else {
        return Err("an entry".into());
    };
    if !commits(entry) {
        return Err("a commit".into());
    }
    Ok(handed(alloc, hist, n, ring)?)
}

// A certificate of the first threads under their first tickets, so many, with no choices.
fn cert(alloc: Global, threads: u32, meetings: &[(u32, u32)]) -> Result<Cert, Fail> {
    let mut members = Rows::new(alloc);
    for thread in 0..threads {
        let choices = Rows::new(alloc);
        members.push(Member {
            thread,
            ticket: 0,
            choices,
        })?;
    }
    let mut meets = Rows::new(alloc);
    for (sender, receiver) in meetings {
        meets.push(Meeting {
            sender: *sender,
            receiver: *receiver,
        })?;
    }
    if meets.len() > 1000 {
        Err("few meetings")?;
    }
    Ok(Cert { members, meets })
}

#[test]
fn rings_are_short_lists_of_low_channels(rt: HostRuntime) -> Result<(), Fail> {
    let mut most = [0; 64];
    for i in 0..64 {
        most[i] = 3 * i as u32;
    }
    let mut all = [0; 65];
    for i in 0..65 {
        all[i] = 3 * i as u32;
    }
    assert_eq!(rt; Ring::of(&most).map(|ring| ring.len()), Some(64));
    assert_eq!(rt; Ring::of(&[255, 0]).map(|ring| ring.len()), Some(2));
    assert_eq!(rt; Ring::of(&all).is_none(), true, "65 channels");
    assert_eq!(rt; Ring::of(&[1]).is_none(), true, "one channel");
    assert_eq!(rt; Ring::of(&[]).is_none(), true, "no channel");
    assert_eq!(rt; Ring::of(&[0, 256]).is_none(), true, "a channel too high");
    assert_eq!(rt; Ring::of(&[4, 5, 6, 4]).is_none(), true, "a channel twice");
    Ok(())
}

// ---- each test owns a board and rings, and lends them to a function that has nothing to drop where it returns

fn post_swap(
    alloc: Global,
    board: &mut Board,
    ring: &Ring,
    by: u32,
    role: u32,
    offer: i64,
) -> Result<(), Fail> {
    post(board, by, swaps(alloc, ring, role, offer)?)
}

fn post_barrier(
    alloc: Global,
    board: &mut Board,
    ring: &Ring,
    by: u32,
    role: u32,
) -> Result<(), Fail> {
    post(board, by, waits(alloc, ring, role)?)
}

// Whether these are the pairs of entry `n`.
fn are_told(
    alloc: Global,
    board: &Board,
    n: u64,
    ring: &Ring,
    want: &[Handed],
) -> Result<bool, Fail> {
    Ok(told(alloc, board.history(), n, ring)?.as_slice() == want)
}

fn swap_by_three(
    rt: &impl Abort,
    alloc: Global,
    board: &mut Board,
    ring: &Ring,
) -> Result<(), Fail> {
    post_swap(alloc, board, ring, 0, 0, 10)?;
    post_swap(alloc, board, ring, 1, 1, 20)?;
    assert!(rt; group(alloc, board)?.is_none(), "two of three can't swap");
    post_swap(alloc, board, ring, 2, 2, 30)?;
    commit_found(alloc, board)?;
    let pairs = [pair(0, 1), pair(1, 2), pair(2, 0)];
    assert!(rt; are_told(alloc, board, 3, ring, &pairs)?);
    for (by, got) in [(0, 30), (1, 10), (2, 20)] {
        assert_eq!(rt; take(board, by)?, gives(got), "caller {by}");
    }
    assert!(rt; is_private(board.history(), ring));
    post(board, 3, event(alloc, Node::Recv(Prim::Chan(1)))?)?;
    assert!(rt;
        !is_private(board.history(), ring),
        "a stranger receives on channel 1"
    );
    Ok(())
}

#[test]
fn three_swap(rt: HostRuntime) -> Result<(), Fail> {
    let ring = ring(&[0, 1, 2])?;
    let mut board = board(rt.alloc(), 4)?;
    swap_by_three(&rt, rt.alloc(), &mut board, &ring)
}

fn wait_by_three(
    rt: &impl Abort,
    alloc: Global,
    board: &mut Board,
    ring: &Ring,
) -> Result<(), Fail> {
    post_barrier(alloc, board, ring, 0, 0)?;
    post_barrier(alloc, board, ring, 1, 1)?;
    assert!(rt; group(alloc, board)?.is_none(), "two of three wait");
    post_barrier(alloc, board, ring, 2, 2)?;
    commit_found(alloc, board)?;
    let pairs = [pair(0, 1), pair(1, 2), pair(2, 0)];
    assert!(rt; are_told(alloc, board, 3, ring, &pairs)?);
    for by in 0..3 {
        assert_eq!(rt; take(board, by)?, nothing(), "caller {by}");
    }
    Ok(())
}

#[test]
fn three_wait_for_each_other(rt: HostRuntime) -> Result<(), Fail> {
    let ring = ring(&[0, 1, 2])?;
    let mut board = board(rt.alloc(), 3)?;
    wait_by_three(&rt, rt.alloc(), &mut board, &ring)
}

fn take_what_is_tested(rt: &impl Abort, alloc: Global, board: &mut Board) -> Result<(), Fail> {
    post(board, 0, guarded(alloc, 0, 0, Test::Less, 3)?)?;
    post(board, 1, sends(alloc, 0, 2)?)?;
    assert!(rt; group(alloc, board)?.is_none(), "3 isn't less than 2");
    post(board, 2, sends(alloc, 0, 5)?)?;
    commit_found(alloc, board)?;
    assert_eq!(rt; take(board, 0)?, gives(5));
    assert_eq!(rt; status(board, 1)?, Status::Parked(0));
    assert_eq!(rt; status(board, 2)?, Status::Given(0, nothing()));
    Ok(())
}

#[test]
fn guard_takes_only_what_it_tests(rt: HostRuntime) -> Result<(), Fail> {
    let mut board = board(rt.alloc(), 3)?;
    take_what_is_tested(&rt, rt.alloc(), &mut board)
}

fn go_round_first(
    rt: &impl Abort,
    alloc: Global,
    board: &mut Board,
    first: &Ring,
) -> Result<(), Fail> {
    post_swap(alloc, board, first, 0, 0, 10)?;
    post_swap(alloc, board, first, 1, 1, 20)?;
    post_barrier(alloc, board, first, 2, 2)?;
    commit_found(alloc, board)?;
    assert_eq!(rt; take(board, 0)?, nothing(), "a barrier offers ()");
    assert_eq!(rt; take(board, 1)?, gives(10));
    assert_eq!(rt; take(board, 2)?, nothing(), "a barrier gives ()");
    Ok(())
}

fn go_round_second(alloc: Global, board: &mut Board, second: &Ring) -> Result<(), Fail> {
    post_swap(alloc, board, second, 0, 1, 40)?;
    post_swap(alloc, board, second, 2, 0, 50)?;
    commit_found(alloc, board)
}

// Whether each ring's pairs are told of its own commit alone, of entries 3 and 9.
fn are_told_apart(alloc: Global, board: &Board, first: &Ring, second: &Ring) -> Result<bool, Fail> {
    let pairs = [pair(0, 1), pair(1, 2), pair(2, 0)];
    let others = [pair(2, 0), pair(0, 2)];
    let of_first = are_told(alloc, board, 3, first, &pairs)?
        && are_told(alloc, board, 9, first, &[])?;
    let of_second = are_told(alloc, board, 3, second, &[])?
        && are_told(alloc, board, 9, second, &others)?;
    Ok(of_first && of_second)
}

#[test]
fn one_ring_after_another(rt: HostRuntime) -> Result<(), Fail> {
    let first = ring(&[0, 1, 2])?;
    let second = ring(&[7, 3])?;
    let mut board = board(rt.alloc(), 3)?;
    go_round_first(&rt, rt.alloc(), &mut board, &first)?;
    go_round_second(rt.alloc(), &mut board, &second)?;
    assert!(rt; are_told_apart(rt.alloc(), &board, &first, &second)?);
    Ok(())
}

fn cross(rt: &impl Abort, alloc: Global, board: &mut Board, ring: &Ring) -> Result<(), Fail> {
    for (by, role, offer) in [(0, 0, 10), (1, 0, 20), (2, 1, 30), (3, 1, 40)] {
        post_swap(alloc, board, ring, by, role, offer)?;
    }
    let crossing = cert(alloc, 4, &[(0, 2), (1, 3), (2, 1), (3, 0)])?;
    commit(alloc, board, crossing)?;
    let pairs = [pair(0, 2), pair(1, 3), pair(2, 1), pair(3, 0)];
    assert!(rt; are_told(alloc, board, 4, ring, &pairs)?);
    for (by, got) in [(0, 40), (1, 30), (2, 10), (3, 20)] {
        assert_eq!(rt; take(board, by)?, gives(got), "caller {by}");
    }
    Ok(())
}

#[test]
fn two_of_each_role_may_cross(rt: HostRuntime) -> Result<(), Fail> {
    let ring = ring(&[0, 1])?;
    let mut board = board(rt.alloc(), 4)?;
    cross(&rt, rt.alloc(), &mut board, &ring)
}

fn go_round_the_longest(
    rt: &impl Abort,
    alloc: Global,
    board: &mut Board,
    ring: &Ring,
) -> Result<(), Fail> {
    for role in 0..64 {
        post_swap(alloc, board, ring, role, role, role as i64)?;
    }
    commit_found(alloc, board)?;
    assert_eq!(rt; told(alloc, board.history(), 64, ring)?.len(), 64);
    assert_eq!(rt; take(board, 0)?, gives(63));
    assert_eq!(rt; take(board, 63)?, gives(62));
    Ok(())
}

#[test]
fn longest_ring(rt: HostRuntime) -> Result<(), Fail> {
    let mut channels = [0; 64];
    for i in 0..64 {
        channels[i] = 255 - i as u32;
    }
    let ring = ring(&channels)?;
    let mut board = board(rt.alloc(), 64)?;
    go_round_the_longest(&rt, rt.alloc(), &mut board, &ring)
}
