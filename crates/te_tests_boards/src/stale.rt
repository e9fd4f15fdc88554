// A group of three that a search found, committed after the board has changed.

use crate::grouping::group;
use std::alloc::Global;
use std::process::Abort;
use std::sync::Arc;
use std::test::Fail;
use te_board::{Board, BoardFault};
use te_cert::Cert;
use te_history::Status;
use te_terms::{Arith, Atom, Calc, Calcs, Event, EventCode, Expr, Node, Outcome, Prim, Value, Var};

fn tuple(calc: Calc) -> Result<Expr, Fail> {
    Ok(Expr::Tuple(Calcs::of(&[calc]).ok_or("a tuple")?))
}

fn push(code: &mut EventCode, node: Node) -> Result<u32, Fail> {
    Ok(code.push(node).ok().ok_or("a node")?)
}

// u <- send 0 (1); recv 2
fn push_first(code: &mut EventCode) -> Result<u32, Fail> {
    let one = tuple(Calc::One(Prim::Int(1)))?;
    let sends = push(code, Node::Send(Prim::Chan(0), one))?;
    let receives = push(code, Node::Recv(Prim::Chan(2)))?;
    push(code, Node::Then(sends, receives))
}

// u <- recv from; w <- send to (u.0 + 1); always u
fn push_later(code: &mut EventCode, from: u32, to: u32) -> Result<u32, Fail> {
    let more = Calc::Op(Arith::Add, Prim::Part(Var::Inner(0), 0), Prim::Int(1));
    let receives = push(code, Node::Recv(Prim::Chan(from)))?;
    let sends = push(code, Node::Send(Prim::Chan(to), tuple(more)?))?;
    let gives = push(code, Node::Always(Expr::Whole(Var::Inner(0))))?;
    let rest = push(code, Node::Then(sends, gives))?;
    push(code, Node::Then(receives, rest))
}

// The event of one caller in a ring of three, of which only all together reduce.
fn in_ring(alloc: Global, by: u32) -> Result<Event, Fail> {
    let mut code = EventCode::new(alloc);
    let root = match by {
        0 => push_first(&mut code)?,
        1 => push_later(&mut code, 0, 1)?,
        _ => push_later(&mut code, 1, 2)?,
    };
    let code = Arc::new(alloc, code)?;
    Ok(Event::new(code, root, [Value::unit(); 8]).ok_or("a root")?)
}

fn never(alloc: Global) -> Result<Event, Fail> {
    let mut code = EventCode::new(alloc);
    let root = push(&mut code, Node::Never)?;
    let code = Arc::new(alloc, code)?;
    Ok(Event::new(code, root, [Value::unit(); 8]).ok_or("a root")?)
}

fn post(board: &mut Board, by: u32, event: Event) -> Result<(), Fail> {
    // The checker knows the types within a fault only where the body names them.
    let _named: Option<(Status, Outcome)> = None;
    if by >= board.callers() {
        Err("a caller")?;
    }
    board.post(by, event).ok().ok_or("a post")?;
    Ok(())
}

fn withdraw(board: &mut Board, by: u32) -> Result<(), Fail> {
    // The checker knows the types within a fault only where the body names them.
    let _named: Option<(Status, Outcome)> = None;
    if by >= board.callers() {
        Err("a caller")?;
    }
    board.withdraw(by).ok().ok_or("a withdrawal")?;
    Ok(())
}

fn post_ring(alloc: Global, board: &mut Board) -> Result<(), Fail> {
    for by in 0..3 {
        post(board, by, in_ring(alloc, by)?)?;
    }
    Ok(())
}

// A board of four callers, of which the first three have posted a ring.
fn ringed(alloc: Global) -> Result<Board, Fail> {
    let mut board = Board::new(alloc, 4)?;
    post_ring(alloc, &mut board)?;
    Ok(board)
}

// The group of three among the parked events.
fn ring(alloc: Global, board: &Board) -> Result<Cert, Fail> {
    Ok(group(alloc, board)?.ok_or("a group")?)
}

// The first caller commits a group.
fn commit(alloc: Global, board: &mut Board, cert: Cert) -> Result<Option<BoardFault>, Fail> {
    // The checker knows the types within a fault only where the body names them.
    let _named: Option<(Status, Outcome)> = None;
    if board.callers() == 0 {
        Err("a caller")?;
    }
    Ok(board.commit(alloc, 0, cert).err())
}

fn leave(rt: &impl Abort, alloc: Global, board: &mut Board, by: u32) -> Result<(), Fail> {
    let cert = ring(alloc, board)?;
    withdraw(board, by)?;
    let stale = commit(alloc, board, cert)?;
    assert_eq!(rt; stale, Some(BoardFault::Stale(by, Status::Idle)), "{by}");
    Ok(())
}

#[test]
fn a_group_is_stale_once_a_member_has_left(rt: HostRuntime) -> Result<(), Fail> {
    for by in 0..3 {
        let mut board = ringed(rt.alloc())?;
        leave(&rt, rt.alloc(), &mut board, by)?;
    }
    Ok(())
}

fn leave_and_come_back(
    rt: &impl Abort,
    alloc: Global,
    board: &mut Board,
    by: u32,
) -> Result<(), Fail> {
    let cert = ring(alloc, board)?;
    withdraw(board, by)?;
    post(board, by, in_ring(alloc, by)?)?;
    let stale = commit(alloc, board, cert)?;
    assert_eq!(rt;
        stale,
        Some(BoardFault::Stale(by, Status::Parked(1))),
        "{by}"
    );
    Ok(())
}

#[test]
fn a_group_is_stale_once_a_member_has_posted_again(rt: HostRuntime) -> Result<(), Fail> {
    for by in 0..3 {
        let mut board = ringed(rt.alloc())?;
        leave_and_come_back(&rt, rt.alloc(), &mut board, by)?;
    }
    Ok(())
}

fn stranger_leaves(rt: &impl Abort, alloc: Global, board: &mut Board) -> Result<(), Fail> {
    post(board, 3, never(alloc)?)?;
    let cert = ring(alloc, board)?;
    withdraw(board, 3)?;
    assert_eq!(rt; commit(alloc, board, cert)?, None);
    assert_eq!(rt; board.len(), 6);
    Ok(())
}

#[test]
fn a_group_commits_though_another_has_left(rt: HostRuntime) -> Result<(), Fail> {
    let mut board = ringed(rt.alloc())?;
    stranger_leaves(&rt, rt.alloc(), &mut board)
}

fn commit_twice(rt: &impl Abort, alloc: Global, board: &mut Board) -> Result<(), Fail> {
    let three = Value::of(&[Atom::Int(3)]).unwrap_or_default();
    let cert = ring(alloc, board)?;
    let again = ring(alloc, board)?;
    assert_eq!(rt; commit(alloc, board, cert)?, None);
    let stale = commit(alloc, board, again)?;
    let given = Status::Given(0, Outcome::Gives(three));
    assert_eq!(rt; stale, Some(BoardFault::Stale(0, given)));
    Ok(())
}

#[test]
fn a_group_commits_once(rt: HostRuntime) -> Result<(), Fail> {
    let mut board = ringed(rt.alloc())?;
    commit_twice(&rt, rt.alloc(), &mut board)
}
