ghost use Rattle.std.specs.Prelude.{◌≡◌, IfOk, IsTrue};
ghost use Rattle.te_terms.specs.Terms.{never};
ghost use Rattle.te_terms.specs.Joint.{CanCommit};

use std::alloc::Global;
use std::process::Abort;
use std::sync::Arc;
use std::test::Fail;
use te_board::*;
use te_cert::{Cert, CertFault, Meeting, Member};
use te_history::{How, Phase, Status, play_commit};
use te_terms::{Atom, Calc, Calcs, Event, EventCode, Expr, Node, Outcome, Prim, Rows, Value};

fn seven() -> Value {
    Value::of(&[Atom::Int(7)]).unwrap_or_default()
}

fn event(alloc: Global, node: Node) -> Result<Event, Fail> {
    let mut code = EventCode::new(alloc);
    let root = code.push(node).ok().ok_or("a node")?;
    let code = Arc::new(alloc, code)?;
    Ok(Event::new(code, root, [Value::unit(); 8]).ok_or("a root")?)
}

// send 0 (7)
fn sends(alloc: Global) -> Result<Event, Fail> {
    let calcs = Calcs::of(&[Calc::One(Prim::Int(7))]).ok_or("a tuple")?;
    event(alloc, Node::Send(Prim::Chan(0), Expr::Tuple(calcs)))
}

// recv 0
fn receives(alloc: Global) -> Result<Event, Fail> {
    event(alloc, Node::Recv(Prim::Chan(0)))
}

fn nevers(alloc: Global) -> Result<Event, Fail>
    ensures { IfOk result (λ event. event ≡ never) }
{
    let mut code = EventCode::new(alloc);
    let Ok(root) = code.push(Node::Never) else {
        return Err("a node".into());
    };
    let Ok(code) = Arc::new(alloc, code) else {
        return Err("a code".into());
    };
    let Some(event) = Event::new(code, root, [Value::unit(); 8]) else {
        return Err("a root".into());
    };
    Ok(event)
}

// Whether the snapshot's list is one event that never ends, which can't commit.
fn is_one_never(alloc: Global, snapshot: &Snapshot) -> Result<bool, Fail>
    ensures { IfOk result (λ yes. IsTrue yes → ¬ CanCommit snapshot.now.parked) }
{
    let never = nevers(alloc)?;
    match snapshot.parked.as_slice() {
        [only] => Ok(only.event.same(&never)),
        _ => Ok(false),
    }
}

// A certificate of these members, each a thread with its ticket, with at most one meeting.
fn cert(alloc: Global, parties: &[(u32, u32)], meeting: Option<Meeting>) -> Result<Cert, Fail> {
    let mut members = Rows::new(alloc);
    for (thread, ticket) in parties {
        let choices = Rows::new(alloc);
        members.push(Member {
            thread: *thread,
            ticket: *ticket,
            choices,
        })?;
    }
    let mut meets = Rows::new(alloc);
    if let Some(meeting) = meeting {
        meets.push(meeting)?;
    }
    Ok(Cert { members, meets })
}

fn meets(sender: u32, receiver: u32) -> Option<Meeting> {
    Some(Meeting { sender, receiver })
}

// The certificate of the exchange.
fn exchange(alloc: Global) -> Result<Cert, Fail> {
    cert(alloc, &[(0, 0), (1, 0)], meets(0, 1))
}

// ---- each call, by a caller of the board: why it was refused, and none where it wasn't

fn post(board: &mut Board, by: u32, event: Event) -> Result<Option<BoardFault>, Fail> {
    if by >= board.callers() {
        Err("a caller")?;
    }
    Ok(board.post(by, event).err())
}

fn withdraw(board: &mut Board, by: u32) -> Result<Option<BoardFault>, Fail> {
    if by >= board.callers() {
        Err("a caller")?;
    }
    Ok(board.withdraw(by).err())
}

fn take(board: &mut Board, by: u32) -> Result<Result<Outcome, BoardFault>, Fail> {
    if by >= board.callers() {
        Err("a caller")?;
    }
    Ok(board.take(by))
}

fn rest(board: &mut Board, by: u32) -> Result<Option<BoardFault>, Fail> {
    if by >= board.callers() {
        Err("a caller")?;
    }
    Ok(board.rest(by).err())
}

// Ends as done of nothing, or as stuck where the board is so.
fn end(alloc: Global, board: &mut Board, by: u32) -> Result<Option<BoardFault>, Fail> {
    if by >= board.callers() {
        Err("a caller")?;
    }
    match board.phase() {
        Phase::Stuck => Ok(board.end(by, How::Stuck).err()),
        Phase::Running => Ok(board.end(by, How::Done(Rows::new(alloc))).err()),
    }
}

fn commit(
    alloc: Global,
    board: &mut Board,
    by: u32,
    cert: Cert,
) -> Result<Option<BoardFault>, Fail> {
    if by >= board.callers() {
        Err("a caller")?;
    }
    Ok(board.commit(alloc, by, cert).err())
}

fn declare_stuck(
    alloc: Global,
    board: &mut Board,
    by: u32,
    snapshot: &Snapshot,
) -> Result<Option<BoardFault>, Fail> {
    if by >= board.callers() {
        Err("a caller")?;
    }
    if !is_one_never(alloc, snapshot)? {
        Err("an event that never ends")?;
    }
    Ok(board.declare_stuck(by, snapshot).err())
}

fn status(board: &Board, t: u32) -> Option<Status> {
    if t < board.callers() {
        Some(board.status(t))
    } else {
        None
    }
}

// ---- boards

// Two callers, of which the first has posted a send and the second a receive.
fn posted(alloc: Global) -> Result<Board, Fail> {
    let mut board = Board::new(alloc, 2)?;
    post_both(alloc, &mut board)?;
    Ok(board)
}

fn post_both(alloc: Global, board: &mut Board) -> Result<(), Fail> {
    // The checker knows the types within a fault only where the body names them.
    let _named: Option<(Status, Outcome)> = None;
    let first = post(board, 0, sends(alloc)?)?;
    let second = post(board, 1, receives(alloc)?)?;
    if first.is_some() || second.is_some() {
        Err("two posts")?;
    }
    Ok(())
}

// Two callers, of which the first has posted an event that never ends, and the second has ended; and the snapshot.
fn waiting(alloc: Global) -> Result<(Board, Snapshot), Fail> {
    let mut board = Board::new(alloc, 2)?;
    post_and_end(alloc, &mut board)?;
    let snapshot = board.snapshot(alloc)?;
    Ok((board, snapshot))
}

fn post_and_end(alloc: Global, board: &mut Board) -> Result<(), Fail> {
    // The checker knows the types within a fault only where the body names them.
    let _named: Option<(Status, Outcome)> = None;
    let first = post(board, 0, nevers(alloc)?)?;
    if first.is_some() || end(alloc, board, 1)?.is_some() {
        Err("a post and an end")?;
    }
    Ok(())
}

// One caller that has posted and withdrawn until there is room for one post more.
fn nearly_full(alloc: Global) -> Result<Board, Fail> {
    let mut board = Board::new(alloc, 1)?;
    let event = nevers(alloc)?;
    fill(&mut board, &event)?;
    Ok(board)
}

fn fill(board: &mut Board, event: &Event) -> Result<(), Fail> {
    // The checker knows the types within a fault only where the body names them.
    let _named: Option<(Status, Outcome)> = None;
    for _ in 0..99_997 {
        let posted = post(board, 0, event.copy()?)?;
        let withdrawn = withdraw(board, 0)?;
        if posted.is_some() || withdrawn.is_some() {
            Err("room for a ticket")?;
        }
    }
    Ok(())
}

// ---- the tests: each owns a board, and lends it to a function that has nothing to drop where it returns

// Whether the snapshot tells of both callers, of the first with its event.
fn tells_both(alloc: Global, board: &Board) -> Result<bool, Fail> {
    let snapshot = board.snapshot(alloc)?;
    let sent = sends(alloc)?;
    let is_first = match snapshot.parked.get(0) {
        Some(first) => first.thread == 0 && first.ticket == 0 && first.event.same(&sent),
        None => false,
    };
    Ok(is_first && snapshot.front == 2 && snapshot.parked.len() == 2)
}

fn commit_exchange(rt: &impl Abort, alloc: Global, board: &mut Board) -> Result<(), Fail> {
    assert!(rt; tells_both(alloc, board)?);
    assert_eq!(rt; commit(alloc, board, 0, exchange(alloc)?)?, None);
    assert_eq!(rt; take(board, 0)?, Ok(Outcome::Gives(Value::unit())));
    assert_eq!(rt; take(board, 1)?, Ok(Outcome::Gives(seven())));
    assert_eq!(rt; end(alloc, board, 0)?, None);
    assert_eq!(rt; end(alloc, board, 1)?, None);
    assert_eq!(rt; board.len(), 7);
    assert_eq!(rt; board.history().len(), 7);
    assert_eq!(rt; status(board, 1), Some(Status::Ended));
    Ok(())
}

#[test]
fn an_exchange_commits(rt: HostRuntime) -> Result<(), Fail> {
    let mut board = posted(rt.alloc())?;
    commit_exchange(&rt, rt.alloc(), &mut board)
}

fn refuse_while_parked(rt: &impl Abort, alloc: Global, board: &mut Board) -> Result<(), Fail> {
    let parked = Status::Parked(0);
    let idle = Status::Idle;
    let again = post(board, 0, sends(alloc)?)?;
    assert_eq!(rt; again, Some(BoardFault::NotIdle(parked)));
    assert_eq!(rt; take(board, 1)?, Err(BoardFault::NotGiven(parked)));
    assert_eq!(rt; end(alloc, board, 1)?, Some(BoardFault::NotIdle(parked)));
    assert_eq!(rt; withdraw(board, 1)?, None);
    assert_eq!(rt; withdraw(board, 1)?, Some(BoardFault::NotParked(idle)));
    assert_eq!(rt; take(board, 1)?, Err(BoardFault::NotGiven(idle)));
    assert_eq!(rt; rest(board, 1)?, None);
    assert_eq!(rt; rest(board, 0)?, Some(BoardFault::Resting));
    assert!(rt; board.resting());
    assert_eq!(rt; board.len(), 4);
    Ok(())
}

#[test]
fn posts_withdrawals_and_takes_are_refused(rt: HostRuntime) -> Result<(), Fail> {
    let mut board = posted(rt.alloc())?;
    refuse_while_parked(&rt, rt.alloc(), &mut board)
}

fn refuse_commits(rt: &impl Abort, alloc: Global, board: &mut Board) -> Result<(), Fail> {
    let both = [(0, 0), (1, 0)];
    let parked = Status::Parked(0);
    for (parties, meeting, want) in [
        (&[][..], meets(0, 1), BoardFault::Unsound(CertFault::Empty)),
        (
            &[(1, 0), (0, 0)][..],
            meets(0, 1),
            BoardFault::Unsound(CertFault::Order),
        ),
        (&[(0, 0), (2, 0)][..], meets(0, 1), BoardFault::Stranger(1)),
        (
            &[(0, 0), (1, 1)][..],
            meets(0, 1),
            BoardFault::Stale(1, parked),
        ),
        (
            &both[..],
            meets(0, 2),
            BoardFault::Unsound(CertFault::Index(0)),
        ),
        (
            &both[..],
            meets(1, 0),
            BoardFault::Unsound(CertFault::Meet(0)),
        ),
        (
            &both[..],
            None,
            BoardFault::Unsound(CertFault::Unfinished(0)),
        ),
    ] {
        let cert = cert(alloc, parties, meeting)?;
        assert_eq!(rt; commit(alloc, board, 0, cert)?, Some(want));
    }
    assert_eq!(rt; commit(alloc, board, 0, exchange(alloc)?)?, None);
    let given = Status::Given(0, Outcome::Gives(Value::unit()));
    let again = commit(alloc, board, 0, exchange(alloc)?)?;
    assert_eq!(rt; again, Some(BoardFault::Stale(0, given)));
    Ok(())
}

fn refuse_stale(rt: &impl Abort, alloc: Global, board: &mut Board) -> Result<(), Fail> {
    assert_eq!(rt; withdraw(board, 1)?, None);
    let stale = commit(alloc, board, 0, exchange(alloc)?)?;
    assert_eq!(rt; stale, Some(BoardFault::Stale(1, Status::Idle)));
    Ok(())
}

#[test]
fn commits_are_refused(rt: HostRuntime) -> Result<(), Fail> {
    let mut board = posted(rt.alloc())?;
    refuse_commits(&rt, rt.alloc(), &mut board)?;
    let mut board = posted(rt.alloc())?;
    refuse_stale(&rt, rt.alloc(), &mut board)
}

fn live_while_one_is_idle(rt: &impl Abort, alloc: Global, board: &mut Board) -> Result<(), Fail> {
    assert_eq!(rt; post(board, 0, nevers(alloc)?)?, None);
    let snapshot = board.snapshot(alloc)?;
    assert_eq!(rt; snapshot.front, 1);
    let live = declare_stuck(alloc, board, 0, &snapshot)?;
    assert_eq!(rt; live, Some(BoardFault::Live(1, Status::Idle)));
    Ok(())
}

fn moved_by_another_post(
    rt: &impl Abort,
    alloc: Global,
    board: &mut Board,
    snapshot: &Snapshot,
) -> Result<(), Fail> {
    assert_eq!(rt; snapshot.front, 2);
    let ended = declare_stuck(alloc, board, 1, snapshot)?;
    assert_eq!(rt; ended, Some(BoardFault::NotParked(Status::Ended)));
    assert_eq!(rt; withdraw(board, 0)?, None);
    assert_eq!(rt; post(board, 0, nevers(alloc)?)?, None);
    let moved = declare_stuck(alloc, board, 0, snapshot)?;
    assert_eq!(rt; moved, Some(BoardFault::Moved(4)));
    Ok(())
}

#[test]
fn a_board_is_stuck_only_on_its_own_list(rt: HostRuntime) -> Result<(), Fail> {
    let mut board = Board::new(rt.alloc(), 2)?;
    live_while_one_is_idle(&rt, rt.alloc(), &mut board)?;
    let (mut board, snapshot) = waiting(rt.alloc())?;
    moved_by_another_post(&rt, rt.alloc(), &mut board, &snapshot)
}

fn end_alone(
    rt: &impl Abort,
    alloc: Global,
    board: &mut Board,
    snapshot: &Snapshot,
) -> Result<(), Fail> {
    assert_eq!(rt; declare_stuck(alloc, board, 0, snapshot)?, None);
    let closed = Some(BoardFault::Closed);
    assert_eq!(rt; post(board, 0, nevers(alloc)?)?, closed);
    assert_eq!(rt; withdraw(board, 0)?, closed);
    assert_eq!(rt; rest(board, 0)?, closed);
    assert_eq!(rt; commit(alloc, board, 0, exchange(alloc)?)?, closed);
    assert_eq!(rt; declare_stuck(alloc, board, 0, snapshot)?, closed);
    let parked = Status::Parked(0);
    assert_eq!(rt; take(board, 0)?, Err(BoardFault::NotGiven(parked)));
    let ended = Status::Ended;
    assert_eq!(rt; end(alloc, board, 1)?, Some(BoardFault::NotParked(ended)));
    assert_eq!(rt; end(alloc, board, 0)?, None);
    assert_eq!(rt; board.len(), 4);
    Ok(())
}

#[test]
fn a_stuck_board_takes_ends_alone(rt: HostRuntime) -> Result<(), Fail> {
    let (mut board, snapshot) = waiting(rt.alloc())?;
    end_alone(&rt, rt.alloc(), &mut board, &snapshot)
}

fn end_when_full(rt: &impl Abort, alloc: Global, board: &mut Board) -> Result<(), Fail> {
    assert_eq!(rt; board.len(), 199_994);
    assert_eq!(rt; post(board, 0, nevers(alloc)?)?, None);
    assert_eq!(rt; withdraw(board, 0)?, None);
    assert_eq!(rt; post(board, 0, nevers(alloc)?)?, Some(BoardFault::Full));
    assert_eq!(rt; rest(board, 0)?, None);
    assert_eq!(rt; end(alloc, board, 0)?, None);
    assert_eq!(rt; board.len(), 199_998);
    Ok(())
}

fn end_stuck_when_full(rt: &impl Abort, alloc: Global, board: &mut Board) -> Result<(), Fail> {
    assert_eq!(rt; post(board, 0, nevers(alloc)?)?, None);
    assert_eq!(rt; rest(board, 0)?, None);
    let snapshot = board.snapshot(alloc)?;
    assert_eq!(rt; declare_stuck(alloc, board, 0, &snapshot)?, None);
    assert_eq!(rt; end(alloc, board, 0)?, None);
    assert_eq!(rt; board.len(), 199_998);
    Ok(())
}

#[test]
fn a_full_board_still_ends(rt: HostRuntime) -> Result<(), Fail> {
    let mut board = nearly_full(rt.alloc())?;
    end_when_full(&rt, rt.alloc(), &mut board)?;
    let mut board = nearly_full(rt.alloc())?;
    end_stuck_when_full(&rt, rt.alloc(), &mut board)
}
