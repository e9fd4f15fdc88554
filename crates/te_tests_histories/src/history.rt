use std::alloc::Global;
use std::sync::Arc;
use std::test::Fail;
use te_cert::{Cert, CertFault, Meeting, Member};
use te_history::*;
use te_terms::{Atom, Calc, Calcs, Event, EventCode, Expr, Node, Outcome, Prim, Rows, Value};

fn seven() -> Value {
    Value::of(&[Atom::Int(7)]).unwrap_or_default()
}

fn gives_nothing() -> Outcome {
    Outcome::Gives(Value::unit())
}

fn gives_seven() -> Outcome {
    Outcome::Gives(seven())
}

fn event(alloc: Global, node: Node) -> Result<Event, Fail> {
    let mut code = EventCode::new(alloc);
    let root = code.push(node).ok().ok_or("a node")?;
    let code = Arc::new(alloc, code)?;
    Ok(Event::new(code, root, [Value::unit(); 8]).ok_or("a root")?)
}

// send 0 (7)
fn sends(alloc: Global) -> Result<Event, Fail> {
    let calcs = Calcs::of(&[Calc::One(Prim::Int(7))]).ok_or("a tuple")?;
    event(alloc, Node::Send(Prim::Chan(0), Expr::Tuple(calcs)))
}

// recv 0
fn receives(alloc: Global) -> Result<Event, Fail> {
    event(alloc, Node::Recv(Prim::Chan(0)))
}

fn post(by: u32, ticket: u32, event: Event) -> Entry {
    Entry::Post { by, ticket, event }
}

fn take(by: u32, ticket: u32, outcome: Outcome) -> Entry {
    Entry::Take {
        by,
        ticket,
        outcome,
    }
}

fn done(alloc: Global, by: u32) -> Entry {
    Entry::End {
        by,
        how: How::Done(Rows::new(alloc)),
    }
}

fn raised(by: u32) -> Entry {
    Entry::End {
        by,
        how: How::Raised(seven()),
    }
}

fn ends_stuck(by: u32) -> Entry {
    Entry::End {
        by,
        how: How::Stuck,
    }
}

// A commit by caller 0 of these members, each a thread with its ticket, with at most one meeting.
fn commit(
    alloc: Global,
    parties: &[(u32, u32)],
    meeting: Option<Meeting>,
    outcomes: &[Outcome],
) -> Result<Entry, Fail> {
    let mut members = Rows::new(alloc);
    for (thread, ticket) in parties {
        let choices = Rows::new(alloc);
        members.push(Member {
            thread: *thread,
            ticket: *ticket,
            choices,
        })?;
    }
    let mut meets = Rows::new(alloc);
    if let Some(meeting) = meeting {
        meets.push(meeting)?;
    }
    let mut rows = Rows::new(alloc);
    for outcome in outcomes {
        rows.push(*outcome)?;
    }
    Ok(Entry::Commit {
        by: 0,
        cert: Cert { members, meets },
        outcomes: rows,
    })
}

// The commit of the exchange, with what caller 1 gets.
fn exchange(alloc: Global, outcome: Outcome) -> Result<Entry, Fail> {
    commit(
        alloc,
        &[(0, 0), (1, 0)],
        Some(Meeting {
            sender: 0,
            receiver: 1,
        }),
        &[gives_nothing(), outcome],
    )
}

// Appends the entry, where it follows.
fn append(alloc: Global, hist: &mut Hist, entry: Entry) -> Result<(), Fail> {
    hist.reserve(1)?;
    if hist.len() >= 2_147_483_648 {
        Err("room for a ticket")?;
    }
    let follows = may_follow(alloc, hist, &entry);
    if follows.is_err() {
        Err("an entry that follows")?;
    }
    hist.push(entry);
    Ok(())
}

// Two callers, of which the first has posted a send and the second a receive.
fn posted(alloc: Global) -> Result<Hist, Fail> {
    let mut hist = Hist::new(alloc, 2)?;
    append(alloc, &mut hist, post(0, 0, sends(alloc)?))?;
    append(alloc, &mut hist, post(1, 0, receives(alloc)?))?;
    Ok(hist)
}

// The same after their commit.
fn committed(alloc: Global) -> Result<Hist, Fail> {
    let mut hist = posted(alloc)?;
    append(alloc, &mut hist, exchange(alloc, gives_seven())?)?;
    Ok(hist)
}

// One caller whose receive can't commit, on a board that is stuck.
fn stuck(alloc: Global) -> Result<Hist, Fail> {
    let mut hist = Hist::new(alloc, 1)?;
    append(alloc, &mut hist, post(0, 0, receives(alloc)?))?;
    append(alloc, &mut hist, Entry::Stuck { by: 0 })?;
    Ok(hist)
}

// Why the entry doesn't follow; none where it does.
fn fault(alloc: Global, hist: &Hist, entry: Entry) -> Option<StepFault> {
    match may_follow(alloc, hist, &entry) {
        Ok(()) => None,
        Err(fault) => Some(fault),
    }
}

// Where a caller stands.
fn status(hist: &Hist, t: u32) -> Option<Status> {
    if t < hist.callers() {
        Some(hist.status(t))
    } else {
        None
    }
}

#[test]
fn an_exchange_follows(rt: HostRuntime) -> Result<(), Fail> {
    let alloc = rt.alloc();
    let mut hist = posted(alloc)?;
    let entry = exchange(alloc, gives_seven())?;
    assert_eq!(rt; fault(alloc, &hist, entry), None);
    let early = take(0, 0, gives_nothing());
    assert_eq!(rt;
        fault(alloc, &hist, early),
        Some(StepFault::Other(Status::Parked(0)))
    );

    append(alloc, &mut hist, exchange(alloc, gives_seven())?)?;
    append(alloc, &mut hist, take(0, 0, gives_nothing()))?;
    append(alloc, &mut hist, take(1, 0, gives_seven()))?;
    append(alloc, &mut hist, done(alloc, 0))?;
    append(alloc, &mut hist, done(alloc, 1))?;
    assert_eq!(rt; hist.len(), 7);
    assert_eq!(rt; hist.callers(), 2);
    assert_eq!(rt; status(&hist, 1), Some(Status::Ended));
    assert!(rt; hist.get(6).is_some());
    assert!(rt; hist.get(7).is_none());
    Ok(())
}

// The ticket of a caller's next post.
fn next_ticket(hist: &Hist, t: u32) -> Option<u32> {
    if t < hist.callers() {
        Some(hist.posts(t))
    } else {
        None
    }
}

// Whether a caller is parked with this event.
fn is_parked_with(hist: &Hist, t: u32, event: &Event) -> bool {
    if t >= hist.callers() {
        return false;
    }
    match hist.status(t) {
        Status::Parked(_) => hist.parked_event(t).same(event),
        _ => false,
    }
}

// A copy of the entry follows where the entry does, and is appended.
fn append_copy(alloc: Global, hist: &mut Hist, entry: Entry) -> Result<(), Fail> {
    let copy = entry.copy(alloc)?;
    append(alloc, hist, copy)
}

#[test]
fn copies_of_entries_make_the_same_history(rt: HostRuntime) -> Result<(), Fail> {
    let alloc = rt.alloc();
    let mut hist = Hist::new(alloc, 2)?;
    append_copy(alloc, &mut hist, post(0, 0, sends(alloc)?))?;
    append_copy(alloc, &mut hist, post(1, 0, receives(alloc)?))?;
    append_copy(alloc, &mut hist, Entry::Withdraw { by: 1, ticket: 0 })?;
    append_copy(alloc, &mut hist, post(1, 1, receives(alloc)?))?;
    let met = Meeting {
        sender: 0,
        receiver: 1,
    };
    let outcomes = [gives_nothing(), gives_seven()];
    let entry = commit(alloc, &[(0, 0), (1, 1)], Some(met), &outcomes)?;
    append_copy(alloc, &mut hist, entry)?;
    append_copy(alloc, &mut hist, take(0, 0, gives_nothing()))?;
    append_copy(alloc, &mut hist, take(1, 1, gives_seven()))?;
    append_copy(alloc, &mut hist, Entry::Rest { by: 0 })?;
    append_copy(alloc, &mut hist, done(alloc, 0))?;
    append_copy(alloc, &mut hist, raised(1))?;
    assert_eq!(rt; hist.len(), 10);
    assert!(rt; hist.resting());
    assert_eq!(rt; status(&hist, 1), Some(Status::Ended));
    let mut hist = stuck(alloc)?;
    append_copy(alloc, &mut hist, ends_stuck(0))?;
    assert_eq!(rt; hist.phase(), Phase::Stuck);
    Ok(())
}

#[test]
fn a_commit_is_played_once(rt: HostRuntime) -> Result<(), Fail> {
    let alloc = rt.alloc();
    let mut hist = posted(alloc)?;
    assert_eq!(rt; next_ticket(&hist, 1), Some(1));
    assert!(rt; is_parked_with(&hist, 1, &receives(alloc)?));
    assert!(rt; !is_parked_with(&hist, 1, &sends(alloc)?));
    let Entry::Commit { cert, .. } = exchange(alloc, gives_nothing())? else {
        return Err("a commit".into());
    };
    let Ok(outcomes) = play_commit(alloc, &hist, &cert) else {
        return Err("a play".into());
    };
    let want = [gives_nothing(), gives_seven()];
    assert!(rt; outcomes.as_slice() == want.as_slice());
    append(alloc, &mut hist, Entry::Withdraw { by: 1, ticket: 0 })?;
    let stale = StepFault::Stale(1, Status::Idle);
    assert_eq!(rt; play_commit(alloc, &hist, &cert).err(), Some(stale));
    Ok(())
}

#[test]
fn a_caller_stands_as_its_entries_say(rt: HostRuntime) -> Result<(), Fail> {
    let alloc = rt.alloc();
    let mut hist = committed(alloc)?;
    assert_eq!(rt; status(&hist, 1), Some(Status::Given(0, gives_seven())));
    append(alloc, &mut hist, take(1, 0, gives_seven()))?;
    assert_eq!(rt; status(&hist, 1), Some(Status::Idle));
    append(alloc, &mut hist, post(1, 1, receives(alloc)?))?;
    assert_eq!(rt; status(&hist, 1), Some(Status::Parked(1)));
    append(alloc, &mut hist, Entry::Withdraw { by: 1, ticket: 1 })?;
    assert_eq!(rt; status(&hist, 1), Some(Status::Idle));
    append(alloc, &mut hist, post(1, 2, receives(alloc)?))?;
    assert_eq!(rt; status(&hist, 1), Some(Status::Parked(2)));
    append(alloc, &mut hist, Entry::Withdraw { by: 1, ticket: 2 })?;
    assert_eq!(rt; hist.phase(), Phase::Running);
    assert!(rt; !hist.resting());
    append(alloc, &mut hist, Entry::Rest { by: 1 })?;
    assert!(rt; hist.resting());
    append(alloc, &mut hist, raised(1))?;
    assert_eq!(rt; status(&hist, 1), Some(Status::Ended));

    let mut hist = stuck(alloc)?;
    assert_eq!(rt; hist.phase(), Phase::Stuck);
    append(alloc, &mut hist, ends_stuck(0))?;
    assert_eq!(rt; status(&hist, 0), Some(Status::Ended));
    Ok(())
}

#[test]
fn single_entries_are_refused(rt: HostRuntime) -> Result<(), Fail> {
    let alloc = rt.alloc();
    let new = Hist::new(alloc, 2)?;
    let parked = Status::Parked(0);
    let given = Status::Given(0, gives_seven());
    let idle = Status::Idle;
    for (entry, want) in [
        (post(2, 0, sends(alloc)?), StepFault::Caller),
        (post(0, 1, sends(alloc)?), StepFault::Ticket(0)),
        (Entry::Withdraw { by: 0, ticket: 0 }, StepFault::Other(idle)),
        (take(0, 0, gives_seven()), StepFault::Other(idle)),
        (Entry::Stuck { by: 1 }, StepFault::Live(0, idle)),
        (ends_stuck(0), StepFault::How),
    ] {
        assert_eq!(rt; fault(alloc, &new, entry), Some(want));
    }
    let posted = posted(alloc)?;
    for (entry, want) in [
        (post(0, 1, sends(alloc)?), StepFault::Other(parked)),
        (Entry::Withdraw { by: 0, ticket: 1 }, StepFault::Ticket(0)),
        (done(alloc, 0), StepFault::Other(parked)),
    ] {
        assert_eq!(rt; fault(alloc, &posted, entry), Some(want));
    }
    let committed = committed(alloc)?;
    for (entry, want) in [
        (take(1, 1, gives_seven()), StepFault::Ticket(0)),
        (take(1, 0, gives_nothing()), StepFault::Result(0)),
        (
            Entry::Withdraw { by: 1, ticket: 0 },
            StepFault::Other(given),
        ),
    ] {
        assert_eq!(rt; fault(alloc, &committed, entry), Some(want));
    }
    Ok(())
}

#[test]
fn entries_on_resting_and_stuck_boards_are_refused(rt: HostRuntime) -> Result<(), Fail> {
    let alloc = rt.alloc();
    let mut resting = Hist::new(alloc, 2)?;
    append(alloc, &mut resting, Entry::Rest { by: 0 })?;
    assert_eq!(rt;
        fault(alloc, &resting, Entry::Rest { by: 1 }),
        Some(StepFault::Resting)
    );
    append(alloc, &mut resting, done(alloc, 0))?;
    append(alloc, &mut resting, post(1, 0, receives(alloc)?))?;
    let ended = StepFault::Other(Status::Ended);
    assert_eq!(rt; fault(alloc, &resting, Entry::Stuck { by: 0 }), Some(ended));

    let mut stuck = stuck(alloc)?;
    for (entry, want) in [
        (Entry::Rest { by: 1 }, StepFault::Caller),
        (Entry::Rest { by: 0 }, StepFault::Closed),
        (done(alloc, 0), StepFault::How),
        (raised(0), StepFault::How),
    ] {
        assert_eq!(rt; fault(alloc, &stuck, entry), Some(want));
    }
    append(alloc, &mut stuck, ends_stuck(0))?;
    assert_eq!(rt; fault(alloc, &stuck, ends_stuck(0)), Some(ended));
    Ok(())
}

#[test]
fn commits_are_refused(rt: HostRuntime) -> Result<(), Fail> {
    let alloc = rt.alloc();
    let hist = posted(alloc)?;
    let met = Some(Meeting {
        sender: 0,
        receiver: 1,
    });
    let turned = Some(Meeting {
        sender: 1,
        receiver: 0,
    });
    let astray = Some(Meeting {
        sender: 0,
        receiver: 2,
    });
    let outcomes = [gives_nothing(), gives_seven()];
    let both = [(0, 0), (1, 0)];
    let parked = Status::Parked(0);
    for (parties, meeting, want) in [
        (&[][..], met, StepFault::Unsound(CertFault::Empty)),
        (
            &[(1, 0), (0, 0)][..],
            met,
            StepFault::Unsound(CertFault::Order),
        ),
        (&[(0, 0), (2, 0)][..], met, StepFault::Stranger(1)),
        (&[(0, 0), (1, 1)][..], met, StepFault::Stale(1, parked)),
        (&both[..], astray, StepFault::Unsound(CertFault::Index(0))),
        (&both[..], turned, StepFault::Unsound(CertFault::Meet(0))),
        (
            &both[..],
            None,
            StepFault::Unsound(CertFault::Unfinished(0)),
        ),
    ] {
        let entry = commit(alloc, parties, meeting, &outcomes)?;
        assert_eq!(rt; fault(alloc, &hist, entry), Some(want));
    }
    let other = exchange(alloc, gives_nothing())?;
    assert_eq!(rt; fault(alloc, &hist, other), Some(StepFault::Result(1)));
    let shorter = commit(alloc, &both, met, &[gives_nothing()])?;
    assert_eq!(rt; fault(alloc, &hist, shorter), Some(StepFault::Result(1)));
    let longer = commit(
        alloc,
        &both,
        met,
        &[gives_nothing(), gives_seven(), gives_seven()],
    )?;
    assert_eq!(rt; fault(alloc, &hist, longer), Some(StepFault::Result(2)));
    Ok(())
}
