use std::alloc::Global;
use std::sync::Arc;
use std::test::Fail;
use te_cert::*;
use te_terms::{
    Arith, Atom, Calc, Calcs, Event, EventCode, Expr, Node, Outcome, Prim, Rows, Value, Var,
};

// The event under the last of these nodes.
fn event(alloc: Global, nodes: &[Node]) -> Result<Event, Fail> {
    let mut code = EventCode::new(alloc);
    let mut root = 0;
    for node in nodes {
        root = code.push(*node).ok().ok_or("a node")?;
    }
    let regs = [Value::unit(); 8];
    Ok(Event::new(Arc::new(alloc, code)?, root, regs).ok_or("a root")?)
}

// A member by its thread and its choices.
fn member(alloc: Global, thread: u32, letters: &[bool]) -> Result<Member, Fail> {
    let mut choices = Rows::new(alloc);
    for letter in letters {
        choices.push(*letter)?;
    }
    Ok(Member {
        thread,
        ticket: 0,
        choices,
    })
}

// What a check answers of these members, each with its thread and its choices, and these meetings.
fn answer(
    alloc: Global,
    group: &[(u32, &[bool])],
    pairs: &[(u32, u32)],
    events: &[Event],
) -> Result<Result<Rows<Outcome>, CertFault>, Fail> {
    let mut members = Rows::new(alloc);
    for (thread, letters) in group {
        members.push(member(alloc, *thread, letters)?)?;
    }
    let mut meets = Rows::new(alloc);
    for (sender, receiver) in pairs {
        meets.push(Meeting {
            sender: *sender,
            receiver: *receiver,
        })?;
    }
    if meets.len() > u32::MAX as usize || members.len() != events.len() {
        Err("too many meetings, or not an event for each member")?;
    }
    Ok(check(alloc, &Cert { members, meets }, events))
}

// A check's answer is these outcomes.
fn gives(answer: &Result<Rows<Outcome>, CertFault>, want: &[Outcome]) -> bool {
    match answer {
        Ok(outcomes) => outcomes.as_slice() == want,
        Err(_) => false,
    }
}

fn fault(answer: Result<Rows<Outcome>, CertFault>) -> Option<CertFault> {
    answer.err()
}

fn ints(list: &[i64]) -> Value {
    let mut atoms = [Atom::Int(0); 4];
    for (atom, z) in atoms.iter_mut().zip(list) {
        *atom = Atom::Int(*z);
    }
    Value::of(atoms.get(..list.len()).unwrap_or(&[])).unwrap_or_default()
}

fn tuple(list: &[Calc]) -> Expr {
    match Calcs::of(list) {
        Some(calcs) => Expr::Tuple(calcs),
        None => Expr::Whole(Var::Inner(255)),
    }
}

fn number(z: i64) -> Expr {
    tuple(&[Calc::One(Prim::Int(z))])
}

fn one_more() -> Expr {
    tuple(&[Calc::Op(Arith::Add, Prim::Part(Var::Inner(0), 0), Prim::Int(1))])
}

// a sends (7) on channel 0, where b receives.
fn pair(alloc: Global) -> Result<[Event; 2], Fail> {
    Ok([
        event(alloc, &[Node::Send(Prim::Chan(0), number(7))])?,
        event(alloc, &[Node::Recv(Prim::Chan(0))])?,
    ])
}

// Whether the two give and get what they should.
fn meets(alloc: Global, events: &[Event]) -> Result<bool, Fail> {
    let met = answer(alloc, &[(0, &[]), (1, &[])], &[(0, 1)], events)?;
    let want = [Outcome::Gives(Value::unit()), Outcome::Gives(ints(&[7]))];
    Ok(gives(&met, &want))
}

#[test]
fn a_pair_meets(rt: HostRuntime) -> Result<(), Fail> {
    let events = pair(rt.alloc())?;
    assert!(rt; meets(rt.alloc(), &events)?);
    Ok(())
}

#[test]
fn no_member_is_no_group(rt: HostRuntime) -> Result<(), Fail> {
    assert_eq!(rt;
        fault(answer(rt.alloc(), &[], &[], &[])?),
        Some(CertFault::Empty)
    );
    Ok(())
}

#[test]
fn what_is_wrong_first_is_told(rt: HostRuntime) -> Result<(), Fail> {
    let events = pair(rt.alloc())?;
    let two = &[(0, &[][..]), (1, &[][..])][..];
    let turned = &[(1, &[][..]), (0, &[][..])][..];
    let equal = &[(1, &[][..]), (1, &[][..])][..];
    let sender_chooses = &[(0, &[true][..]), (1, &[][..])][..];
    let receiver_chooses = &[(0, &[][..]), (1, &[false][..])][..];
    for (group, pairs, want) in [
        (turned, &[(0, 2)][..], CertFault::Order),
        (equal, &[(0, 1)][..], CertFault::Order),
        (two, &[(0, 2)][..], CertFault::Index(0)),
        (two, &[(1, 0), (2, 1)][..], CertFault::Index(1)),
        (two, &[(1, 0), (1, 1)][..], CertFault::Index(1)),
        (two, &[(1, 0)][..], CertFault::Meet(0)),
        (two, &[(0, 1), (0, 1)][..], CertFault::Meet(1)),
        (two, &[][..], CertFault::Unfinished(0)),
        (sender_chooses, &[(0, 1)][..], CertFault::Choices(0)),
        (receiver_chooses, &[(0, 1)][..], CertFault::Choices(1)),
        (sender_chooses, &[(1, 0)][..], CertFault::Meet(0)),
    ] {
        assert_eq!(rt;
            fault(answer(rt.alloc(), group, pairs, &events)?),
            Some(want)
        );
    }
    Ok(())
}

// do { _0 <- recv from; _1 <- send to (_0.0 + 1); always _0 }
fn forwards(from: u32, to: u32) -> [Node; 5] {
    [
        Node::Recv(Prim::Chan(from)),
        Node::Send(Prim::Chan(to), one_more()),
        Node::Always(Expr::Whole(Var::Inner(0))),
        Node::Then(1, 2),
        Node::Then(0, 3),
    ]
}

// do { _0 <- send to (1); recv from }
fn starts(to: u32, from: u32) -> [Node; 3] {
    [
        Node::Send(Prim::Chan(to), number(1)),
        Node::Recv(Prim::Chan(from)),
        Node::Then(0, 1),
    ]
}

#[test]
fn three_meet_in_a_ring(rt: HostRuntime) -> Result<(), Fail> {
    let alloc = rt.alloc();
    let events = [
        event(alloc, &starts(0, 2))?,
        event(alloc, &forwards(0, 1))?,
        event(alloc, &forwards(1, 2))?,
    ];
    let group = &[(0, &[][..]), (1, &[][..]), (2, &[][..])][..];
    let want = [
        Outcome::Gives(ints(&[3])),
        Outcome::Gives(ints(&[1])),
        Outcome::Gives(ints(&[2])),
    ];
    assert!(rt;
        gives(
            &answer(alloc, group, &[(0, 1), (1, 2), (2, 0)], &events)?,
            &want
        )
    );
    let broken = answer(alloc, group, &[(0, 1), (1, 2)], &events)?;
    assert_eq!(rt; fault(broken), Some(CertFault::Unfinished(0)));
    Ok(())
}

#[test]
fn choices_are_used_up(rt: HostRuntime) -> Result<(), Fail> {
    // choose { send 0 (1) | throw (9) }
    let forks = [
        Node::Send(Prim::Chan(0), number(1)),
        Node::Throw(number(9)),
        Node::Choose(0, 1),
    ];
    let events = [event(rt.alloc(), &forks)?];
    let raised = answer(rt.alloc(), &[(3, &[false])], &[], &events)?;
    assert!(rt; gives(&raised, &[Outcome::Raises(ints(&[9]))]));
    for (letters, want) in [
        (&[][..], CertFault::Choices(0)),
        (&[true][..], CertFault::Unfinished(0)),
        (&[false, false][..], CertFault::Choices(0)),
        (&[true, false][..], CertFault::Unfinished(0)),
    ] {
        assert_eq!(rt;
            fault(answer(rt.alloc(), &[(3, letters)], &[], &events)?),
            Some(want)
        );
    }
    Ok(())
}

#[test]
fn nobody_meets_itself(rt: HostRuntime) -> Result<(), Fail> {
    let events = [event(rt.alloc(), &starts(0, 0))?];
    let alone = answer(rt.alloc(), &[(0, &[])], &[(0, 0)], &events)?;
    assert_eq!(rt; fault(alone), Some(CertFault::Index(0)));
    Ok(())
}

// do { _0 <- fresh; _1 <- send 0 _0; recv _0.0 }
fn makes_and_sends() -> [Node; 5] {
    [
        Node::Send(Prim::Chan(0), Expr::Whole(Var::Inner(0))),
        Node::Recv(Prim::Part(Var::Inner(0), 0)),
        Node::Then(0, 1),
        Node::Fresh,
        Node::Then(3, 2),
    ]
}

// do { _0 <- recv 0; _1 <- send _0.0 (5); always _0 }
fn answers_on_it() -> [Node; 5] {
    [
        Node::Send(Prim::Part(Var::Inner(0), 0), number(5)),
        Node::Always(Expr::Whole(Var::Inner(0))),
        Node::Then(0, 1),
        Node::Recv(Prim::Chan(0)),
        Node::Then(3, 2),
    ]
}

#[test]
fn two_talk_on_a_fresh_channel(rt: HostRuntime) -> Result<(), Fail> {
    let alloc = rt.alloc();
    let events = [
        event(alloc, &makes_and_sends())?,
        event(alloc, &answers_on_it())?,
    ];
    let group = &[(0, &[][..]), (1, &[][..])][..];
    let channel = Value::of(&[Atom::Chan(1073741824)]).unwrap_or_default();
    let want = [Outcome::Gives(ints(&[5])), Outcome::Gives(channel)];
    assert!(rt; gives(&answer(alloc, group, &[(0, 1), (1, 0)], &events)?, &want));
    Ok(())
}

#[test]
fn a_room_serves_for_many_plays(rt: HostRuntime) -> Result<(), Fail> {
    let alloc = rt.alloc();
    let events = pair(alloc)?;
    let mut room = Room::new(alloc);
    let want = [Outcome::Gives(Value::unit()), Outcome::Gives(ints(&[7]))];
    for _ in 0..3 {
        let mut members = Rows::new(alloc);
        members.push(member(alloc, 0, &[])?)?;
        members.push(member(alloc, 1, &[])?)?;
        let mut meets = Rows::new(alloc);
        meets.push(Meeting {
            sender: 0,
            receiver: 1,
        })?;
        if meets.len() > u32::MAX as usize || members.len() != 2 {
            Err("another certificate")?;
        }
        let lents = [Lent::of(&events[0]), Lent::of(&events[1])];
        let met = check_in(alloc, &mut room, &Cert { members, meets }, &lents);
        assert!(rt; gives(&met, &want));
    }
    Ok(())
}
