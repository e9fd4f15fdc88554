use std::alloc::Global;
use std::sync::Arc;
use std::test::Fail;
use te_path::*;
use te_terms::{
    Arith, Atom, Calc, Calcs, Cond, Event, EventCode, Expr, Node, Prim, Test, Value, Var,
};

// A move of a path.
#[derive(Clone, Copy, Debug)]
enum Step {
    Left,
    Right,
    Sent,
    Received(Value),
}

// Makes the move, where the path stands at one.
fn make(path: &mut PathState, step: Step) -> Result<(), Fail> {
    match path.stop() {
        Stop::Choice => match step {
            Step::Left => path.choose(true)?,
            Step::Right => path.choose(false)?,
            _ => Err("a choice")?,
        },
        Stop::Send(_, _) => match step {
            Step::Sent => path.sent()?,
            _ => Err("a send")?,
        },
        Stop::Recv(_) => match step {
            Step::Received(value) => path.received(value)?,
            _ => Err("a receive")?,
        },
        _ => Err("no move")?,
    }
    Ok(())
}

// The event under the last of these nodes; register 0 is (2).
fn event_of(alloc: Global, nodes: &[Node]) -> Result<Event, Fail> {
    let mut code = EventCode::new(alloc);
    let mut root = 0;
    for node in nodes {
        root = code.push(*node).ok().ok_or("a node")?;
    }
    let mut regs = [Value::unit(); 8];
    regs[0] = ints(&[2]);
    Ok(Event::new(Arc::new(alloc, code)?, root, regs).ok_or("a root")?)
}

// The state at its start, for thread 3 under ticket 1.
fn start(alloc: Global, nodes: &[Node]) -> Result<PathState, Fail> {
    Ok(PathState::start(alloc, &event_of(alloc, nodes)?, 3, 1)?)
}

// Where the path stands after these moves.
fn stop_after(alloc: Global, nodes: &[Node], steps: &[Step]) -> Result<Stop, Fail> {
    let mut path = start(alloc, nodes)?;
    for step in steps {
        make(&mut path, *step)?;
    }
    Ok(path.stop())
}

fn value(atoms: &[Atom]) -> Value {
    Value::of(atoms).unwrap_or_default()
}

fn ints(list: &[i64]) -> Value {
    let mut atoms = [Atom::Int(0); 4];
    for (atom, z) in atoms.iter_mut().zip(list) {
        *atom = Atom::Int(*z);
    }
    value(atoms.get(..list.len()).unwrap_or(&[]))
}

fn tuple(list: &[Calc]) -> Expr {
    match Calcs::of(list) {
        Some(calcs) => Expr::Tuple(calcs),
        None => Expr::Whole(Var::Inner(255)),
    }
}

fn number(z: i64) -> Expr {
    tuple(&[Calc::One(Prim::Int(z))])
}

// Place 0 of an inner name, and the sum of it and 1.
fn first(name: u8) -> Prim {
    Prim::Part(Var::Inner(name), 0)
}

fn one_more(name: u8) -> Expr {
    tuple(&[Calc::Op(Arith::Add, first(name), Prim::Int(1))])
}

fn whole(name: u8) -> Expr {
    Expr::Whole(Var::Inner(name))
}

// (z + 1) for the greatest z, which lies outside 64 bits.
fn past_greatest() -> Expr {
    tuple(&[Calc::Op(Arith::Add, Prim::Int(i64::MAX), Prim::Int(1))])
}

fn sum(p: Prim, q: Prim) -> Expr {
    tuple(&[Calc::Op(Arith::Add, p, q)])
}

fn difference(p: Prim, q: Prim) -> Expr {
    tuple(&[Calc::Op(Arith::Sub, p, q)])
}

// do { _0 <- recv 0; _1 <- send 1 (_0.0 + 1); always _0 }
fn forwards() -> [Node; 5] {
    [
        Node::Recv(Prim::Chan(0)),
        Node::Send(Prim::Chan(1), one_more(0)),
        Node::Always(whole(0)),
        Node::Then(1, 2),
        Node::Then(0, 3),
    ]
}

// choose { send 0 () | send 1 () }
fn forks() -> [Node; 3] {
    [
        Node::Send(Prim::Chan(0), tuple(&[])),
        Node::Send(Prim::Chan(1), tuple(&[])),
        Node::Choose(0, 1),
    ]
}

#[test]
fn a_message_is_sent_on(rt: HostRuntime) -> Result<(), Fail> {
    let one = Step::Received(ints(&[1]));
    for (steps, want) in [
        (&[][..], Stop::Recv(0)),
        (&[one][..], Stop::Send(1, ints(&[2]))),
        (&[one, Step::Sent][..], Stop::Done(ints(&[1]))),
    ] {
        assert_eq!(rt; stop_after(rt.alloc(), &forwards(), steps)?, want);
    }
    Ok(())
}

// Where a path and its copy stand, before and after the path goes right and then the copy left.
fn part_ways(path: &mut PathState, copy: &mut PathState) -> Result<[Stop; 4], Fail> {
    let before = path.stop();
    make(path, Step::Right)?;
    let copied = copy.stop();
    make(copy, Step::Left)?;
    Ok([before, copied, path.stop(), copy.stop()])
}

fn stops_of_both(alloc: Global) -> Result<[Stop; 4], Fail> {
    let mut path = start(alloc, &forks())?;
    let mut copy = path.copy()?;
    part_ways(&mut path, &mut copy)
}

#[test]
fn a_copy_goes_its_own_way(rt: HostRuntime) -> Result<(), Fail> {
    let right = Stop::Send(1, Value::unit());
    let left = Stop::Send(0, Value::unit());
    assert!(rt; stops_of_both(rt.alloc())? == [Stop::Choice, Stop::Choice, right, left]);
    Ok(())
}

#[test]
fn throws_are_endings(rt: HostRuntime) -> Result<(), Fail> {
    let sends = Node::Send(Prim::Chan(0), number(1));
    let raises = [sends, Node::Throw(number(9)), Node::Then(0, 1)];
    let passes = [
        Node::Throw(number(3)),
        Node::Always(number(1)),
        Node::Then(0, 1),
    ];
    let gives = [Node::Always(number(1)), Node::Never, Node::Catch(0, 1)];
    for (nodes, steps, want) in [
        (&raises[..], &[][..], Stop::Send(0, ints(&[1]))),
        (&raises[..], &[Step::Sent][..], Stop::Raised(ints(&[9]))),
        (&passes[..], &[][..], Stop::Raised(ints(&[3]))),
        (&gives[..], &[][..], Stop::Done(ints(&[1]))),
    ] {
        assert_eq!(rt; stop_after(rt.alloc(), nodes, steps)?, want);
    }
    Ok(())
}

#[test]
fn catching_keeps_what_was_done(rt: HostRuntime) -> Result<(), Fail> {
    // try { do { _0 <- recv 0; throw (_0.0 + 1) } } catch _0 { always _0 }
    let caught = [
        Node::Recv(Prim::Chan(0)),
        Node::Throw(one_more(0)),
        Node::Then(0, 1),
        Node::Always(whole(0)),
        Node::Catch(2, 3),
    ];
    // try { do { _0 <- choose { never | send 0 (1) }; throw (3) } } catch _0 { recv 1 }
    let kept = [
        Node::Never,
        Node::Send(Prim::Chan(0), number(1)),
        Node::Choose(0, 1),
        Node::Throw(number(3)),
        Node::Then(2, 3),
        Node::Recv(Prim::Chan(1)),
        Node::Catch(4, 5),
    ];
    let four = Step::Received(ints(&[4]));
    for (nodes, steps, want) in [
        (&caught[..], &[][..], Stop::Recv(0)),
        (&caught[..], &[four][..], Stop::Done(ints(&[5]))),
        (&kept[..], &[][..], Stop::Choice),
        (&kept[..], &[Step::Left][..], Stop::Dead),
        (&kept[..], &[Step::Right][..], Stop::Send(0, ints(&[1]))),
        (&kept[..], &[Step::Right, Step::Sent][..], Stop::Recv(1)),
        (
            &kept[..],
            &[Step::Right, Step::Sent, four][..],
            Stop::Done(ints(&[4])),
        ),
    ] {
        assert_eq!(rt; stop_after(rt.alloc(), nodes, steps)?, want);
    }
    Ok(())
}

#[test]
fn traps_are_thrown(rt: HostRuntime) -> Result<(), Fail> {
    let range = Stop::Raised(ints(&[-1]));
    let kind = Stop::Raised(ints(&[-2]));
    let greatest = Calc::Op(Arith::Add, Prim::Int(i64::MAX), Prim::Int(0));
    // try { always (greatest + 1) } catch _0 { always (_0.0, greatest + 0) }
    let caught = [
        Node::Always(past_greatest()),
        Node::Always(tuple(&[Calc::One(first(0)), greatest])),
        Node::Catch(0, 1),
    ];
    for (nodes, want) in [
        (&caught[..], Stop::Done(ints(&[-1, i64::MAX]))),
        (&[Node::Always(past_greatest())][..], range),
        (&[Node::Throw(past_greatest())][..], range),
        (&[Node::Send(Prim::Chan(0), past_greatest())][..], range),
        (&[Node::Send(Prim::Int(5), past_greatest())][..], kind),
        (&[Node::Recv(Prim::Int(5))][..], kind),
        (&[Node::Always(whole(0))][..], kind),
        (
            &[Node::Always(Expr::Whole(Var::Reg(0)))][..],
            Stop::Done(ints(&[2])),
        ),
    ] {
        assert_eq!(rt; stop_after(rt.alloc(), nodes, &[])?, want);
    }
    Ok(())
}

#[test]
fn a_channel_is_passed_on(rt: HostRuntime) -> Result<(), Fail> {
    let second = value(&[Atom::Chan(1)]);
    // do { _0 <- send 0 (channel 1); recv 1 }
    let sender = [
        Node::Send(Prim::Chan(0), tuple(&[Calc::One(Prim::Chan(1))])),
        Node::Recv(Prim::Chan(1)),
        Node::Then(0, 1),
    ];
    // do { _0 <- recv 0; send _0.0 (8) }
    let receiver = [
        Node::Recv(Prim::Chan(0)),
        Node::Send(first(0), number(8)),
        Node::Then(0, 1),
    ];
    let eight = Step::Received(ints(&[8]));
    let named = Step::Received(second);
    for (nodes, steps, want) in [
        (&sender[..], &[][..], Stop::Send(0, second)),
        (&sender[..], &[Step::Sent][..], Stop::Recv(1)),
        (
            &sender[..],
            &[Step::Sent, eight][..],
            Stop::Done(ints(&[8])),
        ),
        (&receiver[..], &[named][..], Stop::Send(1, ints(&[8]))),
        (
            &receiver[..],
            &[named, Step::Sent][..],
            Stop::Done(Value::unit()),
        ),
        (&receiver[..], &[eight][..], Stop::Raised(ints(&[-2]))),
    ] {
        assert_eq!(rt; stop_after(rt.alloc(), nodes, steps)?, want);
    }
    Ok(())
}

#[test]
fn a_guard_tests_what_came(rt: HostRuntime) -> Result<(), Fail> {
    // do { _0 <- recv 0; if 3 < _0.0 { always _0 } else { never } }
    let guarded = [
        Node::Recv(Prim::Chan(0)),
        Node::Always(whole(0)),
        Node::Never,
        Node::If(
            Cond {
                test: Test::Less,
                left: Prim::Int(3),
                right: first(0),
            },
            1,
            2,
        ),
        Node::Then(0, 3),
    ];
    for (came, want) in [
        (ints(&[5]), Stop::Done(ints(&[5]))),
        (ints(&[3]), Stop::Dead),
        (value(&[Atom::Chan(4)]), Stop::Raised(ints(&[-2]))),
        (Value::unit(), Stop::Raised(ints(&[-2]))),
    ] {
        let steps = [Step::Received(came)];
        assert_eq!(rt; stop_after(rt.alloc(), &guarded, &steps)?, want);
    }
    Ok(())
}

#[test]
fn names_end_with_their_parts(rt: HostRuntime) -> Result<(), Fail> {
    // do { _0 <- recv 0; _1 <- do { _1 <- recv 1; always (_0.0 + _1.0) }; always (_0.0 - _1.0) }
    let nested = [
        Node::Recv(Prim::Chan(1)),
        Node::Always(sum(first(0), first(1))),
        Node::Then(0, 1),
        Node::Always(difference(first(0), first(1))),
        Node::Then(2, 3),
        Node::Recv(Prim::Chan(0)),
        Node::Then(5, 4),
    ];
    // do { _0 <- do { _0 <- recv 0; _1 <- recv 1; always _1 }; always (_1.0 + 0) }
    let ended = [
        Node::Recv(Prim::Chan(0)),
        Node::Recv(Prim::Chan(1)),
        Node::Always(whole(1)),
        Node::Then(1, 2),
        Node::Then(0, 3),
        Node::Always(sum(first(1), Prim::Int(0))),
        Node::Then(4, 5),
    ];
    let ten = Step::Received(ints(&[10]));
    let three = Step::Received(ints(&[3]));
    for (nodes, want) in [
        (&nested[..], Stop::Done(ints(&[-3]))),
        (&ended[..], Stop::Raised(ints(&[-2]))),
    ] {
        assert_eq!(rt; stop_after(rt.alloc(), nodes, &[ten, three])?, want);
    }
    Ok(())
}

#[test]
fn catches_stand_in_catches(rt: HostRuntime) -> Result<(), Fail> {
    // try { try { if (channel 0) < 1 { never } else { always (1) } } catch _0 { throw (_0.0 - 1) } }
    // catch _0 { always _0 }
    let traps = Node::If(
        Cond {
            test: Test::Less,
            left: Prim::Chan(0),
            right: Prim::Int(1),
        },
        0,
        1,
    );
    let nested = [
        Node::Never,
        Node::Always(number(1)),
        traps,
        Node::Throw(difference(first(0), Prim::Int(1))),
        Node::Catch(2, 3),
        Node::Always(whole(0)),
        Node::Catch(4, 5),
    ];
    assert_eq!(rt;
        stop_after(rt.alloc(), &nested, &[])?,
        Stop::Done(ints(&[-3]))
    );
    Ok(())
}

// Thirty-one times `then`, each in the first part of the next: recv 0, and then one more each time.
fn tall_to_the_left(alloc: Global) -> Result<Vec<Node>, Fail> {
    let mut nodes = Vec::new(alloc);
    nodes.push(Node::Recv(Prim::Chan(0)))?;
    for i in 0..31 {
        nodes.push(Node::Always(one_more(0)))?;
        nodes.push(Node::Then(2 * i, 2 * i + 1))?;
    }
    Ok(nodes)
}

// do { _0 <- recv 0; .. _30 <- recv 0; always (_0.0 + _30.0) }
fn tall_to_the_right(alloc: Global) -> Result<Vec<Node>, Fail> {
    let mut nodes = Vec::new(alloc);
    nodes.push(Node::Always(sum(first(0), first(30))))?;
    for i in 0..31 {
        nodes.push(Node::Recv(Prim::Chan(0)))?;
        nodes.push(Node::Then(2 * i + 1, 2 * i))?;
    }
    Ok(nodes)
}

// Where a path stands at its start, and at its end.
fn first_and_last(alloc: Global, nodes: &[Node]) -> Result<(Stop, Stop), Fail> {
    let first = stop_after(alloc, nodes, &[])?;
    let last = stop_after(alloc, nodes, &[Step::Received(ints(&[100]))])?;
    Ok((first, last))
}

fn stops_to_the_left(alloc: Global) -> Result<(Stop, Stop), Fail> {
    let nodes = tall_to_the_left(alloc)?;
    first_and_last(alloc, &nodes)
}

fn receive_thirty(path: &mut PathState) -> Result<(), Fail> {
    for i in 0..30 {
        make(path, Step::Received(ints(&[i])))?;
    }
    Ok(())
}

fn end_apart(path: &mut PathState, copy: &mut PathState) -> Result<(Stop, Stop), Fail> {
    make(path, Step::Received(ints(&[7])))?;
    make(copy, Step::Received(ints(&[8])))?;
    Ok((path.stop(), copy.stop()))
}

// Where a path and its copy stand after different last steps.
fn last_of_both(path: &mut PathState) -> Result<(Stop, Stop), Fail> {
    receive_thirty(path)?;
    let mut copy = path.copy()?;
    end_apart(path, &mut copy)
}

fn stops_to_the_right(alloc: Global) -> Result<(Stop, Stop), Fail> {
    let nodes = tall_to_the_right(alloc)?;
    let mut path = start(alloc, &nodes)?;
    last_of_both(&mut path)
}

#[test]
fn the_tallest_events_are_walked(rt: HostRuntime) -> Result<(), Fail> {
    let (first, last) = stops_to_the_left(rt.alloc())?;
    assert_eq!(rt; first, Stop::Recv(0));
    assert_eq!(rt; last, Stop::Done(ints(&[131])));
    let (path, copy) = stops_to_the_right(rt.alloc())?;
    assert_eq!(rt; path, Stop::Done(ints(&[7])));
    assert_eq!(rt; copy, Stop::Done(ints(&[8])));
    Ok(())
}

// do { _0 <- fresh; _1 <- fresh; always (_0.0, _1.0) }
fn makes_two() -> [Node; 5] {
    [
        Node::Fresh,
        Node::Fresh,
        Node::Always(tuple(&[Calc::One(first(0)), Calc::One(first(1))])),
        Node::Then(1, 2),
        Node::Then(0, 3),
    ]
}

#[test]
fn fresh_channels_are_numbered_by_thread_ticket_and_count(rt: HostRuntime) -> Result<(), Fail> {
    let alloc = rt.alloc();
    let event = event_of(alloc, &makes_two())?;
    // 2^30 + (thread modulo 64, ticket modulo 2^18, the count in the lowest 4 bits)
    for (thread, ticket, channel) in [
        (0, 0, 1_073_741_824),
        (0, 1, 1_073_741_840),
        (1, 0, 1_077_936_128),
        (63, 262_143, 1_342_177_264),
        (65, 262_145, 1_077_936_144),
    ] {
        let path = PathState::start(alloc, &event, thread, ticket)?;
        let two = value(&[Atom::Chan(channel), Atom::Chan(channel + 1)]);
        assert_eq!(rt; path.stop(), Stop::Done(two));
    }
    Ok(())
}

#[test]
fn a_fresh_channel_is_sent_and_received_on(rt: HostRuntime) -> Result<(), Fail> {
    // do { _0 <- fresh; _1 <- send 0 _0; recv _0.0 }
    let asks = [
        Node::Fresh,
        Node::Send(Prim::Chan(0), whole(0)),
        Node::Recv(first(0)),
        Node::Then(1, 2),
        Node::Then(0, 3),
    ];
    let channel = 1_073_741_824 + (3 * 262_144 + 1) * 16;
    let made = value(&[Atom::Chan(channel)]);
    let five = Step::Received(ints(&[5]));
    for (steps, want) in [
        (&[][..], Stop::Send(0, made)),
        (&[Step::Sent][..], Stop::Recv(channel)),
        (&[Step::Sent, five][..], Stop::Done(ints(&[5]))),
    ] {
        assert_eq!(rt; stop_after(rt.alloc(), &asks, steps)?, want);
    }
    assert_eq!(rt;
        stop_after(rt.alloc(), &[Node::Fresh], &[])?,
        Stop::Done(made)
    );
    Ok(())
}

#[test]
fn a_part_not_taken_makes_no_channel(rt: HostRuntime) -> Result<(), Fail> {
    // choose { do { _0 <- fresh; never } | do { _0 <- fresh; always _0 } }
    let parts = [
        Node::Fresh,
        Node::Never,
        Node::Then(0, 1),
        Node::Fresh,
        Node::Always(whole(0)),
        Node::Then(3, 4),
        Node::Choose(2, 5),
    ];
    let made = value(&[Atom::Chan(1_073_741_824 + (3 * 262_144 + 1) * 16)]);
    for (steps, want) in [
        (&[][..], Stop::Choice),
        (&[Step::Left][..], Stop::Dead),
        (&[Step::Right][..], Stop::Done(made)),
    ] {
        assert_eq!(rt; stop_after(rt.alloc(), &parts, steps)?, want);
    }
    Ok(())
}
