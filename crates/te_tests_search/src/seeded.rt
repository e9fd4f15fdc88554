// Lists that change by posts, withdrawals and commits: a search that is kept answers as one from nothing does.

ghost use Rattle.std.specs.Prelude.{◌<◌};

use crate::events::{Step, event_of, push_before, push_step};
use std::alloc::Global;
use std::test::Fail;
use te_cert::{Cert, check};
use te_search::{Found, KeptFound, KeptSearch, find};
use te_terms::{Event, EventCode, Node, Outcome, Parked, Rows};

// Numbers that look random, by xorshift (Marsaglia, Xorshift RNGs, Journal of Statistical Software 8(14), 2003).
#[derive(Drop)]
struct Numbers {
    state: u64,
}

impl Numbers {
    // The next number, below `most`.
    fn below(&mut self, most: u64) -> u64
        requires { 0 < most }
        ensures { result < most }
    {
        let mut next = self.state;
        next ^= next << 13;
        next ^= next >> 7;
        next ^= next << 17;
        self.state = next;
        (next >> 11) % most
    }
}

// Some sends and receives on two channels, one after the other.
fn push_steps(code: &mut EventCode, numbers: &mut Numbers, count: u64) -> Result<u32, Fail> {
    let mut root = None;
    for _ in 0..count {
        let channel = numbers.below(2) as u32;
        let step = match numbers.below(2) {
            0 => Step::Send(channel),
            _ => Step::Recv(channel),
        };
        let first = push_step(code, step)?;
        root = Some(push_before(code, first, root)?);
    }
    Ok(root.ok_or("a step")?)
}

// One to three steps, and in one of three events one or two others that can be chosen instead.
fn any_event(alloc: Global, numbers: &mut Numbers) -> Result<Event, Fail> {
    let mut code = EventCode::new(alloc);
    let count = 1 + numbers.below(3);
    let mut root = push_steps(&mut code, numbers, count)?;
    if numbers.below(3) == 0 {
        let count = 1 + numbers.below(2);
        let other = push_steps(&mut code, numbers, count)?;
        root = code.push(Node::Choose(root, other)).ok().ok_or("a node")?;
    }
    event_of(alloc, code, root)
}

// Posts an event for a thread that has none, or takes one out.
fn change(
    alloc: Global,
    kept: &mut KeptSearch,
    numbers: &mut Numbers,
    ticket: u32,
) -> Result<(), Fail> {
    let thread = numbers.below(5) as u32;
    if !kept.has_thread(thread) {
        let event = any_event(alloc, numbers)?;
        kept.post(thread, ticket, &event)?;
    } else if numbers.below(2) == 0 {
        kept.remove(thread);
    }
    Ok(())
}

// The events of the members, in their order.
fn events_of(alloc: Global, parked: &[Parked], cert: &Cert) -> Result<Rows<Event>, Fail> {
    let mut events = Rows::new(alloc);
    for member in cert.members.as_slice() {
        for one in parked {
            if one.thread == member.thread && one.ticket == member.ticket {
                events.push(one.event.copy()?)?;
            }
        }
    }
    Ok(events)
}

// What the members come to, by a check of the certificate on their events.
fn played(alloc: Global, parked: &[Parked], cert: &Cert) -> Result<Rows<Outcome>, Fail> {
    let events = events_of(alloc, parked, cert)?;
    if cert.members.len() != events.len() {
        Err("an event for each member")?;
    }
    match check(alloc, cert, events.as_slice()) {
        Ok(outcomes) => Ok(outcomes),
        Err(_) => Err("a certificate that plays")?,
    }
}

// Takes the members of a group out.
fn commit(kept: &mut KeptSearch, cert: &Cert) -> Result<(), Fail> {
    for member in cert.members.as_slice() {
        if !kept.has_thread(member.thread) {
            Err("a member that is parked")?;
        }
        kept.remove(member.thread);
    }
    Ok(())
}

// Whether a search from nothing finds a group, which plays.
fn found_anew(alloc: Global, kept: &KeptSearch) -> Result<bool, Fail> {
    let parked = kept.listed(alloc)?;
    match find(alloc, &parked, 100_000) {
        Ok(Found::Group(cert)) => {
            played(alloc, &parked, &cert)?;
            Ok(true)
        }
        Ok(Found::Blocked) => Ok(false),
        Err(_) => Err("an answer within the budget")?,
    }
}

// Whether the search finds a group, which plays as it says and then commits.
fn commits(alloc: Global, kept: &mut KeptSearch) -> Result<bool, Fail> {
    let parked = kept.listed(alloc)?;
    match kept.find(alloc, 100_000) {
        Ok(KeptFound::Group(cert, outcomes)) => {
            if played(alloc, &parked, &cert)?.as_slice() != outcomes.as_slice() {
                Err("the outcomes of the play")?;
            }
            commit(kept, &cert)?;
            Ok(true)
        }
        Ok(KeptFound::Blocked) => Ok(false),
        Err(_) => Err("an answer within the budget")?,
    }
}

// How many of 20 lists had a group, each made of the one before by a change and a commit.
fn groups_of_a_run(alloc: Global, numbers: &mut Numbers) -> Result<usize, Fail> {
    let mut kept = KeptSearch::new(alloc);
    let mut groups = 0usize;
    for ticket in 0..20 {
        change(alloc, &mut kept, numbers, ticket)?;
        let anew = found_anew(alloc, &kept)?;
        if commits(alloc, &mut kept)? != anew {
            Err("the same answer")?;
        }
        if anew {
            groups = groups.saturating_add(1);
        }
    }
    Ok(groups)
}

#[test]
fn a_kept_search_answers_as_one_from_nothing(rt: HostRuntime) -> Result<(), Fail> {
    let mut numbers = Numbers {
        state: 0x9e37_79b9_7f4a_7c15,
    };
    let mut groups = 0usize;
    for _ in 0..100 {
        groups = groups.saturating_add(groups_of_a_run(rt.alloc(), &mut numbers)?);
    }
    assert!(rt; groups > 100);
    assert!(rt; groups < 1800);
    Ok(())
}
