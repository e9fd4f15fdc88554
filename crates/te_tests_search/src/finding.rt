// What is found in lists, whole and while they change.

ghost use Rattle.te_terms.specs.Joint.{IsGroup, as_group};
ghost use Rattle.te_search.specs.Findings.{IsBudget};

use crate::events::{Step, kept, parked, post, ring};
use std::alloc::Global;
use std::test::Fail;
use te_search::{Found, KeptFound, KeptSearch, SearchFault, enough, find};
use te_terms::Parked;

// How many members and meetings the group has that is found, 0 and 0 where there is none; or what was used.
fn found_in(alloc: Global, parked: &[Parked], budget: u64) -> Result<(usize, usize), SearchFault>
    requires rising { IsGroup (as_group parked.now) }
    requires budget { IsBudget budget }
{
    match find(alloc, parked, budget) {
        Ok(Found::Group(cert)) => Ok((cert.members.len(), cert.meets.len())),
        Ok(Found::Blocked) => Ok((0, 0)),
        Err(fault) => Err(fault),
    }
}

// The same of these events, of threads from 0 on.
fn found(alloc: Global, events: &[&[Step]]) -> Result<(usize, usize), Fail> {
    let parked = parked(alloc, events)?;
    match found_in(alloc, &parked, 1000) {
        Ok(shape) => Ok(shape),
        Err(_) => Err("an answer within the budget")?,
    }
}

// The same of a search that is kept.
fn found_kept(alloc: Global, kept: &mut KeptSearch) -> Result<(usize, usize), Fail> {
    match kept.find(alloc, 1000) {
        Ok(KeptFound::Group(cert, _)) => Ok((cert.members.len(), cert.meets.len())),
        Ok(KeptFound::Blocked) => Ok((0, 0)),
        Err(_) => Err("an answer within the budget")?,
    }
}

// Posts an event of one step for a thread, or takes out that which it has.
fn change(
    alloc: Global,
    kept: &mut KeptSearch,
    thread: u32,
    step: Option<Step>,
) -> Result<(), Fail> {
    match step {
        Some(step) => post(alloc, kept, thread, &[step]),
        None => {
            if !kept.has_thread(thread) {
                Err("a thread with an event")?;
            }
            kept.remove(thread);
            Ok(())
        }
    }
}

// Whether this is found twice after each of these changes.
fn is_found_after(
    alloc: Global,
    kept: &mut KeptSearch,
    changes: &[(u32, Option<Step>, (usize, usize))],
) -> Result<bool, Fail> {
    for (thread, step, wanted) in changes {
        change(alloc, kept, *thread, *step)?;
        if found_kept(alloc, kept)? != *wanted || found_kept(alloc, kept)? != *wanted {
            return Ok(false);
        }
    }
    Ok(true)
}

#[test]
fn groups_of_one_or_two_are_found(rt: HostRuntime) -> Result<(), Fail> {
    let lists: [(&[&[Step]], (usize, usize)); 5] = [
        (&[], (0, 0)),
        (&[&[Step::Send(0), Step::Recv(0)]], (0, 0)),
        (&[&[Step::Never], &[Step::Throw]], (1, 0)),
        (&[&[Step::Send(0)], &[Step::Send(0)]], (0, 0)),
        (&[&[Step::Send(0), Step::Throw], &[Step::Recv(0)]], (2, 1)),
    ];
    for (events, wanted) in lists {
        assert_eq!(rt; found(rt.alloc(), events)?, wanted);
    }
    Ok(())
}

#[test]
fn a_ring_is_found_whole_or_spends_the_budget(rt: HostRuntime) -> Result<(), Fail> {
    let spent = SearchFault::Spent {
        paths: 1,
        groups: 0,
    };
    let ring = ring(rt.alloc())?;
    assert_eq!(rt; found_in(rt.alloc(), &ring, 100_000), Ok((3, 3)));
    assert_eq!(rt; found_in(rt.alloc(), &ring, 1), Err(spent));
    assert_eq!(rt; enough(&ring), Some(384));
    Ok(())
}

// The first two could meet only where the third has taken both branches.
#[test]
fn a_list_that_changes_is_searched_again(rt: HostRuntime) -> Result<(), Fail> {
    let first = [Step::Recv(0), Step::Send(2)];
    let second = [Step::Recv(1), Step::Recv(2)];
    let mut kept = kept(rt.alloc(), &[&first, &second, &[Step::Either(0, 1)]])?;
    let changes = [
        (3, Some(Step::Recv(5)), (0, 0)),
        (3, None, (0, 0)),
        (3, Some(Step::Recv(2)), (3, 2)),
        (1, None, (3, 2)),
        (2, None, (0, 0)),
        (1, Some(Step::Send(0)), (3, 2)),
    ];
    assert!(rt; is_found_after(rt.alloc(), &mut kept, &changes)?);
    Ok(())
}
