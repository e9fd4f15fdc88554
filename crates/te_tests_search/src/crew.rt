ghost use Rattle.te_terms.specs.Joint.{IsGroup, as_group};
ghost use Rattle.te_search.specs.Findings.{IsBudget};
ghost use Rattle.te_crew.specs.Shares.{IsCrew};

use crate::events::{Step, parked, ring};
use std::alloc::Global;
use std::test::Fail;
use std::thread::Threads;
use te_crew::*;
use te_search::{Found, SearchFault};
use te_terms::Parked;

// How many members and meetings the group has that is found, 0 and 0 where there is none; or what was used.
fn found_by<R: Threads + Sync>(
    rt: &R,
    alloc: Global,
    parked: &[Parked],
    budget: u64,
    workers: u32,
) -> Result<(usize, usize), SearchFault>
    requires rising { IsGroup (as_group parked.now) }
    requires budget { IsBudget budget }
    requires workers { IsCrew workers }
{
    match find_with(rt, alloc, parked, budget, workers) {
        Ok(Found::Group(cert)) => Ok((cert.members.len(), cert.meets.len())),
        Ok(Found::Blocked) => Ok((0, 0)),
        Err(fault) => Err(fault),
    }
}

#[test]
fn a_ring_is_found_whole_or_spends_the_budget(rt: HostRuntime) -> Result<(), Fail> {
    let ring = ring(rt.alloc())?;
    let spent = SearchFault::Spent {
        paths: 1,
        groups: 0,
    };
    for workers in [1, 4, 16] {
        let whole = found_by(&rt, rt.alloc(), &ring, 100_000, workers);
        assert_eq!(rt; whole, Ok((3, 3)), "{workers}");
        let first = found_by(&rt, rt.alloc(), &ring, 1, workers);
        assert_eq!(rt; first, Err(spent), "{workers}");
    }
    Ok(())
}

// What the first two could meet rests on both branches of the third.
#[test]
fn no_branch_joins_what_rests_on_the_other(rt: HostRuntime) -> Result<(), Fail> {
    let first = [Step::Recv(0), Step::Send(2)];
    let second = [Step::Recv(1), Step::Recv(2)];
    let apart = parked(rt.alloc(), &[&first, &second, &[Step::Either(0, 1)]])?;
    for workers in [1, 4, 16] {
        let found = found_by(&rt, rt.alloc(), &apart, 100_000, workers);
        assert_eq!(rt; found, Ok((0, 0)), "{workers}");
    }
    Ok(())
}

// Each of 32 paths of the first meets each of 32 of the second, and then the first can't end; the third has no partner.
#[test]
fn many_meetings_are_looked_at_by_workers(rt: HostRuntime) -> Result<(), Fail> {
    let fork = Step::Fork;
    let first = [fork, fork, fork, fork, fork, Step::Send(0), Step::Never];
    let second = [fork, fork, fork, fork, fork, Step::Recv(0)];
    let many = parked(rt.alloc(), &[&first, &second, &[Step::Recv(1)]])?;
    for workers in [1, 2, 16] {
        let found = found_by(&rt, rt.alloc(), &many, 100_000, workers);
        assert_eq!(rt; found, Ok((0, 0)), "{workers}");
    }
    Ok(())
}
