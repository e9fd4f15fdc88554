// Searches whose looks are stolen.

ghost use Rattle.te_terms.specs.Joint.{IsGroup, as_group};
ghost use Rattle.te_search.specs.Findings.{IsBudget};
ghost use Rattle.te_steal.specs.Stolen.{IsGang};

use crate::events::{apart, crowd, ring};
use std::alloc::Global;
use std::test::Fail;
use std::thread::Threads;
use te_search::{Found, SearchFault};
use te_steal::find_steal;
use te_terms::Parked;

// How many members and meetings the group has that is found, 0 and 0 where there is none; or what was used.
fn found_by<R: Threads + Sync>(
    rt: &R,
    alloc: Global,
    parked: &[Parked],
    budget: u64,
    thieves: u32,
) -> Result<(usize, usize), SearchFault>
    requires rising { IsGroup (as_group parked.now) }
    requires budget { IsBudget budget }
    requires thieves { IsGang thieves }
{
    match find_steal(rt, alloc, parked, budget, thieves) {
        Ok(Found::Group(cert)) => Ok((cert.members.len(), cert.meets.len())),
        Ok(Found::Blocked) => Ok((0, 0)),
        Err(fault) => Err(fault),
    }
}

#[test]
fn a_ring_is_found_whole_or_spends_the_budget(rt: HostRuntime) -> Result<(), Fail> {
    let ring = ring(rt.alloc())?;
    let spent = SearchFault::Spent {
        paths: 1,
        groups: 0,
    };
    for thieves in [1, 7] {
        let whole = found_by(&rt, rt.alloc(), &ring, 100_000, thieves);
        assert_eq!(rt; whole, Ok((3, 3)), "{thieves}");
        let first = found_by(&rt, rt.alloc(), &ring, 1, thieves);
        assert_eq!(rt; first, Err(spent), "{thieves}");
    }
    Ok(())
}

// The looks at the crowd compare so many ends that thieves take part.
#[test]
fn what_cannot_commit_is_blocked(rt: HostRuntime) -> Result<(), Fail> {
    let apart = apart(rt.alloc())?;
    let crowd = crowd(rt.alloc())?;
    for thieves in [1, 7] {
        let found = found_by(&rt, rt.alloc(), &apart, 100_000, thieves);
        assert_eq!(rt; found, Ok((0, 0)), "{thieves}");
        let found = found_by(&rt, rt.alloc(), &crowd, 100_000, thieves);
        assert_eq!(rt; found, Ok((0, 0)), "{thieves}");
    }
    Ok(())
}
