// The looks at the paths of a batch, by an owner and thieves.

ghost use Rattle.std.specs.Prelude.{◌≡◌, ◌<◌, ◌≤◌, ℕ, [], true, List, length, All, IfOk, None, get_or};
ghost use Rattle.te_crew.specs.Shares.{HasBatch, AreLooks};
ghost use Rattle.te_steal.specs.Relays.{OwnerOf, IsThiefOf, IsSameOwner, IsSameThief, occurrences};
ghost use Rattle.te_steal.specs.Stolen.{IsFullBatch, IsGang, IsLookedAt, IsRobber, IsBoss};
ghost use Rattle.te_steal.specs.declared.robbing.Robber.{Robber};

use crate::gathering::gathered;
use crate::robbing::{Boss, Robber, lead, rob_all};
use crate::sharing::{Owner, Thief, relay};
use std::alloc::Global;
use std::thread::{Threads, join};
use te_crew::no_looks;
use te_search::{Look, Search};
use te_terms::{NoMemory, Rows};

// An owner that has pushed each place of a batch of so many paths, and its thieves.
fn opened(alloc: Global, count: u32, thieves: u32) -> Result<(Owner, Rows<Thief>), NoMemory>
    requires some { 1 ≤ count }
    requires few { count ≤ 64 }
    requires thieves { IsGang thieves }
    ensures pushed { IfOk result (λ r. (k : ℕ) → k < count → 0 < occurrences k r.0.pushed) }
    ensures took { IfOk result (λ r. r.0.took ≡ []) }
    ensures count { IfOk result (λ r. (r.0.thieves ≡ thieves) × (length r.1 ≡ thieves)) }
    ensures thieves { IfOk result (λ r. All (λ t. IsThiefOf r.0 t × (t.took ≡ [])) r.1) }
{
    let (mut owner, gang) = relay(alloc, count, thieves)?;
    'places: for place in 0..count {
        owner.push(place);
    }
    Ok((owner, gang))
}

// The thieves, each with no look yet.
fn robbers_of(alloc: Global, thieves: Rows<Thief>, count: usize) -> Result<Vec<Robber>, NoMemory>
    requires { All (λ t. t.took ≡ []) thieves }
    ensures count { IfOk result (λ robbers. length robbers.items ≡ length thieves) }
    ensures of_relay { (owner : OwnerOf) → All (IsThiefOf owner) thieves → IfOk result (λ robbers. All (λ r. IsThiefOf owner r.thief) robbers.items) }
    ensures ready { IfOk result (λ robbers. All (λ r. (length r.looks.items ≡ count) × All (λ look. look ≡ None) r.looks.items × (r.thief.took ≡ []) × (r.whole ≡ true)) robbers.items) }
{
    let mut rest = thieves.into_vec();
    let mut robbers = Vec::new(alloc);
    'thieves: while let Some(thief) = rest.pop() {
        let looks = no_looks(alloc, count)?;
        robbers.push(Robber {
            thief,
            looks,
            whole: true,
        })?;
    }
    Ok(robbers)
}

// The looks at the paths of the batch, by an owner and so many thieves: each takes places from one deque and looks at their
// paths, and the owner looks at what is left. Where no thread can be made, the owner does all, and the thieves find nothing.
pub(crate) fn stolen_looks<R: Threads + Sync>(
    rt: &R,
    alloc: Global,
    search: &Search,
    batch: &[u32],
    thieves: u32,
) -> Result<Vec<Option<Look>>, NoMemory>
    requires batch { IsFullBatch search.now batch.now }
    requires thieves { IsGang thieves }
    ensures count { IfOk result (λ looks. length looks.items ≡ length batch.now) }
    ensures looks { IfOk result (λ looks. AreLooks search.now batch.now looks.items) }
    ensures whole { IfOk result (λ looks. IsLookedAt batch.now looks.items) }
{
    let (owner, gang) = opened(alloc, batch.len() as u32, thieves)?;
    let robbers = robbers_of(alloc, gang, batch.len())?;
    let looks = no_looks(alloc, batch.len())?;
    let boss = Boss {
        owner,
        looks,
        whole: true,
    };
    let (robbers, boss) = join(
        rt,
        move || -> Vec<Robber>
            requires batch { HasBatch search.now batch.now }
            requires some { 1 ≤ length robbers.items }
            requires looks { All (IsRobber search.now batch.now) robbers.items }
            ensures count { length result.items ≡ length robbers.items }
            ensures same { (k : ℕ) (d : Robber) → k < length robbers.items → IsSameThief (get_or robbers.items k d).thief (get_or result.items k d).thief }
            ensures looks { All (IsRobber search.entry.now batch.entry.now) result.items }
        { rob_all(rt, search, batch, robbers) },
        move || -> Boss
            requires batch { HasBatch search.now batch.now }
            requires looks { IsBoss search.now batch.now boss }
            ensures same { IsSameOwner boss.owner result.owner }
            ensures pushed { result.owner.pushed ≡ boss.owner.pushed }
            ensures looks { IsBoss search.entry.now batch.entry.now result }
        { lead(search, batch, boss) },
    );
    gathered(alloc, search, batch, boss, robbers)
}
