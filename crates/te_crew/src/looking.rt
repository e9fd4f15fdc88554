// The looks at the paths of a batch, shared among workers.

ghost use Rattle.std.specs.Prelude.{◌≡◌, ◌<◌, ◌≤◌, ℕ, length, slice_get, All, IfOk, IfSome, Some, None};
ghost use Rattle.te_search.specs.Batches.{IsLook};
ghost use Rattle.te_crew.specs.Shares.{HasBatch, AreLooks, IsCrew};

use std::alloc::Global;
use std::thread;
use std::thread::Threads;
use te_search::{Look, Search};
use te_terms::NoMemory;

// So many comparisons of kept ends are left to one worker.
const FEW: u64 = 16_384;

// Whether the looks at the paths of a batch compare more than a few kept ends.
fn compares_many(search: &Search, batch: &[u32]) -> bool
    requires batch { HasBatch search.now batch.now }
{
    let mut compared = 0u64;
    'paths: for i in 0..batch.len() {
        compared = compared.saturating_add(search.ends_compared(batch[i]) as u64);
        if compared > FEW {
            return true;
        }
    }
    false
}

/// How many workers look at the paths of a batch: one alone, where few kept ends are compared. A path is compared with no
/// more ends than there are paths up to the last of its batch. It is public for the crates above alone.
pub fn crew_for(search: &Search, batch: &[u32], workers: u32) -> usize
    requires batch { HasBatch search.now batch.now }
    requires workers { IsCrew workers }
    ensures some { 0 < result }
    ensures most { result ≤ workers }
{
    let Some(last) = batch.last() else {
        return 1;
    };
    let most = (batch.len() as u64).saturating_mul(u64::from(*last) + 1);
    if workers > 1 && most > FEW && compares_many(search, batch) {
        workers as usize
    } else {
        1
    }
}

/// No look yet, for each of so many paths. It is public for the crates above alone.
pub fn no_looks(alloc: Global, count: usize) -> Result<Vec<Option<Look>>, NoMemory>
    ensures count { IfOk result (λ looks. length looks.items ≡ count) }
    ensures none { IfOk result (λ looks. All (λ look. look ≡ None) looks.items) }
{
    let mut looks = Vec::new(alloc);
    while looks.len() < count {
        looks.push(None)?;
    }
    Ok(looks)
}

/// The look at the path at a place of the batch, where there is memory for it. It is public for the crates above alone.
pub fn look_at(search: &Search, batch: &[u32], i: usize) -> Option<Look>
    requires batch { HasBatch search.now batch.now }
    requires place { i < length batch.now }
    ensures { IfSome result (λ look. (p : ℕ) → slice_get batch.now i ≡ Some p → IsLook search.now p look) }
{
    match search.look(batch[i]) {
        Ok(look) => Some(look),
        Err(_) => None,
    }
}

/// The looks at the paths of the batch, in order, by so many workers: each takes a piece of the batch, and none waits for
/// another. Where no thread can be made, they work one after another. It is public for the crates above alone.
pub fn looks_of<R: Threads + Sync>(
    rt: &R,
    alloc: Global,
    search: &Search,
    batch: &[u32],
    workers: u32,
) -> Result<Vec<Option<Look>>, NoMemory>
    requires batch { HasBatch search.now batch.now }
    requires workers { IsCrew workers }
    ensures count { IfOk result (λ looks. length looks.items ≡ length batch.now) }
    ensures looks { IfOk result (λ looks. AreLooks search.now batch.now looks.items) }
{
    let mut looks = no_looks(alloc, batch.len())?;
    thread::for_each_mut(
        rt,
        &mut looks,
        crew_for(search, batch, workers),
        &|i: usize, look: &mut Option<Look>|
            requires { (i < length batch.now) × HasBatch search.now batch.now }
            ensures { IfSome look.exit.now (λ found. (p : ℕ) → slice_get batch.entry.now i ≡ Some p → IsLook search.entry.now p found) }
        { *look = look_at(search, batch, i) },
    );
    Ok(looks)
}
