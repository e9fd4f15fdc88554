// What is left of a relay.

ghost use Rattle.std.specs.Prelude.{◌≡◌, ◌≤◌, ℕ, ◌+◌, true, ◌++◌, length, map, All, IfOk};
ghost use Rattle.std.specs.List.{concat};
ghost use Rattle.crossbeam_deque.specs.Handles.{worker_deque, worker_view, worker_flavor, SameWorker};
ghost use Rattle.te_steal.specs.Relays.{occurrences, IsInOrderOf, IsThiefOf, took_by};
ghost use Rattle.te_steal.specs.Accounts.{taking, absorbing_all, AreAllTaken};

use crate::rule::{Account, Sharing, Thieves, Took};
use crate::sharing::{Owner, Thief};
use crossbeam_deque::Worker;
use std::alloc::Global;
use te_terms::{NoMemory, Rows};

// The worker takes what each thief took into its account.
fn absorb_all(worker: &mut Worker<u32, Global, Account, Sharing>, thieves: Vec<Thief>)
    requires deque { All (λ t. (t.relay ≡ (worker_deque worker.old).0) × (t.heap ≡ (worker_deque worker.old).1)) thieves.items }
    requires owns { (worker_view worker.old).owns ≡ true }
    ensures same { SameWorker worker.old worker.new }
    ensures absorbed { worker_view worker.new ≡ absorbing_all (worker_view worker.old) (map took_by thieves.items) }
{
    'thieves: for thief in thieves {
        let Thief {
            stealer: _stealer,
            pass,
            most: _,
        } = thief;
        worker.absorb::<Thieves>(pass);
    }
}

// Takes the numbers that are left, where no thief is.
fn drain(
    alloc: Global,
    mut worker: Worker<u32, Global, Account, Sharing>,
    most: u32,
) -> Result<Vec<u32>, NoMemory>
    requires fifo { worker_flavor worker ≡ 0 }
    requires owns { (worker_view worker).owns ≡ true }
    requires alone { (worker_view worker).thieves ≡ 0 }
    requires few { (length (worker_view worker).pushed ≤ most) × (most ≤ 64) }
    requires order { IsInOrderOf (worker_view worker).took (worker_view worker).pushed }
    ensures { IfOk result (λ left. AreAllTaken (taking (worker_view worker) left.items)) }
{
    let mut left = Vec::new(alloc);
    'numbers: for _ in 0..most + 1 {
        match worker.pop_as::<Took>() {
            Some(n) => left.push(n)?,
            None => return Ok(left),
        }
    }
    unreachable!()
}

/// Ends a relay: the numbers that are left, in the order of pushing.
///
/// Each number was pushed as often as it occurs in what the owner took, what the thieves took and what is left, together.
/// What each took stands in the order of pushing.
///
/// Condition: these are the owner and all thieves of one relay. The one refusal is want of memory.
pub fn close(alloc: Global, owner: Owner, thieves: Rows<Thief>) -> Result<Rows<u32>, NoMemory>
    requires one { All (IsThiefOf owner) thieves }
    requires all { owner.thieves ≡ length thieves }
    ensures counts { IfOk result (λ left. (n : ℕ) → occurrences n owner.pushed ≡ occurrences n owner.took + occurrences n (concat (map took_by thieves)) + occurrences n left) }
    ensures owner { IfOk result (λ _. IsInOrderOf owner.took owner.pushed) }
    ensures thieves { IfOk result (λ _. All (λ t. IsInOrderOf t.took owner.pushed) thieves) }
    ensures left { IfOk result (λ left. IsInOrderOf left owner.pushed) }
{
    let Owner {
        mut worker,
        most,
        pushed: _,
    } = owner;
    absorb_all(&mut worker, thieves.into_vec());
    let left = drain(alloc, worker, most)?;
    Ok(Rows::from(left))
}
