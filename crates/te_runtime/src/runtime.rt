ghost use Rattle.std.specs.Prelude.{◌≡◌, ◌≤◌, ◌<◌, ℕ, All, Contains, IfOk, [], false, length, map};
ghost use mathlib.Core.List.{IsPrefix};
ghost use Rattle.te_terms.specs.Limits.{most_threads};
ghost use Rattle.te_lock.specs.Entries.{entries_by};
ghost use Rattle.te_lock.specs.Lock.{new_passes};
ghost use Rattle.te_history.specs.Follows.{caller_of};
ghost use Rattle.te_board.specs.Boards.{IsLawful};

use crate::waking::parkers_for;
use std::alloc::Global;
use std::marker::Model;
use std::thread::Parker;
use te_board::Board;
use te_lock::{Pass, Turn};
use te_terms::NoMemory;

/// A board that callers in threads of their own share: each has a pass, and takes the turn for its entries. Contracts see
/// it as its lock. This project's own.
#[derive(Drop)]
pub struct TeRuntime {
    pub(crate) lock: Turn<Board>,
    pub(crate) workers: u32,
    pub(crate) parkers: Vec<Parker>,
}

impl Model for TeRuntime {
    ghost use Rattle.std.specs.Prelude.{◌≡◌, ◌≤◌, length};
    ghost use Rattle.te_lock.specs.Lock.{Lock};

    ghost Value = { Lock };

    ghost view = { λ r. r.lock };

    ghost invariant = { λ r. (1 ≤ r.workers) × (r.workers ≤ 16) × (length r.parkers.items ≡ r.lock.callers) };
}

impl TeRuntime {
    /// A runtime with a new board, and one pass for each of its callers, in order of the caller numbers from 0. There is
    /// no other pass, and nobody has the turn. Conditions: 1 to 64 callers, and 1 to 16 workers for each search. The one
    /// refusal is want of memory.
    pub fn new(
        alloc: Global,
        callers: u32,
        workers: u32,
    ) -> Result<(TeRuntime, Vec<Pass<Board>>), NoMemory>
        requires callers { (1 ≤ callers) × (callers ≤ most_threads) }
        requires workers { (1 ≤ workers) × (workers ≤ 16) }
        ensures callers { IfOk result (λ made. made.0.callers ≡ callers) }
        ensures passes { IfOk result (λ made. made.1.items ≡ new_passes made.0 callers) }
    {
        let parkers = parkers_for(alloc, callers)?;
        let board = Board::new(alloc, callers)?;
        let (lock, passes) = Turn::new(alloc, board, callers)?;
        Ok((
            TeRuntime {
                lock,
                workers,
                parkers,
            },
            passes,
        ))
    }

    /// Ends the runtime, with all its passes, of which none has the turn, and gives its board.
    pub fn close(self, passes: Vec<Pass<Board>>) -> Board
        requires here { All (λ p. p.lock ≡ self) passes.items }
        requires idle { All (λ p. p.has_turn ≡ false) passes.items }
        requires everyone { (k : ℕ) → k < self.callers → Contains (map (λ p. p.caller) passes.items) k }
        ensures number { result.callers ≡ self.callers }
        ensures law { IsLawful self.callers result.entries }
        ensures unmade { (k : ℕ) → self.callers ≤ k → entries_by caller_of k result.entries ≡ [] }

        // all that the passes knew is so of the history
        ensures begins { All (λ p. IsPrefix p.read result.entries) passes.items }
        ensures begins_known { All (λ p. All (λ list. IsPrefix list result.entries) p.known) passes.items }
        ensures reaches { All (λ p. p.front ≤ length result.entries) passes.items }
        ensures own { All (λ p. entries_by caller_of p.caller result.entries ≡ p.own) passes.items }
    {
        let TeRuntime {
            lock,
            workers: _,
            parkers: _,
        } = self;
        lock.close(passes)
    }
}
