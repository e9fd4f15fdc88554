// The entries that a caller hasn't been told yet are copied for it.

ghost use Rattle.std.specs.Prelude.{◌≡◌, ◌≤◌, [], false, drop, length, IfOk, IfErr};
ghost use Rattle.te_lock.specs.Lock.{IsSamePass};
ghost use Rattle.te_runtime.specs.Calls.{Called, Refused};
ghost use Rattle.te_runtime.specs.Refusals.{RefusesNews};

use crate::fault::SyncFault;
use crate::runtime::TeRuntime;
use std::alloc::Global;
use te_board::Board;
use te_history::Entry;
use te_lock::Pass;
use te_terms::{NoMemory, Rows};

/// Copies of the entries from place `from` on, in order.
fn entries_from(alloc: Global, board: &Board, from: u64) -> Result<Rows<Entry>, NoMemory>
    requires { from ≤ length board.now.entries }
    ensures { IfOk result (λ rows. rows ≡ drop from board.now.entries) }
{
    let history = board.history();
    let mut copies = Vec::new(alloc);
    let mut place = from;
    while let Some(entry) = history.get(place) {
        copies.push(entry.copy(alloc)?)?;
        place += 1;
    }
    Ok(Rows::from(copies))
}

/// The same, as a turn tells it.
fn tell(alloc: Global, board: &Board, from: u64) -> Result<Rows<Entry>, SyncFault>
    requires { from ≤ length board.now.entries }
    ensures ok { IfOk result (λ rows. rows ≡ drop from board.now.entries) }
    ensures cause { IfErr result RefusesNews }
{
    match entries_from(alloc, board, from) {
        Ok(rows) => Ok(rows),
        Err(_) => Err(SyncFault::Memory),
    }
}

impl TeRuntime {
    /// Tries the turn once, and copies the entries of what the pass has then read from place `from` on, from 0. It waits for
    /// nobody. Conditions: the pass is of this runtime, and hasn't the turn; `from` is at most the length of what it had
    /// read.
    ///
    /// The refusals, in order: `Busy` where another caller has the turn; `Memory`. Nothing is ever appended.
    pub fn news(
        &self,
        alloc: Global,
        pass: &mut Pass<Board>,
        from: u64,
    ) -> Result<Rows<Entry>, SyncFault>
        requires here { pass.old.lock ≡ self.now }
        requires idle { pass.old.has_turn ≡ false }
        requires from { from ≤ length pass.old.read }
        ensures same { IsSamePass pass.old pass.new }
        ensures turn { pass.new.has_turn ≡ false }
        ensures own { pass.new.own ≡ pass.old.own }
        ensures ok { IfOk result (λ news. Called pass.old pass.new []) }
        ensures entries { IfOk result (λ news. news ≡ drop from pass.new.read) }
        ensures refused { IfErr result (Refused (λ _ _ fault. RefusesNews fault) pass.old pass.new) }
    {
        let board = self.enter(pass)?;
        let news = tell(alloc, &board, from);
        self.exit(pass, board);
        news
    }
}
