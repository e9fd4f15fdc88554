ghost use Rattle.std.specs.Prelude.{◌≡◌, ℕ, ◌+◌, ◌*◌, ◌/◌, ◌%◌, ◌^◌, ◌<◌, ◌≤◌, All, List, [], ◌∷◌, ◌++◌, length, is_ok, IfOk, IfErr, OnOk, OnErr, true, false};
ghost use mathlib.Core.List.{IsPrefix};
ghost use Rattle.te_lock.specs.Entries.{entries_by, GoesOnBy};
ghost use Rattle.te_lock.specs.Lock.{new_passes, IsSamePass, WaitsFor};
ghost use Rattle.te_lock.specs.Rule.{maker_of};

use crate::kept::Kept;
use crate::law::Law;
use crate::pass::{Busy, Pass};
use crate::steps::{Place, Shelf, ask, load, make, put_back, release, take_out};
use crate::view::View;
use atomic_table::Table;
use std::alloc::Global;
use std::marker::Model;
use std::sync::Wait;
use std::thread;
use te_terms::NoMemory;

/// The lock: one value, one turn, and one history of what was added to it. The notion is this
/// project's own.
///
/// Contracts see it as a `Lock`: which lock it is, and its number of callers.
#[derive(Drop)]
pub struct Turn<V: Kept> {
    pub(crate) table: Table<Option<V>, View<V::Entry>, u32, Law, Global>,
}

impl<V: Kept> Model for Turn<V> {
    ghost use Rattle.std.specs.Prelude.{◌≡◌, ◌<◌};
    ghost use Rattle.te_lock.specs.Lock.{Lock};

    ghost Value = { Lock };

    ghost view = { λ t. record { table = t.table.shared.table_id; callers = t.table.shared.key } };

    ghost invariant = { λ t. (t.table.shared.table_id.words ≡ 1) × (t.table.shared.table_id.slots ≡ 1) × (0 < t.table.shared.key) };
}

impl<V: Kept> Turn<V> {
    /// A lock on a value that stands for an empty list, and one pass for each of its `callers`, 1 to
    /// 256, in order of the caller numbers from 0. There is no other pass.
    ///
    /// For want of memory the value is dropped.
    pub fn new(alloc: Global, value: V, callers: u32) -> Result<(Turn<V>, Vec<Pass<V>>), NoMemory>
        requires callers { (1 ≤ callers) × (callers ≤ 256) }
        requires empty { V.entries value ≡ [] }
        requires number { V.members value ≡ callers }
        ensures callers { IfOk result (λ made. made.0.callers ≡ callers) }
        ensures passes { IfOk result (λ made. made.1.items ≡ new_passes made.0 callers) }
    {
        // This tells that the empty list meets the law.
        let _ = value.length();
        let mut slots = Vec::new(alloc);
        slots.push(Some(value))?;
        let Ok((table, maker)) = Table::new(alloc, &[0], slots, &callers) else {
            return Err(NoMemory);
        };
        let passes = make_passes(alloc, &table.shared, maker, callers)?;
        Ok((Turn { table }, passes))
    }

    /// Asks for the turn once, and waits for nobody.
    ///
    /// With Ok the pass has the turn, and the value's list is what the pass has now read. It is
    /// `Busy` exactly where the word that this call found was odd: another caller had the turn.
    pub fn try_turn(&self, pass: &mut Pass<V>) -> Result<V, Busy>
        requires here { pass.old.lock ≡ self.now }
        requires idle { pass.old.has_turn ≡ false }
        ensures same { IsSamePass pass.old pass.new }
        ensures turn { pass.new.has_turn ≡ is_ok result }

        // the value and its list
        ensures list { IfOk result (λ value. V.entries value ≡ pass.new.read) }
        ensures number { IfOk result (λ value. V.members value ≡ pass.new.lock.callers) }
        ensures law { V.lawful pass.new.lock.callers pass.new.read }

        // how the list goes on from what was known
        ensures begins { OnOk result (IsPrefix pass.old.read pass.new.read) }
        ensures begins_known { OnOk result (All (λ list. IsPrefix list pass.new.read) pass.old.known) }
        ensures reaches { OnOk result (pass.old.front ≤ length pass.new.read) }
        ensures front { OnOk result (pass.new.front ≡ length pass.new.read) }
        ensures own { OnOk result (entries_by V.author pass.new.caller pass.new.read ≡ pass.new.own) }
        ensures unmade { OnOk result ((k : ℕ) → pass.new.lock.callers ≤ k → entries_by V.author k pass.new.read ≡ []) }
        ensures kept { (pass.new.own ≡ pass.old.own) × (pass.new.known ≡ pass.old.known) }

        // what was looked at
        ensures found_free { OnOk result (pass.new.looks ≡ pass.old.looks ++ (2 * length pass.new.read) ∷ []) }
        ensures looks { OnOk result (All (λ word. word / 2 ≤ length pass.new.read) pass.new.looks) }
        ensures found_held { IfErr result (λ busy. (busy.word % 2 ≡ 1) × (pass.new.looks ≡ pass.old.looks ++ busy.word ∷ [])) }

        // what is left after Busy
        ensures busy_front { IfErr result (λ busy. (pass.new.front ≡ busy.word / 2) × (pass.old.front ≤ pass.new.front)) }
        ensures busy_read { OnErr result (pass.new.read ≡ pass.old.read) }
    {
        let word = ask(&self.table.shared, &mut pass.seat);
        if word % 2 == 1 {
            return Err(Busy { word });
        }
        Ok(take_out(&self.table.shared, &mut pass.seat))
    }

    /// Waits until no other caller has the turn, and takes it. What `try_turn` promises with Ok holds.
    pub fn turn<R: Wait>(&self, rt: &R, pass: &mut Pass<V>) -> V
        requires here { pass.old.lock ≡ self.now }
        requires idle { pass.old.has_turn ≡ false }
        ensures same { IsSamePass pass.old pass.new }
        ensures turn { pass.new.has_turn ≡ true }

        // the value and its list
        ensures list { V.entries result ≡ pass.new.read }
        ensures number { V.members result ≡ pass.new.lock.callers }
        ensures law { V.lawful pass.new.lock.callers pass.new.read }

        // how the list goes on from what was known
        ensures begins { IsPrefix pass.old.read pass.new.read }
        ensures begins_known { All (λ list. IsPrefix list pass.new.read) pass.old.known }
        ensures reaches { pass.old.front ≤ length pass.new.read }
        ensures front { pass.new.front ≡ length pass.new.read }
        ensures own { entries_by V.author pass.new.caller pass.new.read ≡ pass.new.own }
        ensures unmade { (k : ℕ) → pass.new.lock.callers ≤ k → entries_by V.author k pass.new.read ≡ [] }
        ensures kept { (pass.new.own ≡ pass.old.own) × (pass.new.known ≡ pass.old.known) }

        // what was looked at
        ensures found { WaitsFor (2 * length pass.new.read) pass.old.looks pass.new.looks }
        ensures looks { All (λ word. word / 2 ≤ length pass.new.read) pass.new.looks }
    {
        for _ in rt.forever() {
            match self.try_turn(pass) {
                Ok(value) => return value,
                Err(_) => thread::yield_now(),
            }
        }
        unreachable!()
    }

    /// Gives the turn back, with the value that the lock keeps from now on. What stands in its list
    /// beyond what the pass has read are new entries of this caller; they join what the pass has
    /// read and its own entries. The list has fewer than 2^62 entries. It waits for nobody.
    pub fn leave(&self, pass: &mut Pass<V>, value: V)
        requires here { pass.old.lock ≡ self.now }
        requires turn { pass.old.has_turn ≡ true }
        requires number { V.members value ≡ pass.old.lock.callers }
        requires goes_on { GoesOnBy V.author pass.old.caller pass.old.read (V.entries value) }
        requires room { length (V.entries value) < 2 ^ 62 }
        ensures same { IsSamePass pass.old pass.new }
        ensures turn { pass.new.has_turn ≡ false }
        ensures read { pass.new.read ≡ V.entries value }
        ensures own { (more : List V.Entry) → V.entries value ≡ pass.old.read ++ more → pass.new.own ≡ pass.old.own ++ more }
        ensures front { pass.new.front ≡ length pass.new.read }
        ensures looks { pass.new.looks ≡ pass.old.looks }
        ensures known { pass.new.known ≡ pass.old.known }
        ensures law { V.lawful pass.new.lock.callers pass.new.read }
    {
        let word = 2 * value.length();
        put_back(&self.table.shared, &mut pass.seat, value);
        release(&self.table.shared, &mut pass.seat, word);
    }

    /// Loads the word once, and answers the length of the history, of which the pass has then seen as
    /// much. It waits for nobody.
    pub fn front(&self, pass: &mut Pass<V>) -> u64
        requires here { pass.old.lock ≡ self.now }
        requires idle { pass.old.has_turn ≡ false }
        ensures same { IsSamePass pass.old pass.new }
        ensures turn { pass.new.has_turn ≡ false }
        ensures front { result ≡ pass.new.front }
        ensures looks { (word : ℕ) × (pass.new.looks ≡ pass.old.looks ++ word ∷ []) × (result ≡ word / 2) }
        ensures rises { pass.old.front ≤ result }
        ensures reaches { All (λ word. word / 2 ≤ result) pass.new.looks }
        ensures read { pass.new.read ≡ pass.old.read }
        ensures own { pass.new.own ≡ pass.old.own }
        ensures known { pass.new.known ≡ pass.old.known }
    {
        load(&self.table.shared, &mut pass.seat) / 2
    }

    /// The caller number of a pass.
    pub fn caller(pass: &Pass<V>) -> u32
        ensures caller { result ≡ pass.now.caller }
        ensures below { result < pass.now.lock.callers }
        ensures law { V.lawful pass.now.lock.callers pass.now.read }
        ensures behind { length pass.now.read ≤ pass.now.front }
    {
        pass.caller
    }
}

// One pass for each caller number, in order.
fn make_passes<V: Kept>(
    alloc: Global,
    table: &Shelf<V>,
    mut maker: Place<V>,
    callers: u32,
) -> Result<Vec<Pass<V>>, NoMemory>
    requires here { (maker.table_id ≡ table.now.table_id) × (table.now.table_id.words ≡ 1) }
    requires callers { table.now.key ≡ callers }
    requires maker { maker.me.0 ≡ maker_of 0 callers }
    requires law { V.lawful callers [] }
    ensures { IfOk result (λ passes. passes.items ≡ new_passes (record { table = table.now.table_id; callers = callers }) callers) }
{
    let mut passes = Vec::new(alloc);
    for caller in 0..callers {
        let seat = make(table, &mut maker);
        passes.push(Pass { seat, caller })?;
    }
    Ok(passes)
}
