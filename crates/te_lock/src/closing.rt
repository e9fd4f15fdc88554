// The end of a lock: its passes come back, and the value is taken out.
ghost use Rattle.std.specs.Prelude.{◌≡◌, ℕ, ◌<◌, ◌≤◌, All, Contains, false, [], length, map};
ghost use mathlib.Core.List.{IsPrefix};
ghost use Rattle.te_lock.specs.declared.view.Role.TheVariants.{Caller};
ghost use Rattle.te_lock.specs.Entries.{entries_by};
ghost use Rattle.te_lock.specs.Gathered.{HasAllOf};
ghost use Rattle.te_lock.specs.Lock.{Knowledge};
ghost use Rattle.te_lock.specs.Rule.{Stands, Sees};

use crate::kept::Kept;
use crate::law::Law;
use crate::pass::Pass;
use crate::steps::{Place, Shelf, join};
use crate::turn::Turn;
use crate::view::View;
use atomic_table::Table;
use std::alloc::Global;

impl<V: Kept> Turn<V> {
    /// Ends the lock, with all its passes, of which none has the turn, and gives its value.
    pub fn close(self, passes: Vec<Pass<V>>) -> V
        requires here { All (λ p. p.lock ≡ self) passes.items }
        requires idle { All (λ p. p.has_turn ≡ false) passes.items }
        requires everyone { (k : ℕ) → k < self.callers → Contains (map (λ p. p.caller) passes.items) k }
        ensures number { V.members result ≡ self.callers }
        ensures law { V.lawful self.callers (V.entries result) }
        ensures unmade { (k : ℕ) → self.callers ≤ k → entries_by V.author k (V.entries result) ≡ [] }

        // all that the passes knew is so of the list
        ensures begins { All (λ p. IsPrefix p.read (V.entries result)) passes.items }
        ensures begins_known { All (λ p. All (λ list. IsPrefix list (V.entries result)) p.known) passes.items }
        ensures reaches { All (λ p. p.front ≤ length (V.entries result)) passes.items }
        ensures own { All (λ p. entries_by V.author p.caller (V.entries result) ≡ p.own) passes.items }
    {
        let seat = gather(&self.table.shared, passes);
        let Turn { table } = self;
        take_last(table, seat)
    }
}

// The seat of a pass that hasn't the turn.
fn seat_of<V: Kept>(pass: Pass<V>) -> Place<V>
    requires { pass.has_turn ≡ false }
    ensures here { result.table_id ≡ pass.lock.table }
    ensures role { result.me.0.role ≡ Caller pass.caller }
    ensures idle { (result.me.0.has_turn ≡ false) × (result.me.1 ≡ []) }
    ensures all { HasAllOf V.author result.me.0 pass }
{
    let Pass { seat, caller: _ } = pass;
    seat
}

// Joins a pass into a seat.
fn take_in<V: Kept>(table: &Shelf<V>, seat: &mut Place<V>, pass: Pass<V>)
    requires table { table.now.table_id.words ≡ 1 }
    requires here { seat.old.table_id ≡ table.now.table_id }
    requires caller { (k : ℕ) × (seat.old.me.0.role ≡ Caller k) }
    requires idle { seat.old.me.0.has_turn ≡ false }
    requires pass { (pass.lock.table ≡ table.now.table_id) × (pass.has_turn ≡ false) }
    ensures here { seat.new.table_id ≡ seat.old.table_id }
    ensures caller { seat.new.me.0.role ≡ seat.old.me.0.role }
    ensures idle { seat.new.me.0.has_turn ≡ false }
    ensures keeps { (p : Knowledge V.Entry) → HasAllOf V.author seat.old.me.0 p → HasAllOf V.author seat.new.me.0 p }
    ensures has { HasAllOf V.author seat.new.me.0 pass }
{
    let other = seat_of(pass);
    join(table, seat, other);
}

// Joins all passes into one seat.
fn gather<V: Kept>(table: &Shelf<V>, mut passes: Vec<Pass<V>>) -> Place<V>
    requires table { table.now.table_id.words ≡ 1 }
    requires some { 0 < length passes.items }
    requires here { All (λ p. p.lock.table ≡ table.now.table_id) passes.items }
    requires idle { All (λ p. p.has_turn ≡ false) passes.items }
    ensures here { result.table_id ≡ table.now.table_id }
    ensures idle { result.me.0.has_turn ≡ false }
    ensures all { All (λ p. HasAllOf V.author result.me.0 p) passes.items }
{
    let Some(first) = passes.pop() else {
        unreachable!()
    };
    let mut seat = seat_of(first);
    while let Some(pass) = passes.pop() {
        take_in(table, &mut seat, pass);
    }
    seat
}

// Takes the value out of a table that one seat knows all callers of.
fn take_last<V: Kept>(
    table: Table<Option<V>, View<V::Entry>, u32, Law, Global>,
    seat: Place<V>,
) -> V
    requires table { (table.shared.table_id.words ≡ 1) × (table.shared.table_id.slots ≡ 1) }
    requires here { seat.table_id ≡ table.shared.table_id }
    requires idle { seat.me.0.has_turn ≡ false }
    requires everyone { (k : ℕ) → k < table.shared.key → Stands k seat.me.0 }
    ensures number { V.members result ≡ table.shared.key }
    ensures law { V.lawful table.shared.key (V.entries result) }
    ensures sees { Sees V.author (V.entries result) seat.me.0 }
    ensures unmade { (k : ℕ) → table.shared.key ≤ k → entries_by V.author k (V.entries result) ≡ [] }
{
    let mut closed = table.close_with(seat);
    let slot = closed.take(0);
    closed.free();
    match slot {
        Some(value) => value,
        None => unreachable!(),
    }
}
