// The steps at the lock's table, each by its name in the rule.
ghost use Rattle.std.specs.Prelude.{◌≡◌, ◌≢◌, ℕ, ◌<◌, [], ◌∷◌, Some, None, true, false};
ghost use Rattle.te_lock.specs.declared.view.Role.TheVariants.{Maker, Caller, Spent};
ghost use Rattle.te_lock.specs.Rule.{Asked, Confirms, Empties, Fills, Looks, Released, Ready, counted, joined, next_pass, noted};

use crate::kept::Kept;
use crate::law::{Asks, Checks, Law, Loads, Makes, Meets, Notes, Releases};
use crate::view::View;
use atomic_table::{Seat, Shared};

/// A seat at the lock's table.
pub type Place<V> = Seat<Option<V>, View<<V as Kept>::Entry>>;

/// The lock's table, as all threads share it.
pub type Shelf<V> = Shared<Option<V>, View<<V as Kept>::Entry>, u32, Law>;

/// Sets the word's lowest bit, and answers the word that was there. An even one gives the seat the turn.
pub fn ask<V: Kept>(table: &Shelf<V>, seat: &mut Place<V>) -> u64
    requires here { (seat.old.table_id ≡ table.now.table_id) × (table.now.table_id.words ≡ 1) }
    requires caller { (k : ℕ) × (seat.old.me.0.role ≡ Caller k) }
    requires idle { seat.old.me.0.has_turn ≡ false }
    ensures here { seat.new.table_id ≡ seat.old.table_id }
    ensures asked { Asked V.entries V.members V.author V.lawful seat.old.me result seat.new.me }
{
    table.fetch_or::<Asks>(seat, 0, 1)
}

/// Loads the word.
pub fn load<V: Kept>(table: &Shelf<V>, seat: &mut Place<V>) -> u64
    requires here { (seat.old.table_id ≡ table.now.table_id) × (table.now.table_id.words ≡ 1) }
    requires caller { (k : ℕ) × (seat.old.me.0.role ≡ Caller k) }
    requires idle { seat.old.me.0.has_turn ≡ false }
    ensures here { seat.new.table_id ≡ seat.old.table_id }
    ensures looks { Looks seat.old.me result seat.new.me }
{
    table.load::<Loads>(seat, 0)
}

/// Loads the word, and leaves the seat as it is.
pub fn confirm<V: Kept>(table: &Shelf<V>, seat: &mut Place<V>)
    requires here { (seat.old.table_id ≡ table.now.table_id) × (table.now.table_id.words ≡ 1) }
    ensures here { seat.new.table_id ≡ seat.old.table_id }
    ensures confirms { Confirms seat.old.me seat.new.me }
{
    table.load::<Checks>(seat, 0);
}

/// Takes the value out of the slot, which is then empty.
pub fn take_out<V: Kept>(table: &Shelf<V>, seat: &mut Place<V>) -> V
    requires here { seat.old.table_id ≡ table.now.table_id }
    requires full { (value : V) × (seat.old.me.1 ≡ (0, Some value) ∷ []) }
    ensures here { seat.new.table_id ≡ seat.old.table_id }
    ensures emptied { Empties seat.old.me result seat.new.me }
{
    match table.exchange(seat, 0, None) {
        Some(value) => value,
        None => unreachable!(),
    }
}

/// Puts a value into the slot, which was empty.
pub fn put_back<V: Kept>(table: &Shelf<V>, seat: &mut Place<V>, value: V)
    requires here { seat.old.table_id ≡ table.now.table_id }
    requires empty { seat.old.me.1 ≡ (0, None) ∷ [] }
    ensures here { seat.new.table_id ≡ seat.old.table_id }
    ensures filled { Fills seat.old.me value seat.new.me }
{
    let None = table.exchange(seat, 0, Some(value)) else {
        unreachable!()
    };
}

/// Makes the word twice the length of the list in the slot, and gives the turn back.
pub fn release<V: Kept>(table: &Shelf<V>, seat: &mut Place<V>, word: u64)
    requires here { (seat.old.table_id ≡ table.now.table_id) × (table.now.table_id.words ≡ 1) }
    requires held { seat.old.me.0.has_turn ≡ true }
    requires ready { Ready V.entries V.members V.author V.lawful seat.old.me word }
    ensures here { seat.new.table_id ≡ seat.old.table_id }
    ensures released { Released V.entries seat.old.me seat.new.me }
{
    table.swap::<Releases>(seat, 0, word);
}

/// Makes the pass of the next caller number.
pub fn make<V: Kept>(table: &Shelf<V>, maker: &mut Place<V>) -> Place<V>
    requires here { (maker.old.table_id ≡ table.now.table_id) × (table.now.table_id.words ≡ 1) }
    requires fewer { (n : ℕ) × (maker.old.me.0.role ≡ Maker n) × (n < table.now.key) }
    ensures here { (maker.new.table_id ≡ maker.old.table_id) × (result.table_id ≡ maker.old.table_id) }
    ensures counted { maker.new.me ≡ (counted maker.old.me.0, maker.old.me.1) }
    ensures made { result.me ≡ (next_pass maker.old.me.0, []) }
{
    table.split_seat::<Makes>(maker)
}

/// Makes a note of what the seat knows.
pub fn note<V: Kept>(table: &Shelf<V>, seat: &mut Place<V>) -> Place<V>
    requires here { (seat.old.table_id ≡ table.now.table_id) × (table.now.table_id.words ≡ 1) }
    requires caller { (k : ℕ) × (seat.old.me.0.role ≡ Caller k) }
    ensures here { (seat.new.table_id ≡ seat.old.table_id) × (result.table_id ≡ seat.old.table_id) }
    ensures same { seat.new.me ≡ seat.old.me }
    ensures noted { result.me ≡ (noted seat.old.me.0, []) }
{
    table.split_seat::<Notes>(seat)
}

/// Takes in what the other seat, of a note or of a pass without the turn, knows.
pub fn join<V: Kept>(table: &Shelf<V>, seat: &mut Place<V>, other: Place<V>)
    requires here { (seat.old.table_id ≡ table.now.table_id) × (table.now.table_id.words ≡ 1) }
    requires there { other.table_id ≡ table.now.table_id }
    requires caller { (k : ℕ) × (seat.old.me.0.role ≡ Caller k) }
    requires no_maker { (n : ℕ) → other.me.0.role ≢ Maker n }
    requires not_spent { other.me.0.role ≢ Spent }
    requires idle { (other.me.0.has_turn ≡ false) × (other.me.1 ≡ []) }
    ensures here { seat.new.table_id ≡ seat.old.table_id }
    ensures joined { seat.new.me ≡ (joined seat.old.me.0 other.me.0, seat.old.me.1) }
{
    table.join_seat::<Meets>(seat, other);
}
