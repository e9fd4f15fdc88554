use crate::kept::Kept;
use crate::view::View;
use atomic_table::Seat;
use std::marker::Model;

/// The right of one caller to take the turn, and what it knows of the history.
///
/// Contracts see it as a `Knowledge`: its lock and caller number, what it has read, how long it saw
/// the history, its own entries, the words that its looks found while it hadn't the turn, the lists
/// that the history is known to begin with, and whether it has the turn. It may go to another thread
/// wherever the value may.
#[derive(Drop)]
pub struct Pass<V: Kept> {
    pub(crate) seat: Seat<Option<V>, View<V::Entry>>,
    pub(crate) caller: u32,
}

impl<V: Kept> Model for Pass<V> {
    ghost use Rattle.std.specs.Prelude.{◌≡◌, ◌<◌, ◌≤◌, length};
    ghost use Rattle.te_lock.specs.Lock.{Knowledge};

    ghost Value = { Knowledge V.Entry };

    ghost use Rattle.te_lock.specs.Passes.{knowledge, IsPassAt};

    ghost view = { λ p. knowledge p.seat.table_id p.caller p.seat.me.0 };

    ghost invariant = { λ p. IsPassAt V.lawful p.caller p.seat.me };
}

/// The turn was held by another caller: the word that was found, which is odd.
#[derive(Clone, Copy, Debug, PartialEq, Eq)]
pub struct Busy {
    /// Twice the length of the history, plus 1.
    pub word: u64,
}
