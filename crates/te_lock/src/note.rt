use crate::kept::Kept;
use crate::view::View;
use atomic_table::Seat;
use std::marker::Model;

/// What a pass had seen, for another caller to meet.
///
/// Contracts see it as a `Noted`: its lock, what had been read, how long the history had been seen,
/// and the lists that were known. It may go to another thread wherever the value may.
#[derive(Drop)]
pub struct Note<V: Kept> {
    pub(crate) seat: Seat<Option<V>, View<V::Entry>>,
}

impl<V: Kept> Model for Note<V> {
    ghost use Rattle.te_lock.specs.Lock.{Noted};

    ghost Value = { Noted V.Entry };

    ghost use Rattle.te_lock.specs.Passes.{noted_of, IsNoteAt};

    ghost view = { λ n. noted_of n.seat.table_id n.seat.me.0 };

    ghost invariant = { λ n. IsNoteAt V.lawful n.seat.me };
}
