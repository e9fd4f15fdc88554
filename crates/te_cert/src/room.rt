use crate::seat::Seat;
use std::alloc::Global;
use te_path::Cells;

/// Room for plays, one after another: cells, and seats for the members. A play leaves it without either, so that
/// it grows no further than its largest play needs. It is public for the crates above alone.
#[doc(hidden)]
#[derive(Drop)]
pub struct Room {
    pub(crate) cells: Cells,
    pub(crate) seats: Vec<Seat>,
}

impl Room {
    /// Room for nothing yet. It takes no memory.
    pub fn new(alloc: Global) -> Room {
        Room {
            cells: Cells::new(alloc),
            seats: Vec::new(alloc),
        }
    }
}
