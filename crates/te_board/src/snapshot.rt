use te_terms::{Parked, Rows};

/// What a search looks at: the length of a board's history, and its parked callers with ticket and event, threads rising.
/// This project's own.
#[derive(Drop)]
pub struct Snapshot {
    /// The length of the history.
    pub front: u64,
    /// The parked callers, in thread order.
    pub parked: Rows<Parked>,
}
