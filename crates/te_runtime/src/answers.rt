use te_terms::Outcome;

/// What a caller finds of its parked event. This project's own.
#[derive(Clone, Copy, Debug, PartialEq, Eq)]
pub enum Polled {
    /// A group that it was in committed: it gets this outcome, and has taken it.
    Ready(Outcome),
    /// It is parked still, in a history of this length.
    Waiting { front: u64 },
}

/// What came of a search of the parked events. This project's own.
#[derive(Clone, Copy, Debug, PartialEq, Eq)]
pub enum Driven {
    /// A group was found and committed; the history then had this length.
    Committed { front: u64 },
    /// Nothing: the list that was parked at length `from` and was searched isn't the one that was parked when the
    /// history had length `front`.
    Moved { from: u64, front: u64 },
    /// Nothing: the list that is parked in the history of this length can't commit, and there is a caller to wait for,
    /// or this one isn't parked.
    Blocked { front: u64 },
    /// The board was declared stuck.
    Stuck,
}
