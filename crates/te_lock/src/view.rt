use std::collections::LinkedList;

/// Whose view it is: that of the maker of passes, with how many it has made, that of a caller by its
/// number, a note's, or one that a join has used up.
pub enum Role {
    Maker(u32),
    Caller(u32),
    Note,
    Spent,
}

/// What a seat at the lock's table knows. It stands in proofs alone: no value of it is made.
pub struct View<E> {
    pub role: Role,
    /// The lock's number of callers.
    pub callers: u32,
    /// A beginning of the history that was read.
    pub read: LinkedList<E>,
    /// How long the history was when it was last looked at.
    pub front: u64,
    /// The entries that this caller appended.
    pub own: LinkedList<E>,
    /// The words that its looks found while it hadn't the turn, in order.
    pub looks: LinkedList<u64>,
    /// Lists that the history is known to begin with.
    pub known: LinkedList<LinkedList<E>>,
    /// The caller numbers of passes that were joined into this one, each with its own entries.
    pub closed: LinkedList<(u32, LinkedList<E>)>,
    pub has_turn: bool,
}
