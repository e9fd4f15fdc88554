use te_history::Status;

/// Why a call of a runtime was refused: the first cause that holds. This project's own.
#[derive(Clone, Copy, Debug, PartialEq, Eq)]
pub enum SyncFault {
    /// The caller stands so, and the call needs another standing.
    Other(Status),
    /// The board is declared stuck.
    Stuck,
    /// The callers were told to come back, and no event may be parked any more.
    Resting,
    /// The search of the list that was parked when the history had length `front` has used up its budget, by so many
    /// paths and partial groups.
    Spent { front: u64, paths: u64, groups: u64 },
    /// The board has no room for a post and all that its caller may then need.
    Full,
    /// Another caller had the turn: the word that was found, which is twice the length of the history, plus 1.
    Busy { word: u64 },
    /// There was no memory.
    Memory,
}
