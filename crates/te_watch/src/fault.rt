/// Why nothing was published. This project's own.
#[derive(Clone, Copy, Debug, PartialEq, Eq)]
pub enum PublishFault {
    /// Another caller had the turn: the word that was found, which is twice the length of the history, plus 1.
    Busy { word: u64 },
    /// There was no memory.
    Memory,
}
