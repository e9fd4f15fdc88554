/// Two threads of a commit, of which the one hands on to the other. This project's own.
#[derive(Clone, Copy, Debug, PartialEq, Eq)]
pub struct Handed {
    /// The thread that hands on, a caller number.
    pub giver: u32,
    /// The thread that takes, a caller number.
    pub taker: u32,
}
