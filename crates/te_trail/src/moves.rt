/// A choice or a meeting in the past of a path, by threads.
#[derive(Clone, Copy, Debug, PartialEq, Eq)]
pub enum Move {
    /// A choice of a thread, the left part for `true`.
    Branch { thread: u32, left: bool },
    /// A meeting of a sending and a receiving thread.
    Meet { sender: u32, receiver: u32 },
}
