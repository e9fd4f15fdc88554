/// How a report ends. This project's own.
#[derive(Clone, Copy, Debug, PartialEq, Eq)]
pub enum Ending {
    /// Every thread has ended.
    Closed,
    /// The search over the list parked after `front` entries needed more than its budget: it had made so many paths and
    /// tried so many groups.
    Spent { front: u64, paths: u64, groups: u64 },
    /// A post would have passed the limit on entries.
    Full,
}
