/// Where a caller stands, without its event and its outcome. This project's own.
#[derive(Clone, Copy, Debug, PartialEq, Eq)]
pub enum Light {
    /// It has no parked event and no outcome to take, and hasn't ended.
    Idle,
    /// Its event is parked under this ticket.
    Parked(u32),
    /// It was given an outcome under this ticket, which it hasn't taken yet.
    Given(u32),
    /// It has ended.
    Ended,
}
