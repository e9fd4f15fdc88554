use te_cert::CertFault;
use te_history::Status;

/// Why a call of a board was refused: the first need that fails. Places and lengths count from 0. The board is then as it
/// was. This project's own.
#[derive(Clone, Copy, Debug, PartialEq, Eq)]
pub enum BoardFault {
    /// The board is stuck, where only ends follow.
    Closed,
    /// The caller stands so, and isn't idle.
    NotIdle(Status),
    /// The caller stands so, and isn't parked.
    NotParked(Status),
    /// The caller stands so, and isn't given an outcome.
    NotGiven(Status),
    /// The board is resting already.
    Resting,
    /// This member of the certificate is the first that names no caller.
    Stranger(u32),
    /// This member is the first that isn't parked under its ticket; it stands so.
    Stale(u32, Status),
    /// The certificate has no member, its threads don't rise, or the check of it finds this; never want of memory.
    Unsound(CertFault),
    /// This caller, the lowest such, stands so, and is neither parked nor ended.
    Live(u32, Status),
    /// The parked list isn't that of the snapshot; the history has this length now.
    Moved(u64),
    /// There is no room for a post and all that its caller may then need.
    Full,
    /// There was no memory.
    Memory,
}
