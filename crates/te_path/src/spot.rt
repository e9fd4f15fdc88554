// Where a path stands, in a few words over cells.

ghost use Rattle.std.specs.Prelude.{◌≡◌};

use te_terms::Value;

/// Where a path stands, by the head of its term. Sends, receives and choices are those of Donnelly and Fluet,
/// Transactional Events, JFP 18(5-6), 2008.
#[derive(Clone, Copy, Debug, PartialEq, Eq)]
pub enum Stop {
    /// At its end: it gives the value.
    Done(Value),
    /// At its end: it raises the value.
    Raised(Value),
    /// At a send of the value on the channel.
    Send(u32, Value),
    /// At a receive on the channel.
    Recv(u32),
    /// At a choice.
    Choice,
    /// At `never`.
    Dead,
}

/// A path over cells, with no quiet step left: its stop, its node and one (0 where an outcome has passed all
/// frames), the links of its inner values and its frames, and how many fresh channels it has made. To keep a
/// path is to copy this. It is public for the crates above alone.
#[doc(hidden)]
#[derive(Clone, Copy)]
pub struct Spot {
    pub(crate) stop: Stop,
    pub(crate) node: u32,
    pub(crate) values: u32,
    pub(crate) frames: u32,
    pub(crate) count: u32,
}

impl Spot {
    /// Where the path stands.
    pub fn stop(&self) -> Stop
        ensures { result ≡ self.now.stop }
    {
        self.stop
    }
}
