ghost use Rattle.std.specs.Prelude.{◌≡◌};
ghost use Rattle.te_cert.specs.Lending.{lent_term, IsLent};

use te_terms::{Event, EventCode, Value};

/// The parts of an event, lent to a play: the code, the node under which the event's term stands, and the
/// registers. It is public for the crates above alone, which play on events where they lie.
#[doc(hidden)]
#[derive(Clone, Copy)]
pub struct Lent<'a> {
    pub(crate) code: &'a EventCode,
    pub(crate) root: u32,
    pub(crate) regs: &'a [Value; 8],
}

impl<'a> Lent<'a> {
    /// The parts of the event. It takes no memory.
    pub fn of(event: &'a Event) -> Lent<'a>
        ensures term { lent_term result ≡ event.now }
        ensures lent { IsLent result }
    {
        let (code, root, regs) = event.parts();
        Lent { code, root, regs }
    }
}
