ghost use Rattle.std.specs.Prelude.{◌≡◌};
ghost use Rattle.te_report.specs.declared.fault.ReportFault.TheVariants.{Memory};

use te_history::StepFault;
use te_terms::NoMemory;

/// Why an entry may not stand where a report tells it. This project's own.
#[derive(Clone, Copy, Debug, PartialEq, Eq)]
pub enum Cause {
    /// It doesn't follow the entries before it, for this reason; never for want of memory.
    Step(StepFault),
    /// It follows, but it is no post or end that its thread wished, or a post that tells another site than its wish's.
    Script,
}

/// Why a report isn't read: the first line that fails. Lines are numbered from 1, and the head is line 1. This project's
/// own.
#[derive(Clone, Copy, Debug, PartialEq, Eq)]
pub enum ReportFault {
    /// The first line, with its line feed, is the head of neither version.
    Head,
    /// The text goes on at this line, which begins with no word of a last line, and it is no line of an entry.
    Line(u32),
    /// This line's entry may not stand there.
    Illegal(u32, Cause),
    /// This line begins as a last line and is none of this history; or it says closed, and a thread hasn't ended; or bytes
    /// stand on it behind the last line; or the text ends without a last line before it.
    Tail(u32),
    /// There are more than 67,108,864 bytes.
    Long,
    /// There was no memory.
    Memory,
}

impl From<NoMemory> for ReportFault {
    ghost from_gives = { λ _ fault. fault ≡ Memory };

    fn from(_refused: NoMemory) -> ReportFault {
        ReportFault::Memory
    }
}
