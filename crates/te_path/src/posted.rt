// What moves read of an event.

use te_terms::{EventCode, Value};

/// What the moves of a path read: the code of its event and the values of the registers, and the thread and
/// the ticket for which fresh channels are made. It is public for the crates above alone.
#[doc(hidden)]
#[derive(Clone, Copy)]
pub struct Posted<'a> {
    pub code: &'a EventCode,
    pub regs: &'a [Value; 8],
    pub thread: u32,
    pub ticket: u32,
}
