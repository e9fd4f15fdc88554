/// What each worker of `run_threads` calls before each sync of its thread, as a test does that holds threads there. This
/// project's own.
pub trait Gate {
    /// The thread of this number, from 0, is about to post its event under this ticket, which is the number of the syncs
    /// before it.
    fn pass(&self, thread: u32, ticket: u32);
}

/// A gate that lets every thread pass at once.
#[derive(Clone, Copy, Debug, Default, Drop)]
pub struct OpenGate;

impl Gate for OpenGate {
    fn pass(&self, _thread: u32, _ticket: u32) {}
}
