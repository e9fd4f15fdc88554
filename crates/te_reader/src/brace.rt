/// An open brace of events.
#[derive(Clone, Copy)]
pub struct Brace {
    /// How many inner names were in scope before it.
    pub outer: usize,
    /// How deep in its event's tree the next event in it stands, if it is the last there.
    pub level: usize,
    /// How deep the deepest event in it stands, since its last bar.
    pub deepest: usize,
    /// How deep the deepest event in it stands before its last bar.
    pub settled: usize,
}
