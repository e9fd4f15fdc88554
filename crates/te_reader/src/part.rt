use crate::token::{Sign, Word};

/// The role of a token in a script, which says what may be spelled there, which rules are asked of it and
/// what it changes for the tokens behind it.
#[derive(Clone, Copy)]
pub enum Role {
    /// A reserved word without a rule.
    Word(Word),
    /// A sign without a rule.
    Sign(Sign),
    /// The name of a channel that is declared.
    ChannelName,
    /// The word before a thread.
    ThreadWord,
    /// The name of a thread.
    ThreadName,
    /// The register that a sync writes, the first token of its statement.
    Register,
    /// The word `emit`, the first token of its statement.
    EmitWord,
    /// The word `repeat`, the first token of its statement.
    RepeatWord,
    /// How often a repeat is done.
    Times,
    /// The word `sync`.
    SyncWord,
    /// The `;` of a sync.
    SyncEnd,
    /// The word of an event that has no events in it.
    Leaf(Word),
    /// The word of a fresh channel.
    Fresh,
    /// The word of a `do` or a `choose`.
    Chain(Word),
    /// The word of a `try` or an `if`.
    Branch(Word),
    /// The brace that opens a `do` or a `choose`.
    OpenChain,
    /// A brace that opens an event of a `try` or an `if`, but that of a `catch`.
    OpenBranch,
    /// A brace that closes events.
    Close,
    /// A bar of a `choose`.
    Bar,
    /// The name that a part of a `do` binds.
    PartName,
    /// The `;` of a part of a `do`.
    PartEnd,
    /// The name that a `catch` binds.
    CatchName,
    /// A name that is an expression.
    Whole,
    /// An integer; the first token of a calculation, or not.
    Integer(bool),
    /// A name without a `.` behind it, in the place of an operand; the first token of a calculation, or not.
    Channel(bool),
    /// In the place of an operand, a name before a `.`, or one that begins with `_` whatever is behind it; the
    /// first token of a calculation, or not.
    Variable(bool),
    /// A place of a value.
    Place,
    /// The `)` of a tuple.
    TupleEnd,
    /// The end of the text.
    End,
}

/// A part of a script that may be wanted at a place in a text.
#[derive(Clone, Copy)]
pub enum Part {
    /// All of it.
    Script,
    /// Further names of channels, up to the `;`.
    Channels,
    /// Threads, up to the end.
    Threads,
    /// Statements, up to the closing brace.
    Statements,
    /// The first sync of a repeat.
    Sync,
    /// Further syncs of a repeat, up to the closing brace.
    Syncs,
    Event,
    /// What stands behind a part of a `do`, up to the closing brace.
    Parts,
    /// What stands behind the second event of a `choose`, up to the closing brace.
    Bars,
    Expression,
    /// The inside of a tuple, up to its end.
    Inside,
    /// A calculation, and what stands behind it up to the tuple's end.
    Calculation,
    /// What stands behind the first operand of a calculation, up to the tuple's end.
    Behind,
    /// What stands behind a calculation, up to the tuple's end.
    Further,
    Operand,
    Test,
    /// A token of this role alone.
    Only(Role),
}
