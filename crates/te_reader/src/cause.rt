/// Which limit a script passes.
#[derive(Clone, Copy, Debug, PartialEq, Eq)]
pub enum Which {
    /// The script has more than 1,048,576 bytes.
    Bytes,
    /// A name has more than 32 bytes.
    Name,
    /// There are more than 256 channels.
    Channels,
    /// There are more than 64 threads.
    Threads,
    /// A thread has more than 1,024 statements.
    Statements,
    /// A thread writes more than 8 registers.
    Registers,
    /// A tuple has more than 4 calculations.
    Atoms,
    /// An event has more than 4,096 nodes.
    Nodes,
    /// An event has a height above 32, or stands in more than 31 others.
    Depth,
    /// An event makes more than 16 fresh channels.
    Fresh,
    /// A repeat isn't done from 1 to 10,000 times.
    Repeat,
}

/// What is wrong at a place of a text.
#[derive(Clone, Copy)]
pub enum Cause {
    Bytes,
    Token,
    Syntax,
    Integer,
    Unbound,
    Twice,
    Shadow,
    NoThread,
    Limit(Which),
}
