// The limits of values, names, registers, events and threads, each named once. All of them are this project's own.

/// The most atoms that a value has, and the most calculations of an expression.
pub const MOST_ATOMS: usize = 4;

/// The number of registers.
pub const MOST_REGISTERS: usize = 8;

/// The most bytes of a name.
pub const LONGEST_NAME: usize = 32;

/// The most nodes of a code.
pub const MOST_NODES: usize = 4096;

/// The greatest height of a term; a leaf has height 1.
pub const GREATEST_HEIGHT: u32 = 32;

/// The most nodes of a code that make a channel.
pub const MOST_FRESH: u32 = 16;

/// The most threads, which are the callers of a board.
pub const MOST_THREADS: usize = 64;
