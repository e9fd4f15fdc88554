// The limits of scripts and threads, each named once. All of them are this project's own.

/// The most channels of a script.
pub const MOST_CHANNELS: usize = 256;

/// The most statements of a thread.
pub const MOST_STATEMENTS: usize = 1024;
