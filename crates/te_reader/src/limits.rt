// The limit of a text, which is this project's own.

/// The most bytes of a text.
pub const MOST_BYTES: usize = 1_048_576;
