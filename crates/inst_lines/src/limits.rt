//! The limits of a run.

/// The most lines of a run.
pub const MOST_LINES: u64 = 1_000_000;
/// The most bytes that a run reads.
pub const MOST_BYTES: u64 = 4_294_967_296;
/// The most bytes of a line, not counting its newline. A longer one is refused.
pub const MOST_LINE_BYTES: usize = 4_096;
/// The bytes of the input buffer, and the bytes of replies from which they are written.
pub const BUFFER_BYTES: usize = 65_536;
