//! The program's input and outputs.
use std::io::{Read, Write};

/// The program's input and outputs.
#[derive(Drop)]
pub struct Console<R: Read + Drop, W: Write + Drop, E: Write + Drop> {
    /// The lines to answer or check.
    pub reader: R,
    /// Gets the replies, or the other output that the words ask for.
    pub writer: W,
    /// Gets faults and other messages, and the progress of a drill.
    pub errors: E,
    /// `true` if a drill is to print its progress on `errors`.
    pub is_watched: bool,
}
