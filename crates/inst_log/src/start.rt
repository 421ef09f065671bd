//! The kinds of file that a log can be opened from.

/// The kind of file that a log is opened from.
#[derive(Clone, Copy, Debug)]
pub enum Start {
    /// A log of the given settings.
    Log,
    /// A new file; `true` if its first byte is the closed byte 0.
    New(bool),
}
