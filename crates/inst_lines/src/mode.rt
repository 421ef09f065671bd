//! The meaning of a line.

/// The meaning of a line.
#[derive(Clone, Copy, Debug, PartialEq, Eq)]
pub enum Mode {
    /// A command, with the follow-ups of all live transfers after it.
    Run,
    /// One step, without follow-ups.
    Play,
}
