//! The versions of a log's format.

/// A version of a log's format.
#[derive(Clone, Copy, Debug, PartialEq, Eq)]
pub enum Version {
    /// Without marks. Such logs are read and resumed; the program makes none any more.
    One,
    /// With a mark at the end of each batch, so damage is found.
    Two,
}
