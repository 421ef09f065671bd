//! The form of a scanned line.

/// The form of a line as one pass over it finds it.
#[derive(Clone, Copy, Drop)]
pub enum Form {
    /// A flat object of plain texts and whole numbers.
    Plain,
    /// Not JSON.
    Broken,
    /// To be read as a JSON value; it may be JSON or not.
    Other,
}
