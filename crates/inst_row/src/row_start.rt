//! The key of a row's table.
use std::snapshot::Snapshot;

/// The key that a row is opened with, and its first values. It has no bytes; only contracts use it.
#[derive(Drop)]
pub struct RowStart<T, K> {
    /// The key.
    pub about: Snapshot<K>,
    /// The first values.
    pub values: Snapshot<Vec<Option<T>>>,
}
