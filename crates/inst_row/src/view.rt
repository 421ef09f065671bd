//! What a seat has and has seen, for contracts.
use std::collections::LinkedList;

/// A prefix of the history of the value behind a lock. Only contracts use it; it has no value at
/// run time.
pub struct Front<E> {
    /// The number of the lock.
    pub lock: u64,
    /// The events, oldest first.
    pub history: LinkedList<E>,
}

/// What a seat of a row has and has seen. Only contracts use it; it has no value at run time.
pub struct RowView<E, K> {
    /// The key that the row was opened with; `None` for a seat that was joined into another.
    pub about: Option<K>,
    /// How many of the row's parts it has.
    pub parts: u64,
    /// The locks that it has, with the histories that it found.
    pub held: LinkedList<Front<E>>,
    /// The prefixes of histories that it has seen.
    pub fronts: LinkedList<Front<E>>,
}
