//! The initial state of a hub, for contracts.
use inst_cell::SharedBoard;
use inst_participant::Participant;
use std::snapshot::Snapshot;

/// The words and the contents of the locks that a hub opened with: the key of its row. For
/// contracts only, zero-sized.
#[derive(Drop)]
pub struct InitialState {
    /// A board over the hub's words.
    pub words: Snapshot<SharedBoard>,
    /// What the locks protected at first.
    pub all: Snapshot<Vec<Option<Box<Participant>>>>,
}
