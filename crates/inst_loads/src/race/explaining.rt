//! Explains the books that a race left.
use crate::race::participant::Racer;
use inst_base::Fault;
use inst_journal::Journal;
use inst_order::interleaving;
use std::alloc::{AllocError, Global};

/// Copies each participant's journal.
fn journals(alloc: Global, hub: &[Racer]) -> Result<Vec<Journal>, AllocError> {
    let mut journals = Vec::with_capacity(alloc, hub.len())?;
    for participant in hub {
        journals.push(participant.journal().copy()?)?;
    }
    Ok(journals)
}

/// Returns `true` if steps of a hub in one thread are found that leave these books.
pub(crate) fn are_explained(alloc: Global, hub: &[Racer]) -> Result<bool, Fault> {
    let Some(first) = hub.first() else {
        return Ok(false);
    };
    let journals = journals(alloc, hub)?;
    Ok(interleaving(alloc, first.settings(), &journals)?.is_some())
}
