//! Compares the fetched entries with the submitted transfers: no transfer twice, and each that
//! didn't time out.
use crate::flaw::Flaw;
use crate::stress::sights::{Sights, ToldTransfer};
use inst_command::{Entry, Outcome, State};

/// Counts the entries of this transfer.
fn count_of(entries: &[Entry], sight: &ToldTransfer) -> usize {
    let owner = sight.ticket.place().owner;
    let mut count = 0usize;
    for entry in entries {
        if entry.from == owner && entry.id == sight.id {
            count = count.saturating_add(1);
        }
    }
    count
}

/// Returns `true` if a teller noted the transfer of this entry.
fn is_known(sights: &Sights, entry: &Entry) -> bool {
    for slot in sights.places() {
        if let Some(sight) = slot {
            if sight.ticket.place().owner == entry.from && sight.id == entry.id {
                return true;
            }
        }
    }
    false
}

/// Returns `true` if tellers noted the transfers of all fetched entries.
fn are_known(sights: &Sights) -> bool {
    for entry in sights.entries() {
        if !is_known(sights, entry) {
            return false;
        }
    }
    true
}

/// Checks that every fetched entry was submitted and none is missing. Fails with `StrangeEntry` if
/// a transfer was fetched twice or no teller noted it, and with `NotHandedOut` if one is missing
/// that didn't time out. A transfer that timed out may never have been delivered.
pub(crate) fn check_inbox(sights: &Sights) -> Result<(), Flaw> {
    if !are_known(sights) {
        return Err(Flaw::StrangeEntry);
    }
    for slot in sights.places() {
        if let Some(sight) = slot {
            match count_of(sights.entries(), sight) {
                0 if sight.state != State::Decided(Outcome::TimedOut) => {
                    return Err(Flaw::NotHandedOut);
                }
                0 | 1 => {}
                _ => return Err(Flaw::StrangeEntry),
            }
        }
    }
    Ok(())
}
