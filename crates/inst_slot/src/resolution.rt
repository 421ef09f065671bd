//! Resolving a look at a place to an outcome that the participant hasn't booked.
ghost use Rattle.std.specs.Prelude.{◌≡◌};
ghost use Rattle.inst_transfers.specs.Held.{IsFound};
ghost use Rattle.inst_slot.specs.inner.Answering.{book_with_spots};
ghost use Rattle.inst_slot.specs.inner.Resolutions.{ShowsOwn, GivesResolution};
ghost use Rattle.inst_slot.specs.Spots.{rows_of, AreSpots};
ghost use Rattle.inst_slot.specs.Telling.{is_party, resolution};

use crate::arrival::is_at;
use crate::arrivals::{Spot, arrived_at};
use inst_board::Look;
use inst_command::{Outcome, Place};
use inst_ledger::Ledger;
use inst_transfers::Found;

/// A transfer of the participant without a booked outcome, and the outcome that the board shows.
#[derive(Clone, Copy)]
pub(crate) struct Resolution {
    pub(crate) found: Found,
    pub(crate) outcome: Outcome,
}

/// Returns `true` if the participant is the originator of the transfer at the place, or its
/// beneficiary.
fn is_party(ledger: &Ledger, spots: &[Spot], place: Place, found: &Found) -> bool
    requires there { IsFound ledger.now.table found.now }
    requires from { found.now.from ≡ place.owner }
    requires spots { AreSpots (rows_of ledger.now.book.who ledger.now.book.events) spots.now }
    ensures { result ≡ is_party (book_with_spots ledger.now.book spots.now) place found.now.id }
{
    place.owner == ledger.who() || is_at(place.index, arrived_at(ledger, spots, found))
}

/// Returns the resolution of a look: the outcome of the participant's transfer, if it is decided
/// and not booked.
pub(crate) fn resolution_of(
    ledger: &Ledger,
    spots: &[Spot],
    place: Place,
    look: &Look,
) -> Option<Resolution>
    requires own { ShowsOwn ledger.now.book place look.now }
    requires spots { AreSpots (rows_of ledger.now.book.who ledger.now.book.events) spots.now }
    ensures { GivesResolution ledger.now place
        (resolution (book_with_spots ledger.now.book spots.now) place look.now) result }
{
    let Look::Decided(terms, outcome) = look else {
        return None;
    };
    let found = ledger.find(place.owner, &terms.id)?;
    if found.transfer.outcome.is_some() || !is_party(ledger, spots, place, &found) {
        return None;
    }
    let outcome = *outcome;
    Some(Resolution { found, outcome })
}
