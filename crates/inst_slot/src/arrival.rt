//! Live transfers that were forwarded to a participant, with their places.
ghost use Rattle.std.specs.Prelude.{◌≡◌};
ghost use Rattle.inst_slot.specs.Book.{is_at};
ghost use Rattle.inst_slot.specs.Opening.{is_arrival_of, is_unfound, awaits};

use inst_base::{Ident, Moment};
use inst_command::{Entry, Place};
use inst_terms::Terms;

/// A live transfer that was forwarded to the participant, and the index of its place.
///
/// The index is `None` for a carried transfer until it is adopted.
#[derive(Clone, Copy)]
pub struct Arrival {
    pub entry: Entry,
    pub index: Option<u16>,
}

/// Returns `true` if the index found is this one.
pub(crate) fn is_at(index: u16, found: Option<u16>) -> bool
    ensures { result ≡ is_at index found }
{
    match found {
        Some(other) => other == index,
        None => false,
    }
}

/// Returns `true` if the arrival is of this transfer.
fn is_of(arrival: &Arrival, from: u8, id: &Ident) -> bool
    ensures { result ≡ is_arrival_of from id.now arrival.now }
{
    arrival.entry.from == from && arrival.entry.id == *id
}

/// Returns `true` if the place of the arrival isn't known yet.
fn is_unfound(arrival: &Arrival) -> bool
    ensures { result ≡ is_unfound arrival.now }
{
    arrival.index.is_none()
}

/// Returns `true` if the arrival has no place yet and its transfer is the one pending at this
/// place.
pub(crate) fn awaits(arrival: &Arrival, place: Place, terms: &Terms, deadline: Moment) -> bool
    ensures { result ≡ awaits place terms.now deadline arrival.now }
{
    is_of(arrival, place.owner, &terms.id)
        && is_unfound(arrival)
        && arrival.entry.cents == terms.cents
        && arrival.entry.deadline == deadline
}
