//! Arrivals as a slot stores them: by their position in the table of transfers.
ghost use Rattle.std.specs.Prelude.{◌≡◌, ◌<◌, IfOk, length, map};
ghost use Rattle.std.specs.List.{list_any};
ghost use Rattle.inst_journal.specs.Opened.{carried};
ghost use Rattle.inst_transfers.specs.Held.{IsFound, AreRising};
ghost use Rattle.inst_slot.specs.Book.{live_inbox, arrived_at};
ghost use Rattle.inst_slot.specs.Opening.{arrival_without_place, awaits, arrival_found_at};
ghost use Rattle.inst_slot.specs.Spots.{rows_of, arrivals_of, positions_of, AreSpots};
ghost use Rattle.inst_slot.specs.inner.Spots.{booked_at, FindsSpot};

use crate::Arrival;
use crate::arrival::awaits;
use inst_base::{Moment, mention};
use inst_command::{Outcome, Place};
use inst_journal::Event;
use inst_ledger::Ledger;
use inst_terms::Terms;
use inst_transfers::{Found, Side, Transfer};
use std::alloc::{AllocError, Global};

/// An arrival's position in the table of transfers, and the index of its place.
///
/// The index is `None` for a carried transfer until it is adopted.
#[derive(Clone, Copy)]
pub(crate) struct Spot {
    pub(crate) position: usize,
    pub(crate) index: Option<u16>,
}

/// Returns the index of the spot with this table position: one step for the last arrival, else
/// O(log n).
fn spot_at(spots: &[Spot], position: usize) -> Option<usize>
    requires rising { AreRising (positions_of spots.now) }
    ensures { FindsSpot spots.now position result }
{
    if let Some(last) = spots.last() {
        if last.position == position {
            return Some(spots.len() - 1);
        }
    }
    match spots.binary_search_by_key(&position, |spot| spot.position) {
        Ok(at) => Some(at),
        Err(_) => None,
    }
}

/// Returns the index of the place from which the transfer found was forwarded, without hashing.
pub(crate) fn arrived_at(ledger: &Ledger, spots: &[Spot], found: &Found) -> Option<u16>
    requires there { IsFound ledger.now.table found.now }
    requires spots { AreSpots (rows_of ledger.now.book.who ledger.now.book.events) spots.now }
    ensures { result ≡ arrived_at found.now.from found.now.id
        (arrivals_of (rows_of ledger.now.book.who ledger.now.book.events) spots.now) }
{
    // Counting the rows makes it known to the prover that no two are of the same transfer.
    let _ = ledger.transfers();
    let at = spot_at(spots, found.position)?;
    spots[at].index
}

/// Stores the place of the arrival that awaits it; returns `false` if none does.
pub(crate) fn find_at(
    ledger: &Ledger,
    spots: &mut Vec<Spot>,
    place: Place,
    terms: &Terms,
    deadline: Moment,
) -> bool
    requires spots { AreSpots (rows_of ledger.now.book.who ledger.now.book.events) spots.old.items }
    ensures found { result ≡ list_any (awaits place terms.now deadline)
        (arrivals_of (rows_of ledger.now.book.who ledger.now.book.events) spots.old.items) }
    ensures kept { arrivals_of (rows_of ledger.now.book.who ledger.now.book.events) spots.new.items
        ≡ map (arrival_found_at place terms.now deadline)
        (arrivals_of (rows_of ledger.now.book.who ledger.now.book.events) spots.old.items) }
    ensures spots { AreSpots (rows_of ledger.now.book.who ledger.now.book.events) spots.new.items }
{
    let _ = ledger.transfers();
    let Some(found) = ledger.find(place.owner, &terms.id) else {
        return false;
    };
    let Some(at) = spot_at(spots.as_slice(), found.position) else {
        return false;
    };
    let Spot { position, index } = spots[at];
    let entry = found.entry();
    if !awaits(&Arrival { entry, index }, place, terms, deadline) {
        return false;
    }
    let index = Some(place.index);
    spots[at] = Spot { position, index };
    true
}

/// Returns the booked outcome of the transfer at this position of the table, without hashing.
fn booked_at(ledger: &Ledger, position: usize) -> Option<Outcome>
    requires { position < length (rows_of ledger.now.book.who ledger.now.book.events) }
    ensures { result ≡ booked_at ledger.now.book.who ledger.now.book.events position }
{
    mention::<(Side, Transfer, Outcome)>();
    ledger.at(position).unwrap().transfer.outcome
}

/// Returns the live forwarded transfers in order of arrival. The history must end with an opening.
pub(crate) fn carried_arrivals(alloc: Global, ledger: &Ledger) -> Result<Vec<Spot>, AllocError>
    requires { carried ledger.now.book.events ≡ ledger.now.book.events }
    ensures ok { IfOk result (λ spots.
        arrivals_of (rows_of ledger.now.book.who ledger.now.book.events) spots.items
        ≡ map arrival_without_place (live_inbox ledger.now.book.events)) }
    ensures spots { IfOk result (λ spots.
        AreSpots (rows_of ledger.now.book.who ledger.now.book.events) spots.items) }
{
    let mut spots = Vec::new(alloc);
    let mut position = 0;
    for event in ledger.journal().events() {
        match event {
            Event::Taken { .. } => position += 1,
            Event::Forwarded { .. } => {
                if booked_at(ledger, position).is_none() {
                    let index = None;
                    spots.push(Spot { position, index })?;
                }
                position += 1;
            }
            _ => {}
        }
    }
    Ok(spots)
}
