//! Forwarded transfers without a booked outcome.
ghost use Rattle.std.specs.Prelude.{◌≡◌, ◌<◌, ◌^◌, length};
ghost use Rattle.inst_journal.specs.Sound.{IsSound};
ghost use Rattle.inst_slot.specs.Arrived.{unbooked_place, GivesUnbooked};
ghost use Rattle.inst_slot.specs.Spots.{rows_of, arrival_of};

use super::Slot;
use crate::arrivals::Spot;
use inst_command::Place;

impl Slot {
    /// Returns the place of the arrival if it has no booked outcome and its place is known. Doesn't
    /// hash.
    fn unbooked_place(&self, spot: &Spot) -> Option<Place>
        requires { spot.now.position < length (rows_of self.now.who self.now.events) }
        ensures { result ≡ unbooked_place self.now
            (arrival_of (rows_of self.now.who self.now.events) spot.now) }
    {
        let found = self.ledger.at(spot.position)?;
        if found.transfer.outcome.is_some() {
            return None;
        }
        let index = spot.index?;
        let owner = found.from;
        Some(Place { owner, index })
    }

    /// Returns the first arrival at this position or later that has no booked outcome and a known
    /// place.
    ///
    /// The result is its position in order of arrival, counted from 0, and its place. Costs one
    /// step per arrival passed over.
    pub fn unbooked_from(&self, position: usize) -> Option<(usize, Place)>
        ensures next { GivesUnbooked self.now position result }
        ensures few { length self.now.arrivals < 2 ^ 64 }
        ensures sound { IsSound self.now.settings self.now.who self.now.events }
    {
        let spots = self.arrivals.as_slice();
        for at in position..spots.len() {
            if let Some(place) = self.unbooked_place(&spots[at]) {
                return Some((at, place));
            }
        }
        None
    }
}
