//! Learning the outcomes of the participant's transfers from the board.
ghost use Rattle.std.specs.Prelude.{◌≡◌, is_some, IfSome};
ghost use Rattle.inst_board.specs.declared.look.Look.{Look};
ghost use Rattle.inst_board.specs.Learning.{Looks};
ghost use Rattle.inst_slot.specs.inner.Answering.{book_with_spots};
ghost use Rattle.inst_slot.specs.inner.Expiries.{IsUnbooked};
ghost use Rattle.inst_ledger.specs.Right.{own_ids};
ghost use Rattle.inst_slot.specs.LawfulBoard.{IsLawfulBoard, KeepsLawful};
ghost use Rattle.inst_slot.specs.inner.Resolutions.{LearnsOutcome};
ghost use Rattle.inst_slot.specs.Spots.{rows_of, AreSpots};
ghost use Rattle.inst_slot.specs.Telling.{resolution, with_event, Keeps};
ghost use Rattle.inst_slot.specs.Waiting.{IsRightSlot};

use super::Slot;
use super::expiring::unbooked_at;
use crate::arrivals::Spot;
use crate::booking::book;
use crate::resolution::{Resolution, resolution_of};
use crate::waiting::Waiting;
use inst_board::{Board, PlaceState};
use inst_command::Place;
use inst_ledger::Ledger;
use inst_transfers::Found;
use std::alloc::AllocError;

impl Slot {
    /// Books the outcome at a place, if it is decided, the participant's and not booked yet.
    /// Returns `true` if an outcome was booked.
    ///
    /// Requires a lawful board (see [`Slot`]).
    ///
    /// # Errors
    ///
    /// [`AllocError`] if the event can't be stored; the slot is unchanged.
    pub fn learn<B: Board>(&mut self, board: &mut B, place: Place) -> Result<bool, AllocError>
        requires lawful { IsLawfulBoard B.settings B.knows B.has_role board.old self.old }
        ensures learns { (look : Look)
            × Looks (B.settings board.old).margin B.knows B.has_role B.stood board.old place look
            board.new
            × Keeps (is_some (resolution self.old place look)) self.old
            (with_event self.old (resolution self.old place look)) result self.new }
        ensures law { KeepsLawful B.settings B.knows B.has_role B.stays board.old self.old
            board.new self.new }
    {
        match own_unbooked(&self.ledger, place) {
            Some(found) => learn_own(
                &mut self.ledger,
                &mut self.waiting,
                board,
                &found,
                place,
                self.arrivals.as_slice(),
            ),
            None => self.learn_by_look(board, place),
        }
    }

    /// Books the outcome at a place of any originator.
    fn learn_by_look<B: Board>(&mut self, board: &mut B, place: Place) -> Result<bool, AllocError>
        requires lawful { IsLawfulBoard B.settings B.knows B.has_role board.old self.old }
        ensures learns { LearnsOutcome (B.settings board.old).margin B.knows B.has_role B.stood
            board.old self.old place result board.new self.new }
        ensures law { KeepsLawful B.settings B.knows B.has_role B.stays board.old self.old
            board.new self.new }
    {
        let look = board.look(place);
        match resolution_of(&self.ledger, self.arrivals.as_slice(), place, &look) {
            None => Ok(false),
            Some(Resolution { found, outcome }) => {
                book(
                    &mut self.ledger,
                    &mut self.waiting,
                    &found,
                    place.index,
                    &outcome,
                )?;
                Ok(true)
            }
        }
    }
}

/// Returns the own live transfer at the place if it has no booked outcome. Doesn't hash.
fn own_unbooked(ledger: &Ledger, place: Place) -> Option<Found>
    ensures owner { IfSome result (λ found. place.owner ≡ ledger.now.book.who) }
    ensures unbooked { IfSome result (λ found. IsUnbooked ledger.now place.index found) }
{
    if place.owner != ledger.who() {
        return None;
    }
    unbooked_at(ledger, place.index)
}

/// Books the outcome of the own live transfer found, if it is decided. Its terms are known, so the
/// board isn't asked for them, and nothing is hashed.
fn learn_own<B: Board>(
    ledger: &mut Ledger,
    waiting: &mut Waiting,
    board: &mut B,
    found: &Found,
    place: Place,
    arrivals: &[Spot],
) -> Result<bool, AllocError>
    requires lawful { IsLawfulBoard B.settings B.knows B.has_role board.old
        (book_with_spots ledger.old.book arrivals.now) }
    requires owner { place.owner ≡ ledger.old.book.who }
    requires unbooked { IsUnbooked ledger.old place.index found.now }
    requires spots { AreSpots (rows_of ledger.old.book.who ledger.old.book.events) arrivals.now }
    requires right { IsRightSlot ledger.old.book.settings ledger.old.book.who ledger.old.book.events
        (own_ids ledger.old.book.who ledger.old.book.events) waiting.old }
    ensures learns { LearnsOutcome (B.settings board.old).margin B.knows B.has_role B.stood
        board.old
        (book_with_spots ledger.old.book arrivals.now) place result board.new
        (book_with_spots ledger.new.book arrivals.now) }
    ensures right { IsRightSlot ledger.new.book.settings ledger.new.book.who ledger.new.book.events
        (own_ids ledger.new.book.who ledger.new.book.events) waiting.new }
    ensures spots { AreSpots (rows_of ledger.new.book.who ledger.new.book.events) arrivals.now }
    ensures stays { B.stays board.old board.new }
{
    match board.place_state(place) {
        PlaceState::Decided(outcome) => {
            book(ledger, waiting, found, place.index, &outcome)?;
            Ok(true)
        }
        PlaceState::Unused => Ok(false),
        PlaceState::Pending(_) => Ok(false),
    }
}
