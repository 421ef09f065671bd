//! Deadlines of own transfers, and their expiry.
ghost use Rattle.std.specs.Prelude.{◌≡◌, Some};
ghost use Rattle.inst_slot.specs.LawfulBoard.{IsLawfulBoard, KeepsLawful};
ghost use Rattle.inst_slot.specs.inner.Answering.{book_with_spots};
ghost use Rattle.inst_slot.specs.inner.Expiries.{IsUnbooked, FindsUnbooked};
ghost use Rattle.inst_ledger.specs.Right.{own_ids};
ghost use Rattle.inst_slot.specs.Spots.{rows_of, AreSpots};
ghost use Rattle.inst_slot.specs.Telling.{ExpiresFor, Expires};
ghost use Rattle.inst_slot.specs.Waiting.{GivesNextDue, IsRightSlot};

use super::Slot;
use crate::arrivals::Spot;
use crate::booking::book;
use crate::finding::find;
use crate::waiting::Waiting;
use inst_base::Moment;
use inst_board::{Board, Wish};
use inst_command::Place;
use inst_ledger::Ledger;
use inst_transfers::Found;
use std::alloc::AllocError;

impl Slot {
    /// Returns the next own live transfer without a booked outcome after `pair`, by deadline, then
    /// by index.
    ///
    /// A pair is a deadline, in milliseconds since base, and the index of a place. With `None` it
    /// returns the first of all. Costs O(log n) of their number.
    pub fn due_after(&self, pair: Option<(Moment, u16)>) -> Option<(Moment, u16)>
        ensures { GivesNextDue self.now pair result }
    {
        self.waiting.after(pair)
    }

    /// Expires the own live transfer at this index at clock reading `at`, if it is due, and books
    /// its outcome.
    ///
    /// Returns `true` if an outcome was booked, whatever it is: a transfer that is already decided
    /// keeps its outcome. Returns `false` if the transfer stays pending, is booked already or
    /// doesn't exist.
    ///
    /// Requires a lawful board (see [`Slot`]).
    ///
    /// # Errors
    ///
    /// [`AllocError`] if the event can't be stored; the slot is unchanged, and nothing was decided.
    pub fn expire<B: Board>(
        &mut self,
        board: &mut B,
        index: u16,
        at: Moment,
    ) -> Result<bool, AllocError>
        requires lawful { IsLawfulBoard B.settings B.knows B.has_role board.old self.old }
        ensures expires { Expires (B.settings board.old).margin B.knows B.has_role B.stood B.stays
            board.old self.old index at result board.new self.new }
        ensures law { KeepsLawful B.settings B.knows B.has_role B.stays board.old self.old
            board.new self.new }
    {
        match unbooked_at(&self.ledger, index) {
            Some(found) => let_expire(
                &mut self.ledger,
                &mut self.waiting,
                board,
                &found,
                index,
                at,
                self.arrivals.as_slice(),
            ),
            None => Ok(false),
        }
    }
}

/// Returns the own live transfer at this index if it has no booked outcome. Doesn't hash.
pub(super) fn unbooked_at(ledger: &Ledger, index: u16) -> Option<Found>
    ensures { FindsUnbooked ledger.now index result }
{
    let found = ledger.own_found(index)?;
    if found.transfer.outcome.is_some() {
        return None;
    }
    Some(found)
}

/// Expires the transfer found. All capacity is reserved before the board decides; nothing fails
/// after the decision.
fn let_expire<B: Board>(
    ledger: &mut Ledger,
    waiting: &mut Waiting,
    board: &mut B,
    found: &Found,
    index: u16,
    at: Moment,
    arrivals: &[Spot],
) -> Result<bool, AllocError>
    requires lawful { IsLawfulBoard B.settings B.knows B.has_role board.old
        (book_with_spots ledger.old.book arrivals.now) }
    requires unbooked { IsUnbooked ledger.old index found.now }
    requires spots { AreSpots (rows_of ledger.old.book.who ledger.old.book.events) arrivals.now }
    requires right { IsRightSlot ledger.old.book.settings ledger.old.book.who ledger.old.book.events
        (own_ids ledger.old.book.who ledger.old.book.events) waiting.old }
    ensures expires { ExpiresFor (B.settings board.old).margin B.knows B.has_role B.stood B.stays
        board.old
        (book_with_spots ledger.old.book arrivals.now) index at (Some found.now.id) result board.new
        (book_with_spots ledger.new.book arrivals.now) }
    ensures right { IsRightSlot ledger.new.book.settings ledger.new.book.who ledger.new.book.events
        (own_ids ledger.new.book.who ledger.new.book.events) waiting.new }
    ensures spots { AreSpots (rows_of ledger.new.book.who ledger.new.book.events) arrivals.now }
    ensures stays { B.stays board.old board.new }
{
    let place = Place {
        owner: ledger.who(),
        index,
    };
    let margin = ledger.settings().margin();
    match find(ledger, board, margin, place, Wish::Expire, at)? {
        None => Ok(false),
        Some(outcome) => {
            book(ledger, waiting, found, index, &outcome)?;
            Ok(true)
        }
    }
}
