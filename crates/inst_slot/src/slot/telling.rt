//! Delivering pending transfers to the slot's participant.
ghost use Rattle.std.specs.Prelude.{◌≡◌, true, is_some, OnErr, OnOk, Some};
ghost use Rattle.inst_board.specs.declared.look.Look.{Look};
ghost use Rattle.inst_board.specs.Learning.{Looks};
ghost use Rattle.inst_journal.specs.Sound.{IsSound, Fits};
ghost use Rattle.inst_journal.specs.declared.event.Event.{Event};
ghost use Rattle.inst_slot.specs.LawfulBoard.{IsLawfulBoard, KeepsLawful, AllAreAdopted};
ghost use Rattle.inst_slot.specs.Telling.{delivery, with_delivery, Keeps};

use super::Slot;
use crate::arrivals::Spot;
use inst_board::{Board, Look};
use inst_command::{Entry, Place};
use std::alloc::AllocError;

impl Slot {
    /// Returns the entry of the transfer that a look at the place delivers.
    fn delivery(&self, place: Place, look: &Look) -> Option<Entry>
        ensures entry { result ≡ delivery self.now place look.now }
        ensures sound { IsSound self.now.settings self.now.who self.now.events }
    {
        match look {
            Look::Pending(terms, deadline) => {
                let is_new = !self.ledger.is_forwarded(place.owner, &terms.id);
                if terms.to == self.who() && is_new {
                    Some(Entry {
                        from: place.owner,
                        id: terms.id,
                        cents: terms.cents,
                        deadline: *deadline,
                    })
                } else {
                    None
                }
            }
            _ => None,
        }
    }

    /// Appends that the transfer was forwarded from the place. On allocation failure the slot is
    /// unchanged.
    fn forward(&mut self, place: Place, entry: Entry) -> Result<(), AllocError>
        requires fits { Fits self.old.settings self.old.who self.old.events
            (Event.Forwarded entry.from entry.id entry.cents entry.deadline) }
        ensures ok { OnOk result (self.new ≡ with_delivery self.old place (Some entry)) }
        ensures err { OnErr result (self.new ≡ self.old) }
    {
        let index = Some(place.index);
        let position = self.ledger.transfers();
        self.arrivals.try_reserve(1)?;
        self.ledger.keep_forwarded(entry)?;
        self.arrivals.push_reserved(Spot { position, index });
        Ok(())
    }

    /// Forwards the transfer pending at the place, if the participant is its beneficiary and
    /// doesn't have it yet. Returns `true` if a transfer was forwarded.
    ///
    /// Requires a lawful board (see [`Slot`]), and that all carried transfers are adopted.
    ///
    /// # Errors
    ///
    /// [`AllocError`] if the transfer can't be stored; the slot is unchanged.
    pub fn deliver<B: Board>(&mut self, board: &mut B, place: Place) -> Result<bool, AllocError>
        requires lawful { IsLawfulBoard B.settings B.knows B.has_role board.old self.old }
        requires adopted { AllAreAdopted self.old }
        ensures delivers { (look : Look)
            × Looks (B.settings board.old).margin B.knows B.has_role B.stood board.old place look
            board.new
            × Keeps (is_some (delivery self.old place look)) self.old
            (with_delivery self.old place (delivery self.old place look)) result self.new }
        ensures law { KeepsLawful B.settings B.knows B.has_role B.stays board.old self.old
            board.new self.new }
    {
        let look = board.look(place);
        match self.delivery(place, &look) {
            None => Ok(false),
            Some(entry) => {
                self.forward(place, entry)?;
                Ok(true)
            }
        }
    }
}
