//! Opening a slot again from its books, and adopting the transfers that were forwarded before.
ghost use Rattle.std.specs.Prelude.{◌≡◌, ◌≤◌, true, map, IfOk, OnErr, IsTrue};
ghost use Rattle.inst_settings.specs.Settings.{is_participant};
ghost use Rattle.inst_board.specs.declared.about.About.TheVariants.{Opened};
ghost use Rattle.inst_board.specs.declared.look.Look.{Look};
ghost use Rattle.inst_command.specs.declared.place.Place.{Place};
ghost use Rattle.inst_board.specs.Learning.{Looks, Learns, KnowsTruly};
ghost use Rattle.inst_board.specs.Standing.{IsPlace, about, pending};
ghost use Rattle.inst_journal.specs.Opened.{carried, live_taken};
ghost use Rattle.inst_journal.specs.Sound.{IsSound};
ghost use Rattle.inst_slot.specs.Book.{place_at, live_inbox};
ghost use Rattle.inst_slot.specs.LawfulBoard.{IsLawfulBoard, KeepsLawful, LeavesOthers};
ghost use Rattle.inst_slot.specs.Opening.{opened_again, MayOpenAgain, IsReopenable, OpensAgain};
ghost use Rattle.inst_slot.specs.Opening.{OpensPlaces, finds_carried};
ghost use Rattle.inst_slot.specs.Opening.{with_found, unfound, arrival_without_place};
ghost use Rattle.inst_slot.specs.Spots.{rows_of, arrivals_of, AreSpots};
ghost use Rattle.inst_slot.specs.Waiting.{IsWaiting};

use super::Slot;
use crate::arrivals::{Spot, carried_arrivals, find_at};
use crate::waiting::{Waiting, carried_waiting};
use inst_base::Moment;
use inst_board::{Board, Look};
use inst_command::Place;
use inst_journal::{Event, Journal};
use inst_ledger::Ledger;
use inst_settings::Settings;
use inst_terms::Terms;
use std::alloc::{AllocError, Global};

impl Slot {
    /// Opens the slot of participant `who` again from its history.
    ///
    /// Its own live transfers get the first places, in the order in which they were taken, and are
    /// pending there. The places of forwarded live transfers are unknown until
    /// [`adopt`](Slot::adopt) finds them. Scans the history.
    ///
    /// Requires a sound history of `who`, a participant, with fewer than 500 openings; and a board
    /// whose holder has its role and knows none of its places as opened, and no acceptance or
    /// rejection of a transfer to it (`MayOpenAgain`).
    ///
    /// # Errors
    ///
    /// [`AllocError`] if the slot can't be allocated; the board is unchanged.
    pub fn open_from<B: Board>(
        alloc: Global,
        settings: &Settings,
        who: u8,
        board: &mut B,
        journal: &Journal,
    ) -> Result<Slot, AllocError>
        requires participant { is_participant settings.now who ≡ true }
        requires books { IsReopenable settings.now who journal.now.events }
        requires board { MayOpenAgain B.settings B.knows B.has_role board.old settings.now who }
        ensures ok { IfOk result (λ slot. OpensAgain B.settings B.knows B.has_role board.old
            settings.now who journal.now.events board.new slot) }
        ensures err { OnErr result (board.new ≡ board.old) }
        ensures rest { LeavesOthers B.settings B.knows B.has_role B.stays board.old who board.new }
    {
        let slot = Slot::carry(alloc, settings, who, journal)?;
        slot.open_places(board);
        Ok(slot)
    }

    /// Returns the slot opened again from a history, without opening its places on a board.
    fn carry(
        alloc: Global,
        settings: &Settings,
        who: u8,
        journal: &Journal,
    ) -> Result<Slot, AllocError>
        requires books { IsReopenable settings.now who journal.now.events }
        ensures ok { IfOk result (λ slot. slot ≡ opened_again settings.now who journal.now.events) }
    {
        let ledger = Ledger::open_from(alloc, settings, who, journal)?;
        let (arrivals, waiting) = carried_over(alloc, &ledger)?;
        Ok(Slot {
            alloc,
            ledger,
            arrivals,
            waiting,
        })
    }

    /// Writes the terms of an own place to the board, and opens it.
    pub(super) fn open_place<B: Board>(
        &self,
        board: &mut B,
        index: u16,
        terms: &Terms,
        deadline: Moment,
    )
        requires place { IsPlace (B.settings board.old) (place_at self.now.who index) }
        requires beneficiary { IsTrue (is_participant (B.settings board.old) terms.now.to) }
        requires own { B.has_role board.old self.now.who }
        requires unused { ¬ B.knows board.old (about (place_at self.now.who index) Opened) }
        requires deadline { 1 ≤ deadline }
        ensures opens { Learns (B.settings board.old).margin B.knows board.old
            (place_at self.now.who index) (pending terms.now deadline) board.new }
        ensures stays { B.stays board.old board.new }
    {
        let place = Place {
            owner: self.who(),
            index,
        };
        board.write_terms(place, terms);
        board.open(place, deadline);
    }

    /// Opens the places of the own live transfers on a board.
    ///
    /// They get the participant's first places, in the order in which they were taken, and are
    /// pending there. `open_from` calls this, and so does a hub that moves a slot to another board
    /// while it opens. Scans the history; allocates nothing.
    ///
    /// Requires that the history ends with an opening, and a board as for
    /// [`open_from`](Slot::open_from).
    pub fn open_places<B: Board>(&self, board: &mut B)
        requires participant { is_participant self.now.settings self.now.who ≡ true }
        requires opened { carried self.now.events ≡ self.now.events }
        requires board { MayOpenAgain B.settings B.knows B.has_role board.old self.now.settings
            self.now.who }
        ensures opens { OpensPlaces B.knows self.now.settings self.now.who
            (live_taken self.now.who self.now.events) board.old board.new }
        ensures truly { (k : Place) → KnowsTruly self.now.settings.margin B.knows board.new k }
        ensures rest { LeavesOthers B.settings B.knows B.has_role B.stays board.old self.now.who
            board.new }
    {
        let mut index = 0;
        for event in self.ledger.journal().events() {
            if let Event::Taken {
                id,
                to,
                cents,
                stamp,
            } = event
            {
                if self.ledger.booked(self.who(), id).is_none() {
                    let terms = Terms {
                        to: *to,
                        cents: *cents,
                        id: *id,
                    };
                    let deadline = stamp.deadline(self.settings().limit());
                    self.open_place(board, index, &terms, deadline);
                    index += 1;
                }
            }
        }
    }

    /// Returns the number of carried transfers that aren't adopted yet. Visits each arrival once.
    pub fn unfound(&self) -> usize
        ensures { result ≡ unfound self.now }
    {
        self.arrivals
            .iter()
            .filter(|spot| spot.index.is_none())
            .count()
    }

    /// Adopts the carried transfer that is pending at the place.
    ///
    /// Returns `true` if the place shows a transfer with the identifier, amount and deadline of an
    /// arrival whose place wasn't known. Allocates nothing. Requires a lawful board (see [`Slot`]).
    pub fn adopt<B: Board>(&mut self, board: &mut B, place: Place) -> bool
        requires lawful { IsLawfulBoard B.settings B.knows B.has_role board.old self.old }
        ensures finds { (look : Look)
            × Looks (B.settings board.old).margin B.knows B.has_role B.stood board.old place look
            board.new
            × (result ≡ finds_carried self.old place look)
            × (self.new ≡ with_found self.old place look) }
        ensures law { KeepsLawful B.settings B.knows B.has_role B.stays board.old self.old
            board.new self.new }
    {
        let look = board.look(place);
        self.find(place, &look)
    }

    /// Stores the place of the carried transfer that a look shows.
    fn find(&mut self, place: Place, look: &Look) -> bool
        ensures found { result ≡ finds_carried self.old place look.now }
        ensures kept { self.new ≡ with_found self.old place look.now }
        ensures sound { IsSound self.old.settings self.old.who self.old.events }
    {
        match look {
            Look::Pending(terms, deadline) => {
                terms.to == self.who()
                    && find_at(&self.ledger, &mut self.arrivals, place, terms, *deadline)
            }
            Look::Unused | Look::Decided(..) => false,
        }
    }
}

/// Returns the arrivals and the deadlines that are live in books that end with an opening.
fn carried_over(alloc: Global, ledger: &Ledger) -> Result<(Vec<Spot>, Waiting), AllocError>
    requires { carried ledger.now.book.events ≡ ledger.now.book.events }
    ensures arrived { IfOk result (λ live.
        arrivals_of (rows_of ledger.now.book.who ledger.now.book.events) live.0.items
        ≡ map arrival_without_place (live_inbox ledger.now.book.events)) }
    ensures spots { IfOk result (λ live.
        AreSpots (rows_of ledger.now.book.who ledger.now.book.events) live.0.items) }
    ensures waits { IfOk result (λ live.
        IsWaiting ledger.now.book.settings ledger.now.book.who ledger.now.book.events live.1) }
{
    Ok((
        carried_arrivals(alloc, ledger)?,
        carried_waiting(alloc, ledger)?,
    ))
}
