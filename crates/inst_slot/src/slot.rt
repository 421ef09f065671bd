//! The slot: its fields, opening an empty one, and lookups.
ghost use Rattle.std.specs.Prelude.{◌≡◌, [], IfOk, IfSome, IsTrue, position};
ghost use Rattle.inst_settings.specs.Lawful.{IsSettings};
ghost use Rattle.inst_settings.specs.Settings.{is_participant};
ghost use Rattle.inst_journal.specs.Booked.{takes};
ghost use Rattle.inst_journal.specs.Opened.{live_taken};
ghost use Rattle.inst_journal.specs.Sound.{IsSound};
ghost use Rattle.inst_ledger.specs.Beneficiary.{beneficiary_of};
ghost use Rattle.inst_slot.specs.Book.{place_of, arrived_at};

mod arrived;
mod asking;
mod expiring;
mod learning;
mod opening;
mod reading;
mod telling;

use crate::arrivals::{Spot, arrived_at};
use crate::waiting::Waiting;
use inst_base::{Ident, mention};
use inst_command::{Outcome, Place};
use inst_journal::Journal;
use inst_ledger::Ledger;
use inst_settings::Settings;
use inst_transfers::{Side, Transfer};
use std::alloc::{AllocError, Global};
use std::marker::Model;

/// The books of one participant, over a board whose holder has its role.
///
/// ```text
/// let mut slot = Slot::open(alloc, &settings, 1)?;
/// slot.deliver(&mut board, place)?   // true: a transfer was forwarded
/// slot.apply(&mut board, &confirm)?  // its state, decided
/// ```
///
/// Calls that require a lawful board (`IsLawfulBoard`) require that its holder has the
/// participant's role and that the books fit what the holder knows. Each call keeps this, for this
/// slot and the others.
#[derive(Drop)]
pub struct Slot {
    alloc: Global,
    ledger: Ledger,
    arrivals: Vec<Spot>,
    waiting: Waiting,
}

impl Model for Slot {
    ghost use Rattle.inst_slot.specs.Book.{Book};
    ghost use Rattle.inst_ledger.specs.Right.{own_ids};
    ghost use Rattle.inst_slot.specs.Spots.{rows_of, arrivals_of, AreSpots};
    ghost use Rattle.inst_slot.specs.Waiting.{IsRightSlot};

    ghost Value = { Book };

    ghost view = { λ slot. record {
      settings = slot.ledger.book.settings;
      who = slot.ledger.book.who;
      events = slot.ledger.book.events;
      arrivals =
          arrivals_of (rows_of slot.ledger.book.who slot.ledger.book.events) slot.arrivals.items;
    } };

    ghost invariant = { λ slot. IsRightSlot slot.ledger.book.settings slot.ledger.book.who
        slot.ledger.book.events
        (own_ids slot.ledger.book.who slot.ledger.book.events) slot.waiting
        × AreSpots (rows_of slot.ledger.book.who slot.ledger.book.events) slot.arrivals.items };
}

impl Slot {
    /// Opens the slot of participant `who` with an empty history. It copies the settings.
    ///
    /// # Errors
    ///
    /// [`AllocError`] if the ledger can't be allocated.
    pub fn open(alloc: Global, settings: &Settings, who: u8) -> Result<Slot, AllocError>
        ensures ok { IfOk result (λ slot. (slot.settings ≡ settings.now) × (slot.who ≡ who)
            × (slot.events ≡ []) × (slot.arrivals ≡ [])) }
    {
        Ok(Slot {
            alloc,
            ledger: Ledger::open(alloc, settings, who)?,
            arrivals: Vec::new(alloc),
            waiting: Waiting::new(alloc),
        })
    }

    /// Returns the participant's history.
    pub fn journal(&self) -> &Journal
        ensures events { result.now.events ≡ self.now.events }
        ensures lawful { IsSettings self.now.settings }
        ensures sound { IsSound self.now.settings self.now.who result.now.events }
    {
        self.ledger.journal()
    }

    /// Returns the hub's settings.
    pub fn settings(&self) -> &Settings
        ensures settings { result.now ≡ self.now.settings }
        ensures lawful { IsSettings self.now.settings }
    {
        self.ledger.settings()
    }

    /// Returns the participant's number.
    pub fn who(&self) -> u8
        ensures { result ≡ self.now.who }
    {
        self.ledger.who()
    }

    /// Returns the beneficiary of the participant's own transfer with this identifier.
    pub fn beneficiary_of(&self, id: &Ident) -> Option<u8>
        ensures value { result ≡ beneficiary_of id.now self.now.events }
        ensures participant { IfSome result (λ to. IsTrue (is_participant self.now.settings to)) }
    {
        self.ledger.beneficiary_of(id)
    }

    /// Returns the index of the place of the own live transfer with this identifier.
    fn own_index(&self, id: &Ident) -> Option<u16>
        ensures { result ≡ position (takes id.now) (live_taken self.now.who self.now.events) }
    {
        self.ledger.own_index(id)
    }

    /// Returns the index of the place from which this transfer was forwarded.
    fn arrived_at(&self, from: u8, id: &Ident) -> Option<u16>
        ensures { result ≡ arrived_at from id.now self.now.arrivals }
    {
        mention::<(Side, Transfer, Outcome)>();
        let found = self.ledger.find(from, id)?;
        arrived_at(&self.ledger, self.arrivals.as_slice(), &found)
    }

    /// Returns the place of a live transfer of the originator `from`: an own one, or a forwarded
    /// one whose place is known.
    pub fn place_of(&self, from: u8, id: &Ident) -> Option<Place>
        ensures { result ≡ place_of self.now from id.now }
    {
        let index = if from == self.who() {
            self.own_index(id)?
        } else {
            self.arrived_at(from, id)?
        };
        Some(Place { owner: from, index })
    }
}
