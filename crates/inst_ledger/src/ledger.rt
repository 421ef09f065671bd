//! The ledger: its fields, how it opens, and reserving capacity.
ghost use Rattle.std.specs.Prelude.{◌≡◌, ◌<◌, ◌+◌, ◌*◌, [], ◌∷◌, ◌++◌, IfOk, OnOk};
ghost use Rattle.inst_settings.specs.Lawful.{IsSettings};
ghost use Rattle.inst_journal.specs.Opened.{HasOpeningsLeft};
ghost use Rattle.inst_journal.specs.Sound.{IsSound};

mod handling;
mod keeping;
mod reading;

use crate::references::References;
use crate::totals::Totals;
use inst_journal::{Event, Journal};
use inst_settings::Settings;
use inst_statement::KeptStatement;
use inst_transfers::Transfers;
use std::alloc::{AllocError, Global};
use std::marker::Model;

/// One participant's books: its history, with running totals, tables and the statement, so that no
/// command scans events.
#[derive(Drop)]
pub struct Ledger {
    settings: Box<Settings>,
    who: u8,
    journal: Journal,
    totals: Totals,
    table: Transfers,
    references: References,
    fundings: usize,
    inbox: Vec<usize>,
    read: usize,
    statement: KeptStatement,
}

impl Model for Ledger {
    ghost use Rattle.std.specs.Prelude.{min};
    ghost use Rattle.inst_ledger.specs.Beside.{IsLedger};
    ghost use Rattle.inst_ledger.specs.Book.{BookAndRoom};
    ghost use Rattle.inst_ledger.specs.References.{funding_at};

    ghost Value = { BookAndRoom };

    ghost view = { λ l. record {
      book = record { settings = l.settings.value; who = l.who; events = l.journal.events };
      table = l.table;
      room = min l.journal.room l.statement.room;
    } };

    ghost invariant = { λ l. IsLedger l.settings.value l.who l.journal.events l.totals l.table
        (funding_at l.references) l.fundings l.inbox.items l.read l.statement };
}

/// Copies the settings into a box, so that moving a ledger doesn't move them.
fn boxed(alloc: Global, settings: &Settings) -> Result<Box<Settings>, AllocError>
    ensures ok { IfOk result (λ b. b.value ≡ settings.now) }
    ensures lawful { IsSettings settings.now }
{
    Ok(Box::new(alloc, settings.copy()?)?)
}

/// Returns the most own live transfers of an opening and as many forwarded ones.
fn expected_transfers(settings: &Settings) -> usize
    ensures { result ≡ 2 * settings.now.places }
{
    2 * usize::from(settings.places())
}

/// Returns the events of that many transfers and outcomes, and of the most fundings of an opening.
fn expected_events(settings: &Settings) -> usize
    ensures { result ≡ 4 * settings.now.places + settings.now.fundings }
{
    4 * usize::from(settings.places()) + usize::from(settings.fundings())
}

impl Ledger {
    /// Returns a ledger of `who` with an empty history, and capacity for `room` events.
    fn with_room(
        alloc: Global,
        settings: &Settings,
        who: u8,
        room: usize,
    ) -> Result<Ledger, AllocError>
        ensures ok { IfOk result (λ l.
            l.book ≡ record { settings = settings.now; who = who; events = [] }) }
    {
        let journal = Journal::with_room(alloc, room)?;
        Ok(Ledger {
            settings: boxed(alloc, settings)?,
            who,
            journal,
            totals: Totals::new(),
            table: Transfers::new(alloc, who, expected_transfers(settings)),
            references: References::new(alloc),
            fundings: 0,
            inbox: Vec::new(alloc),
            read: 0,
            statement: KeptStatement::new(alloc),
        })
    }

    /// Opens a ledger of participant `who` with an empty history.
    ///
    /// It copies the settings, and reserves capacity for the events of an opening: 4 × places +
    /// fundings of them, each of 56 bytes. Events beyond that allocate.
    ///
    /// # Errors
    ///
    /// [`AllocError`] if the settings can't be copied or the capacity can't be allocated.
    pub fn open(alloc: Global, settings: &Settings, who: u8) -> Result<Ledger, AllocError>
        ensures ok { IfOk result (λ l.
            l.book ≡ record { settings = settings.now; who = who; events = [] }) }
    {
        Ledger::with_room(alloc, settings, who, expected_events(settings))
    }

    /// Opens the ledger of participant `who` again from its history.
    ///
    /// Copies the history, appends `Opened`, and reserves capacity for the events of one more
    /// opening. Requires a sound history of `who` with fewer than 500 openings. Cost: at most one
    /// hash look-up for each event.
    ///
    /// # Errors
    ///
    /// [`AllocError`] if the copy or the tables can't be allocated; the journal is unchanged.
    pub fn open_from(
        alloc: Global,
        settings: &Settings,
        who: u8,
        journal: &Journal,
    ) -> Result<Ledger, AllocError>
        requires sound { IsSound settings.now who journal.now.events }
        requires few { HasOpeningsLeft journal.now.events }
        ensures ok { IfOk result (λ l. l.book ≡ record {
          settings = settings.now;
          who = who;
          events = journal.now.events ++ Event.Opened ∷ [];
        }) }
    {
        let kept = journal.events().len();
        let room = kept.saturating_add(expected_events(settings));
        let mut ledger = Ledger::with_room(alloc, settings, who, room)?;
        ledger.carry(journal)?;
        Ok(ledger)
    }

    /// Appends all events of a history to an empty one, then `Opened`.
    fn carry(&mut self, journal: &Journal) -> Result<(), AllocError>
        requires blank { self.old.book.events ≡ [] }
        requires sound { IsSound self.old.book.settings self.old.book.who journal.now.events }
        requires few { HasOpeningsLeft journal.now.events }
        ensures ok { OnOk result (self.new.book
            ≡ record self.old.book { events = journal.now.events ++ Event.Opened ∷ [] }) }
    {
        self.keep_all(journal)?;
        self.keep(Event::Opened)
    }

    /// Appends all events of a history to an empty one. On allocation failure the events before the
    /// failure stay.
    fn keep_all(&mut self, journal: &Journal) -> Result<(), AllocError>
        requires blank { self.old.book.events ≡ [] }
        requires sound { IsSound self.old.book.settings self.old.book.who journal.now.events }
        ensures ok { OnOk result (self.new.book
            ≡ record self.old.book { events = journal.now.events }) }
    {
        for event in journal.events() {
            self.keep(*event)?;
        }
        Ok(())
    }

    /// Returns the participant's history.
    pub fn journal(&self) -> &Journal
        ensures events { result.now.events ≡ self.now.book.events }
        ensures lawful { IsSettings self.now.book.settings }
        ensures sound { IsSound self.now.book.settings self.now.book.who self.now.book.events }
    {
        &self.journal
    }

    /// Reserves capacity for one booking, fetch or opening event.
    ///
    /// # Errors
    ///
    /// [`AllocError`] if it can't be allocated; only the capacity may have changed.
    pub fn reserve(&mut self) -> Result<(), AllocError>
        ensures book { self.new.book ≡ self.old.book }
        ensures table { self.new.table ≡ self.old.table }
        ensures room { OnOk result (0 < self.new.room) }
    {
        self.journal.reserve()?;
        self.statement.reserve()
    }
}
