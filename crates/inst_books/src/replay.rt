//! Replaying a history event by event.
ghost use Rattle.std.specs.Prelude.{◌≡◌, ◌≢◌, ◌↔◌, ◌<◌, ◌≤◌, true, [], IfOk, OnOk, OnErr, IsTrue};
ghost use Rattle.inst_settings.specs.Settings.{is_participant, is_within_ceiling};
ghost use Rattle.inst_journal.specs.Money.{available};
ghost use Rattle.inst_journal.specs.Opened.{live_submissions, live_forwarded};
ghost use Rattle.inst_journal.specs.Sound.{Fits, FundedFits, TakenFits, ForwardedFits, BookedFits};
ghost use Rattle.inst_journal.specs.Sound.{FetchedFits, OpenedFits};
ghost use Rattle.inst_ledger.specs.Book.{ledger_with_event};

use crate::tally::LiveCounts;
use inst_base::{Cents, Ident, Moment};
use inst_command::{Funding, is_count};
use inst_journal::{Event, MOST_OPENINGS};
use inst_ledger::Ledger;
use inst_settings::Settings;
use std::alloc::{AllocError, Global};
use std::marker::Model;

/// The books of one participant, replayed event by event; each event is checked before it is kept.
///
/// In addition to the ledger it counts what only a replay needs; a running hub would spend memory
/// and time on it for nothing.
///
/// ```text
/// let mut replay = Replay::open(alloc, &settings, who)?;
/// replay.may_keep(&event) // true if the event can come next in this history
/// replay.keep(event)?     // only if it may
/// ```
#[derive(Drop)]
pub struct Replay {
    ledger: Ledger,
    tally: LiveCounts,
}

impl Model for Replay {
    ghost use Rattle.inst_ledger.specs.Book.{LedgerBook};
    ghost use Rattle.inst_books.specs.Tally.{IsTally};

    ghost Value = { LedgerBook };

    ghost view = { λ r. r.ledger.book };

    ghost invariant = { λ r. IsTally r.ledger.book.who r.ledger.book.events r.tally };
}

impl Replay {
    /// Opens a replay of participant `who` without events. It copies the settings.
    ///
    /// # Errors
    ///
    /// [`AllocError`] if the ledger can't be allocated.
    pub fn open(alloc: Global, settings: &Settings, who: u8) -> Result<Replay, AllocError>
        ensures ok { IfOk result (λ r.
            r ≡ record { settings = settings.now; who = who; events = [] }) }
    {
        Ok(Replay {
            ledger: Ledger::open(alloc, settings, who)?,
            tally: LiveCounts::new(),
        })
    }

    /// Returns `true` if the funding may come next, leaving aside the available amount.
    fn may_fund(&self, funding: &Funding) -> bool
        ensures { IsTrue result ↔ FundedFits self.now.settings self.now.events funding.now }
    {
        let settings = self.ledger.settings();
        !self.ledger.has_reference(&funding.reference)
            && self.ledger.fundings() < usize::from(settings.fundings())
            && settings.allows(funding.cents.get())
    }

    /// Returns `true` if another participant has this number.
    fn is_another(&self, number: u8) -> bool
        ensures { IsTrue result ↔
            ((is_participant self.now.settings number ≡ true) × (number ≢ self.now.who)) }
    {
        self.ledger.settings().has_participant(number) && number != self.ledger.who()
    }

    /// Returns `true` if the amount is available.
    fn covers(&self, cents: Cents) -> bool
        ensures { IsTrue result ↔ (cents ≤ available self.now.events) }
    {
        u128::from(cents.get()) <= self.ledger.available()
    }

    /// Returns `true` if there is a place for one more submission and its amount may be reserved.
    fn may_reserve(&self, cents: Cents) -> bool
        ensures { IsTrue result ↔
            ((live_submissions self.now.who self.now.events < self.now.settings.places)
            × (is_within_ceiling self.now.settings cents ≡ true)
            × (cents ≤ available self.now.events)) }
    {
        let settings = self.ledger.settings();
        self.ledger.live_submissions() < usize::from(settings.places())
            && settings.allows(cents.get())
            && self.covers(cents)
    }

    /// Returns `true` if the submission may come next.
    fn may_take(&self, id: &Ident, to: u8, cents: Cents, stamp: Moment) -> bool
        ensures { IsTrue result ↔
            TakenFits self.now.settings self.now.who self.now.events id.now to cents stamp }
    {
        self.is_another(to)
            && stamp.has_deadline(self.ledger.settings().limit())
            && !self.ledger.is_taken(id)
            && self.may_reserve(cents)
    }

    /// Returns the number of live transfers that were forwarded from another originator.
    fn live_forwarded(&self, from: u8) -> usize
        requires { from ≢ self.now.who }
        ensures { result ≡ live_forwarded from self.now.events }
    {
        self.tally.live[usize::from(from)]
    }

    /// Returns `true` if this forwarding may come next.
    fn may_forward(&self, from: u8, id: &Ident) -> bool
        ensures { IsTrue result ↔
            ForwardedFits self.now.settings self.now.who self.now.events from id.now }
    {
        self.is_another(from)
            && !self.ledger.is_forwarded(from, id)
            && self.live_forwarded(from) < usize::from(self.ledger.settings().places())
    }

    /// Returns `true` if the outcome of this transfer may be booked next.
    fn may_book(&self, from: u8, id: &Ident) -> bool
        ensures { IsTrue result ↔ BookedFits self.now.who self.now.events from id.now }
    {
        let is_own = from == self.ledger.who() && self.ledger.is_taken(id);
        (is_own || self.ledger.is_forwarded(from, id)) && self.ledger.booked(from, id).is_none()
    }

    /// Returns `true` if a fetch of so many transfers may come next.
    fn may_hand_out(&self, count: u32) -> bool
        ensures { IsTrue result ↔ FetchedFits self.now.events count }
    {
        is_count(count) && count as usize <= self.ledger.unread_count()
    }

    /// Returns `true` if a hub may open from the books next, which were opened from fewer than 500
    /// times.
    pub fn may_open(&self) -> bool
        ensures { IsTrue result ↔ OpenedFits self.now.events }
    {
        self.tally.openings < MOST_OPENINGS
    }

    /// Returns `true` if the event may come next. Makes at most three table lookups, and scans no
    /// events.
    pub fn may_keep(&self, event: &Event) -> bool
        ensures { IsTrue result ↔ Fits self.now.settings self.now.who self.now.events event.now }
    {
        match event {
            Event::Funded(funding) => self.may_fund(funding),
            Event::Defunded(funding) => self.may_fund(funding) && self.covers(funding.cents),
            Event::Taken {
                id,
                to,
                cents,
                stamp,
            } => self.may_take(id, *to, *cents, *stamp),
            Event::Forwarded { from, id, .. } => self.may_forward(*from, id),
            Event::Booked { from, id, .. } => self.may_book(*from, id),
            Event::Fetched { count } => self.may_hand_out(*count),
            Event::Opened => self.may_open(),
        }
    }

    /// Appends an event that fits the history.
    ///
    /// # Errors
    ///
    /// [`AllocError`] if the event can't be stored; the book is unchanged.
    pub fn keep(&mut self, event: Event) -> Result<(), AllocError>
        requires { Fits self.old.settings self.old.who self.old.events event }
        ensures ok { OnOk result (self.new ≡ ledger_with_event self.old event) }
        ensures err { OnErr result (self.new ≡ self.old) }
    {
        self.ledger.keep(event)?;
        // That a history is no longer than 64 bits tell is known where its length is read.
        let _ = self.ledger.journal().events().len();
        match &event {
            Event::Forwarded { from, .. } => self.tally.arrive(*from),
            Event::Booked { from, .. } => {
                if *from != self.ledger.who() {
                    self.tally.settle(*from);
                }
            }
            Event::Opened => self.tally.begin(),
            Event::Funded(_) | Event::Defunded(_) | Event::Taken { .. } | Event::Fetched { .. } =>
                {}
        }
        Ok(())
    }

    /// Returns the replayed ledger.
    pub fn into_ledger(self) -> Ledger
        ensures { result.book ≡ self }
    {
        let Replay { ledger, .. } = self;
        ledger
    }
}
