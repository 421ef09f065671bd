//! Appending events: [`Ledger::keep`] and its forms for one kind of event each.
ghost use Rattle.std.specs.Prelude.{◌≡◌, ◌<◌, false, OnOk, OnErr, IsOk};
ghost use Rattle.inst_journal.specs.Sound.{Fits};
ghost use Rattle.inst_ledger.specs.inner.Beside.{funding_event, funding_movement, movement_booked};
ghost use Rattle.inst_ledger.specs.inner.Beside.{MayAddIf, AddsIf};
ghost use Rattle.inst_ledger.specs.Book.{ledger_with_event, brings_key};
ghost use Rattle.inst_transfers.specs.Held.{IsFound};

use super::Ledger;
use crate::references::KeptFunding;
use crate::sending::Sending;
use inst_base::{Cents, Ident, mention};
use inst_command::{Entry, Funding, LineKind, Outcome};
use inst_journal::Event;
use inst_statement::{KeptStatement, Movement};
use inst_transfers::{Found, Side, Transfer};
use std::alloc::AllocError;

impl Ledger {
    /// Appends a fund or defund command.
    fn keep_funding(&mut self, is_defunding: bool, funding: Funding) -> Result<(), AllocError>
        requires { Fits self.old.book.settings self.old.book.who self.old.book.events
            (funding_event is_defunding funding) }
        ensures ok { OnOk result (self.new.book ≡
            ledger_with_event self.old.book (funding_event is_defunding funding)) }
        ensures err { OnErr result (self.new.book ≡ self.old.book) }
    {
        let Funding { reference, cents } = funding;
        let kept = KeptFunding {
            is_defunding,
            cents,
        };
        let event = funding_event(is_defunding, funding);
        let movement = funding_movement(is_defunding, cents);
        let index = self.journal.events().len() as u32;
        self.journal.reserve()?;
        self.statement.reserve()?;
        self.references.put(reference, kept)?;
        self.journal.push(event)?;
        self.totals.keep(is_defunding, cents.get());
        self.statement.add(index, &movement);
        self.fundings += 1;
        Ok(())
    }

    /// Reserves capacity for one more transfer: its event and its row in the table.
    ///
    /// # Errors
    ///
    /// [`AllocError`] if it can't be allocated; only the capacity may have changed.
    pub fn make_room_for_transfer(&mut self) -> Result<(), AllocError>
        ensures book { self.new.book ≡ self.old.book }
        ensures room { OnOk result ((0 < self.new.room) × (0 < self.new.table.room)) }
    {
        self.reserve()?;
        self.table.reserve()
    }

    /// Appends a submission and reserves its amount; allocates nothing.
    ///
    /// Requires an event that fits the history, as after
    /// [`is_new_submission`](Ledger::is_new_submission), and the capacity of
    /// [`make_room_for_transfer`](Ledger::make_room_for_transfer).
    pub fn keep_taken(&mut self, id: Ident, sending: Sending)
        requires room { (0 < self.old.room) × (0 < self.old.table.room) }
        requires fits { Fits self.old.book.settings self.old.book.who self.old.book.events
            (Event.Taken id sending.to sending.cents sending.stamp) }
        ensures { self.new.book ≡
            ledger_with_event self.old.book
            (Event.Taken id sending.to sending.cents sending.stamp) }
    {
        let Sending { to, cents, stamp } = sending;
        let taken = Event::Taken {
            id,
            to,
            cents,
            stamp,
        };
        self.journal.push(taken).unwrap();
        self.table.take(id, to, cents, stamp);
    }

    /// Appends a transfer that is forwarded to the participant. Requires an event that fits the
    /// history.
    ///
    /// # Errors
    ///
    /// [`AllocError`] if the event or its row can't be stored; the book is unchanged.
    pub fn keep_forwarded(&mut self, entry: Entry) -> Result<(), AllocError>
        requires { Fits self.old.book.settings self.old.book.who self.old.book.events
            (Event.Forwarded entry.from entry.id entry.cents entry.deadline) }
        ensures ok { OnOk result (self.new.book ≡
            ledger_with_event self.old.book
            (Event.Forwarded entry.from entry.id entry.cents entry.deadline)) }
        ensures err { OnErr result (self.new.book ≡ self.old.book) }
    {
        let Entry {
            from,
            id,
            cents,
            deadline,
        } = entry;
        let event = Event::Forwarded {
            from,
            id,
            cents,
            deadline,
        };
        // Reading the amount makes it known to the prover that it is within the maximum.
        let _ = cents.get();
        let position = self.table.len();
        self.journal.reserve()?;
        self.inbox.try_reserve(1)?;
        self.table.reserve()?;
        self.journal.push(event)?;
        self.table.deliver(from, id, cents, deadline);
        self.inbox.push_reserved(position);
        Ok(())
    }

    /// Books the outcome of a transfer that is looked up.
    fn keep_booked(&mut self, from: u8, id: Ident, outcome: &Outcome) -> Result<(), AllocError>
        requires { Fits self.old.book.settings self.old.book.who self.old.book.events
            (Event.Booked from id outcome.now) }
        ensures ok { OnOk result (self.new.book
            ≡ ledger_with_event self.old.book (Event.Booked from id outcome.now)) }
        ensures err { OnErr result (self.new.book ≡ self.old.book) }
        ensures room { 0 < self.old.room → IsOk result }
    {
        mention::<(Side, Transfer, Outcome)>();
        let found = self.find(from, &id).unwrap();
        self.keep_found(&found, outcome)
    }

    /// Books the outcome of a transfer that was found. An own transfer's amount is released; an
    /// accepted one's is moved.
    ///
    /// Looks nothing up. Allocates nothing if capacity was reserved. Requires a row of this
    /// ledger's table, and an event that fits the history.
    ///
    /// # Errors
    ///
    /// [`AllocError`] if the event or its statement line can't be stored; the book is unchanged.
    pub fn keep_found(&mut self, found: &Found, outcome: &Outcome) -> Result<(), AllocError>
        requires there { IsFound self.old.table found.now }
        requires fits { Fits self.old.book.settings self.old.book.who self.old.book.events
            (Event.Booked found.now.from found.now.id outcome.now) }
        ensures ok { OnOk result (self.new.book ≡
            ledger_with_event self.old.book
            (Event.Booked found.now.from found.now.id outcome.now)) }
        ensures err { OnErr result (self.new.book ≡ self.old.book) }
        ensures room { 0 < self.old.room → IsOk result }
    {
        let &Found {
            from,
            id,
            transfer,
            ..
        } = found;
        let event = Event::Booked {
            from,
            id,
            outcome: *outcome,
        };
        let index = self.journal.events().len() as u32;
        // Reading the amount makes it known to the prover that it is within the maximum.
        let _ = transfer.cents.get();
        self.statement.reserve()?;
        self.journal.push(event)?;
        self.table.book(found, outcome);
        add_line(
            &mut self.statement,
            index,
            movement_booked(from, &transfer, outcome),
        );
        Ok(())
    }

    /// Appends a fetch, and moves the read mark.
    fn keep_fetched(&mut self, count: u32) -> Result<(), AllocError>
        requires { Fits self.old.book.settings self.old.book.who self.old.book.events
            (Event.Fetched count) }
        ensures ok { OnOk result
            (self.new.book ≡ ledger_with_event self.old.book (Event.Fetched count)) }
        ensures err { OnErr result (self.new.book ≡ self.old.book) }
        ensures room { 0 < self.old.room → IsOk result }
    {
        self.journal.push(Event::Fetched { count })?;
        self.read += count as usize;
        Ok(())
    }

    /// Appends an opening: settled transfers are no longer live, and the count of fundings starts
    /// again.
    fn keep_opened(&mut self) -> Result<(), AllocError>
        requires { Fits self.old.book.settings self.old.book.who self.old.book.events Event.Opened }
        ensures ok { OnOk result (self.new.book ≡ ledger_with_event self.old.book Event.Opened) }
        ensures err { OnErr result (self.new.book ≡ self.old.book) }
        ensures room { 0 < self.old.room → IsOk result }
    {
        self.journal.push(Event::Opened)?;
        self.statement.begin();
        self.table.begin();
        self.fundings = 0;
        Ok(())
    }

    /// Appends an event. Requires one that fits the history, as that of [`handle`](Ledger::handle)
    /// does.
    ///
    /// Allocates nothing for a booking, a fetch or an opening if capacity was reserved. For other
    /// events all capacity is reserved before anything changes.
    ///
    /// # Errors
    ///
    /// [`AllocError`] if the event can't be stored; the book is unchanged.
    pub fn keep(&mut self, event: Event) -> Result<(), AllocError>
        requires { Fits self.old.book.settings self.old.book.who self.old.book.events event }
        ensures ok { OnOk result (self.new.book ≡ ledger_with_event self.old.book event) }
        ensures err { OnErr result (self.new.book ≡ self.old.book) }
        ensures room { 0 < self.old.room → brings_key event ≡ false → IsOk result }
    {
        match event {
            Event::Funded(funding) => self.keep_funding(false, funding),
            Event::Defunded(funding) => self.keep_funding(true, funding),
            Event::Taken {
                id,
                to,
                cents,
                stamp,
            } => {
                self.make_room_for_transfer()?;
                self.keep_taken(id, Sending { to, cents, stamp });
                Ok(())
            }
            Event::Forwarded {
                from,
                id,
                cents,
                deadline,
            } => self.keep_forwarded(Entry {
                from,
                id,
                cents,
                deadline,
            }),
            Event::Booked { from, id, outcome } => self.keep_booked(from, id, &outcome),
            Event::Fetched { count } => self.keep_fetched(count),
            Event::Opened => self.keep_opened(),
        }
    }
}

/// Returns the movement of a booked transfer if it was accepted.
fn movement_booked(from: u8, transfer: &Transfer, outcome: &Outcome) -> Option<Movement>
    ensures { result ≡ movement_booked from transfer.now outcome.now }
{
    if !matches!(outcome, Outcome::Accepted) {
        return None;
    }
    let cents = transfer.cents;
    Some(match &transfer.side {
        Side::Own { to, .. } => Movement {
            kind: LineKind::Paid,
            other: Some(*to),
            cents,
        },
        Side::Other { .. } => Movement {
            kind: LineKind::Received,
            other: Some(from),
            cents,
        },
    })
}

/// Adds the statement line of a movement, if there is one. The capacity is reserved.
fn add_line(statement: &mut KeptStatement, event: u32, movement: Option<Movement>)
    requires { MayAddIf statement.old movement }
    ensures { AddsIf statement.old event movement statement.new }
{
    if let Some(movement) = movement {
        statement.add(event, &movement);
    }
}

/// Returns the event of a fund or defund command.
pub(super) fn funding_event(is_defunding: bool, funding: Funding) -> Event
    ensures { result ≡ funding_event is_defunding funding }
{
    if is_defunding {
        Event::Defunded(funding)
    } else {
        Event::Funded(funding)
    }
}

/// Returns the movement of a fund or defund command.
fn funding_movement(is_defunding: bool, cents: Cents) -> Movement
    ensures { result ≡ funding_movement is_defunding cents }
{
    Movement {
        kind: if is_defunding {
            LineKind::Defunded
        } else {
            LineKind::Funded
        },
        other: None,
        cents,
    }
}
