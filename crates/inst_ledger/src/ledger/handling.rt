//! Replies to commands, and the event to append for each: [`Ledger::handle`] and the steps it is
//! made of.
ghost use Rattle.std.specs.Prelude.{◌≡◌, ◌≤◌, true, false, take, drop, length, IfOk, IsOk};
ghost use Rattle.inst_base.specs.TimeLimit.{deadline_of};
ghost use Rattle.inst_base.specs.Fault.{IsUnlessMemory};
ghost use Rattle.inst_command.specs.Ask.{command_fits, is_count};
ghost use Rattle.inst_journal.specs.Reply.{is_new_funding, submit, answer_forwarded};
ghost use Rattle.inst_journal.specs.Reply.{confirm, reject, investigate, unread, hand_out};
ghost use Rattle.inst_journal.specs.Reply.{reply_without_event, copies};
ghost use Rattle.inst_journal.specs.Statement.{statement_part};
ghost use Rattle.inst_journal.specs.Sound.{Fits};
ghost use Rattle.inst_ledger.specs.Book.{answer_to, submission_result, submission_event, MayKeep};
ghost use Rattle.inst_ledger.specs.Inbox.{entries_at};
ghost use Rattle.inst_ledger.specs.inner.Beside.{is_funding_repeat, handle_funding};
ghost use Rattle.inst_transfers.specs.State.{rows_of};
ghost use Rattle.inst_transfers.specs.Held.{AreWithin};
ghost use Rattle.inst_journal.specs.Money.{reserved, position, available};

use super::Ledger;
use super::keeping::funding_event;
use super::reading::{forwarding_in, is_sending, outcome_in, sending_in};
use inst_base::{Fault, Ident, Moment};
use inst_command::{Command, Entries, Entry, Funding, Lines, Outcome, Query, Reply, Submission};
use inst_journal::{Event, Handled, standing, still_pending};
use std::alloc::{AllocError, Global};

impl Ledger {
    /// Returns `true` if a fund or defund command is new, `false` if it is a repeat; else
    /// `Duplicate` or `Full`.
    fn is_new_funding(&self, is_defunding: bool, funding: &Funding) -> Result<bool, Fault>
        ensures { result ≡ is_new_funding self.now.book.settings self.now.book.events
            funding.now.reference
            (is_funding_repeat is_defunding funding.now self.now.book.events) }
    {
        if self.is_funding_repeat(is_defunding, funding) {
            return Ok(false);
        }
        if self.has_reference(&funding.reference) {
            return Err(Fault::Duplicate);
        }
        if self.fundings() >= usize::from(self.settings().fundings()) {
            return Err(Fault::Full);
        }
        Ok(true)
    }

    /// Answers a fund or defund command: `Duplicate`, `Full`, then `Shortage` for a new defunding
    /// above the available amount.
    fn change_funding(&self, is_defunding: bool, funding: &Funding) -> Result<Handled, Fault>
        ensures { result ≡ handle_funding is_defunding self.now.book.settings self.now.book.events
            funding.now }
    {
        let is_new = self.is_new_funding(is_defunding, funding)?;
        let cents = u128::from(funding.cents.get());
        if is_new && is_defunding && cents > self.available() {
            return Err(Fault::Shortage);
        }
        let event = funding_event(is_defunding, *funding);
        Ok(Handled {
            reply: Reply::Done {
                reference: funding.reference,
            },
            kept: is_new.then_some(event),
        })
    }

    /// Returns `true` if a submission with this deadline is new, `false` if it is a repeat.
    ///
    /// The result determines the reply of [`handle`](Ledger::handle) to the submission. Cost: one
    /// hash look-up.
    ///
    /// Requires a submission that fits the settings, and its deadline: time stamp plus limit.
    ///
    /// # Errors
    ///
    /// The first of these that applies, in this order; nothing changes:
    ///
    /// - `SelfTransfer`: the beneficiary is the originator.
    /// - `Duplicate`: the identifier is taken by another submission.
    /// - `StampAhead`: the time stamp is further ahead of the clock reading than tolerated.
    /// - `Expired`: the deadline is due.
    /// - `Full`: all places of the originator are in use.
    /// - `Shortage`: the amount exceeds the available amount.
    pub fn is_new_submission(
        &self,
        at: Moment,
        submission: &Submission,
        deadline: Moment,
    ) -> Result<bool, Fault>
        requires fits { command_fits self.now.book.settings (Command.Submit submission.now) ≡ true }
        requires deadline { deadline
            ≡ deadline_of self.now.book.settings.limit submission.now.stamp }
        ensures answer { submit self.now.book.settings self.now.book.who self.now.book.events at
            submission.now
            ≡ submission_result self.now.book.settings submission.now result }
        ensures fits { IfOk result (λ is_new. is_new ≡ true →
            Fits self.now.book.settings self.now.book.who self.now.book.events
            (submission_event submission.now)) }
    {
        let settings = self.settings();
        let &Submission {
            id,
            to,
            cents,
            stamp,
        } = submission;
        if to == self.who() {
            return Err(Fault::SelfTransfer);
        }
        let sending = self.sending(&id);
        if is_sending(sending, submission) {
            return Ok(false);
        }
        if sending.is_some() {
            return Err(Fault::Duplicate);
        }
        if stamp.is_ahead(settings.ahead(), at) {
            return Err(Fault::StampAhead);
        }
        if at.is_due(deadline) {
            return Err(Fault::Expired);
        }
        if self.live_submissions() >= usize::from(settings.places()) {
            return Err(Fault::Full);
        }
        if u128::from(cents.get()) > self.available() {
            return Err(Fault::Shortage);
        }
        Ok(true)
    }

    /// Answers a submission; refuses it as [`is_new_submission`](Ledger::is_new_submission) does.
    fn submit(&self, at: Moment, submission: &Submission) -> Result<Handled, Fault>
        requires { command_fits self.now.book.settings (Command.Submit submission.now) ≡ true }
        ensures { result ≡ submit self.now.book.settings self.now.book.who self.now.book.events at
            submission.now }
    {
        let &Submission {
            id,
            to,
            cents,
            stamp,
        } = submission;
        let deadline = stamp.deadline(self.settings().limit());
        let is_new = self.is_new_submission(at, submission, deadline)?;
        let event = Event::Taken {
            id,
            to,
            cents,
            stamp,
        };
        Ok(Handled {
            reply: Reply::Taken { id, deadline },
            kept: is_new.then_some(event),
        })
    }

    /// Answers a beneficiary about a forwarded transfer: books the outcome found, or replies
    /// `pending`. Refuses a transfer that wasn't forwarded as `UnknownTransfer`.
    fn answer_forwarded(
        &self,
        from: u8,
        id: Ident,
        pending: Result<Handled, Fault>,
        found: Option<Outcome>,
    ) -> Result<Handled, Fault>
        ensures { result ≡ answer_forwarded self.now.book.events from id pending found }
    {
        let known = self.transfer(from, &id);
        if forwarding_in(&known).is_none() {
            return Err(Fault::UnknownTransfer);
        }
        let booked = outcome_in(&known);
        standing(from, id, pending, booked, found)
    }

    /// Answers a confirmation. One that leaves the transfer pending came within the margin before
    /// the deadline, and is refused as `Expired`.
    fn confirm(&self, from: u8, id: Ident, found: Option<Outcome>) -> Result<Handled, Fault>
        ensures { result ≡ confirm self.now.book.events from id found }
    {
        self.answer_forwarded(from, id, Err(Fault::Expired), found)
    }

    /// Answers a rejection by booking the outcome found.
    fn reject(&self, from: u8, id: Ident, found: Option<Outcome>) -> Result<Handled, Fault>
        ensures { result ≡ reject self.now.book.events from id found }
    {
        self.answer_forwarded(from, id, still_pending(from, id), found)
    }

    /// Answers an investigation by booking the outcome found; `UnknownTransfer` if it wasn't
    /// submitted.
    fn investigate(&self, id: Ident, found: Option<Outcome>) -> Result<Handled, Fault>
        ensures { result ≡ investigate self.now.book.who self.now.book.events id found }
    {
        let who = self.who();
        let known = self.transfer(who, &id);
        if sending_in(&known).is_none() {
            return Err(Fault::UnknownTransfer);
        }
        let booked = outcome_in(&known);
        standing(who, id, still_pending(who, id), booked, found)
    }

    /// Returns the reply to `Position`: the position, reserved and available amounts, in cents.
    pub fn position_reply(&self) -> Reply
        ensures { result ≡ Reply.Position
            (position self.now.book.events) (reserved self.now.book.events)
            (available self.now.book.events) }
    {
        Reply::Position {
            position: self.position() as u64,
            reserved: self.reserved() as u64,
            available: self.available() as u64,
        }
    }

    /// Returns the positions in the table of the forwarded transfers that weren't fetched yet.
    fn rest(&self) -> &[usize]
        ensures came { entries_at (rows_of self.now.book.who self.now.book.events) result.now
            ≡ unread self.now.book.events }
        ensures within { AreWithin (length (rows_of self.now.book.who self.now.book.events))
            result.now }
    {
        after(self.inbox.as_slice(), self.read)
    }

    /// Returns the number of forwarded transfers that weren't fetched yet.
    pub fn unread_count(&self) -> usize
        ensures { result ≡ length (unread self.now.book.events) }
    {
        self.rest().len()
    }

    /// Returns the entries of the transfers at these positions of the table, without hashing.
    fn entries(&self, alloc: Global, positions: &[usize]) -> Result<Vec<Entry>, AllocError>
        requires within { AreWithin (length (rows_of self.now.book.who self.now.book.events))
            positions.now }
        ensures ok { IfOk result (λ entries. entries.items ≡
            entries_at (rows_of self.now.book.who self.now.book.events) positions.now) }
    {
        let mut entries = Vec::new(alloc);
        for position in positions {
            entries.push(self.table.entry_at(*position).unwrap())?;
        }
        Ok(entries)
    }

    /// Returns the next unread forwarded transfers, at most `max`. Allocates only if there are
    /// some.
    fn unread(&self, alloc: Global, max: u32) -> Result<Vec<Entry>, AllocError>
        ensures ok { IfOk result (λ entries.
            entries.items ≡ take max (unread self.now.book.events)) }
        ensures none { length (unread self.now.book.events) ≡ 0 → IsOk result }
    {
        let rest = self.rest();
        if rest.is_empty() {
            return Ok(Vec::new(alloc));
        }
        self.entries(alloc, &rest[..rest.len().min(max as usize)])
    }

    /// Answers a fetch with the next unread forwarded transfers, at most `max`. Fails with `Memory`
    /// only if there are some.
    fn fetch(&self, alloc: Global, max: u32) -> Result<Handled, Fault>
        requires { is_count max ≡ true }
        ensures reply { IsUnlessMemory result (hand_out (take max (unread self.now.book.events))) }
        ensures none { length (unread self.now.book.events) ≡ 0 →
            result ≡ hand_out (take max (unread self.now.book.events)) }
    {
        let entries = self.unread(alloc, max)?;
        let count = entries.len() as u32;
        let reply = Reply::Inbox {
            entries: Entries::new(entries),
        };
        if count == 0 {
            return Ok(Handled { reply, kept: None });
        }
        let event = Event::Fetched { count };
        Ok(Handled {
            reply,
            kept: Some(event),
        })
    }

    /// Returns at most `count` lines of the statement since the last opening, after the first
    /// `skip`.
    ///
    /// Cost: linear in the lines returned.
    ///
    /// # Errors
    ///
    /// [`AllocError`] if the lines can't be allocated.
    pub fn statement(&self, alloc: Global, skip: u64, count: u32) -> Result<Lines, AllocError>
        ensures { IfOk result (λ lines. lines ≡ statement_part self.now.book.events skip count) }
    {
        let events = self.journal.events();
        Ok(Lines::new(self.statement.part(alloc, events, skip, count)?))
    }

    /// Answers a query for statement lines; may fail with `Memory`.
    fn answer_statement(&self, alloc: Global, skip: u64, count: u32) -> Result<Handled, Fault>
        ensures { IsUnlessMemory result
            (reply_without_event
            (Reply.Statement (statement_part self.now.book.events skip count))) }
    {
        let lines = self.statement(alloc, skip, count)?;
        Ok(Handled {
            reply: Reply::Statement { lines },
            kept: None,
        })
    }

    /// Returns the reply to a command, and the event to append for it.
    fn answer(
        &self,
        alloc: Global,
        command: &Command,
        at: Moment,
        found: Option<Outcome>,
    ) -> Result<Handled, Fault>
        requires { command_fits self.now.book.settings command.now ≡ true }
        ensures reply { IsUnlessMemory result (answer_to self.now.book command.now at found) }
        ensures no_memory { copies self.now.book.events command.now ≡ false →
            result ≡ answer_to self.now.book command.now at found }
    {
        match command {
            Command::Fund(funding) => self.change_funding(false, funding),
            Command::Defund(funding) => self.change_funding(true, funding),
            Command::Submit(submission) => self.submit(at, submission),
            Command::Confirm { from, id } => self.confirm(*from, *id, found),
            Command::Reject { from, id, .. } => self.reject(*from, *id, found),
            Command::Investigate { id } => self.investigate(*id, found),
            Command::Fetch { max } => self.fetch(alloc, *max),
            Command::Query(Query::Position) => Ok(Handled {
                reply: self.position_reply(),
                kept: None,
            }),
            Command::Query(Query::Statement { skip, count }) => {
                self.answer_statement(alloc, *skip, *count)
            }
        }
    }

    /// Returns the reply to a command at clock reading `at`, and the event to append for it.
    /// Changes nothing.
    ///
    /// `found` is the outcome that the transfer of the command has on the board, if it has one; it
    /// isn't checked. Requires `command.fits(settings)`. Cost: one hash look-up for each key; a
    /// statement and a fetch also copy what they return.
    ///
    /// # Errors
    ///
    /// The first fault that applies, in the order of [`Fault`] from `SelfTransfer` to `Shortage`.
    /// Only a statement, and a fetch with something unread, may fail with `Memory`.
    pub fn handle(
        &self,
        alloc: Global,
        command: &Command,
        at: Moment,
        found: Option<Outcome>,
    ) -> Result<Handled, Fault>
        requires { command_fits self.now.book.settings command.now ≡ true }
        ensures reply { IsUnlessMemory result (answer_to self.now.book command.now at found) }
        ensures no_memory { copies self.now.book.events command.now ≡ false →
            result ≡ answer_to self.now.book command.now at found }
        ensures kept { IfOk result (λ handled. MayKeep self.now.book handled.kept) }
    {
        self.answer(alloc, command, at, found)
    }
}

/// Returns the positions after the first `read`.
fn after(positions: &[usize], read: usize) -> &[usize]
    requires { read ≤ length positions.now }
    ensures { result.now ≡ drop read positions.now }
{
    &positions[read..]
}
