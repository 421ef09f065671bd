//! Commands of the slot's own participant: [`Slot::apply`] and the private steps it is made of.
ghost use Rattle.std.specs.Prelude.{◌≡◌, ◌≢◌, [], ◌∷◌, true, false, IfOk, OnErr};
ghost use Rattle.std.specs.Prelude.{OnOk, Some, None};
ghost use Rattle.inst_base.specs.Fault.{IsUnlessMemory};
ghost use Rattle.inst_base.specs.TimeLimit.{deadline_of};
ghost use Rattle.inst_settings.specs.Settings.{is_participant};
ghost use Rattle.inst_command.specs.Ask.{ask_fits};
ghost use Rattle.inst_ledger.specs.Book.{submission_event};
ghost use Rattle.inst_journal.specs.Sound.{Fits, FitAfter};
ghost use Rattle.inst_journal.specs.Reply.{copies, kept_event};
ghost use Rattle.inst_slot.specs.LawfulBoard.{IsLawfulBoard, KeepsLawful};
ghost use Rattle.inst_slot.specs.Asking.{request, AsksAdopted, handle_ask, Opens, Enters};
ghost use Rattle.inst_slot.specs.Asking.{AnswersAsk};
ghost use Rattle.inst_slot.specs.Telling.{with_event};
ghost use Rattle.inst_slot.specs.inner.Entering.{EntersAlone};
ghost use Rattle.inst_slot.specs.inner.Waiting.{is_apart};
ghost use Rattle.inst_command.specs.declared.submission.Submission.{Submission};

use super::Slot;
use crate::answering::{request_of, settle};
use inst_base::{Fault, Moment};
use inst_board::Board;
use inst_command::{Ask, Command, Query, Reply, Submission};
use inst_journal::{Event, Handled};
use inst_ledger::Sending;
use inst_terms::Terms;
use std::alloc::AllocError;

impl Slot {
    /// Returns the reply to a command that decides no transfer, and the event to append for it.
    fn handle(&self, ask: &Ask) -> Result<Handled, Fault>
        requires fits { ask_fits self.now.settings ask.now ≡ true }
        ensures reply { IsUnlessMemory result (handle_ask self.now ask.now None) }
        ensures no_memory { copies self.now.events ask.now.command ≡ false →
            result ≡ handle_ask self.now ask.now None }
        ensures kept { IfOk result (λ handled.
            FitAfter self.now.settings self.now.who self.now.events (kept_event handled.kept)) }
    {
        self.ledger.handle(self.alloc, &ask.command, ask.at, None)
    }

    /// Stores an accepted submission and opens its place on the board. On allocation failure slot
    /// and board are unchanged.
    fn take<B: Board>(
        &mut self,
        board: &mut B,
        submission: &Submission,
        deadline: Moment,
    ) -> Result<(), AllocError>
        requires lawful { IsLawfulBoard B.settings B.knows B.has_role board.old self.old }
        requires participant { is_participant self.old.settings self.old.who ≡ true }
        requires fits { Fits self.old.settings self.old.who self.old.events
            (submission_event submission.now) }
        requires deadline { deadline ≡ deadline_of self.old.settings.limit submission.now.stamp }
        ensures ok { OnOk result (self.new
            ≡ with_event self.old (Some (submission_event submission.now))) }
        ensures opens { OnOk result
            (Opens (B.settings board.old).margin B.knows self.old (submission_event submission.now
            ∷ []) board.old board.new) }
        ensures err { OnErr result ((self.new ≡ self.old) × (board.new ≡ board.old)) }
        ensures stays { B.stays board.old board.new }
    {
        let index = self.ledger.live_submissions() as u16;
        let &Submission {
            id,
            to,
            cents,
            stamp,
        } = submission;
        self.ledger.make_room_for_transfer()?;
        self.waiting.add(deadline)?;
        self.ledger.keep_taken(id, Sending { to, cents, stamp });
        self.open_place(board, index, &Terms { to, cents, id }, deadline);
        Ok(())
    }

    /// Answers a submission, and stores it if it is new.
    // Kept out of line: inlined, its locals would be cleared on every command.
    #[inline(never)]
    fn submit<B: Board>(
        &mut self,
        board: &mut B,
        ask: &Ask,
        submission: &Submission,
    ) -> Result<Reply, Fault>
        requires own { ask.now.who ≡ self.old.who }
        requires fits { ask_fits self.old.settings ask.now ≡ true }
        requires lawful { IsLawfulBoard B.settings B.knows B.has_role board.old self.old }
        requires command { ask.now.command ≡ Command.Submit submission.now }
        ensures enters { Enters (B.settings board.old).margin B.knows board.old self.old ask.now
            result board.new self.new }
        ensures stays { B.stays board.old board.new }
    {
        let id = submission.id;
        let deadline = submission.stamp.deadline(self.ledger.settings().limit());
        let is_new = self.ledger.is_new_submission(ask.at, submission, deadline)?;
        if is_new {
            self.take(board, submission, deadline)?;
        }
        Ok(Reply::Taken { id, deadline })
    }

    /// Appends an event that concerns no transfer: a funding, a defunding or a fetch.
    fn keep(&mut self, event: Event) -> Result<(), AllocError>
        requires fits { Fits self.old.settings self.old.who self.old.events event }
        requires apart { is_apart event ≡ true }
        ensures ok { OnOk result (self.new ≡ with_event self.old (Some event)) }
        ensures err { OnErr result (self.new ≡ self.old) }
    {
        self.ledger.keep(event)?;
        Ok(())
    }

    /// Answers a command that doesn't concern the board.
    fn enter_alone(&mut self, ask: &Ask) -> Result<Reply, Fault>
        requires own { ask.now.who ≡ self.old.who }
        requires fits { ask_fits self.old.settings ask.now ≡ true }
        requires other { (submission : Submission) → ask.now.command ≢ Command.Submit submission }
        ensures { EntersAlone self.old ask.now result self.new }
    {
        let Handled { reply, kept } = self.handle(ask)?;
        if let Some(event) = kept {
            self.keep(event)?;
        }
        Ok(reply)
    }

    /// Answers a query; appends nothing. A position is answered here, without the space that other
    /// replies take.
    fn answer_query(&mut self, ask: &Ask, query: &Query) -> Result<Reply, Fault>
        requires own { ask.now.who ≡ self.old.who }
        requires fits { ask_fits self.old.settings ask.now ≡ true }
        requires query { ask.now.command ≡ Command.Query query.now }
        ensures { EntersAlone self.old ask.now result self.new }
    {
        match query {
            Query::Position => Ok(self.ledger.position_reply()),
            Query::Statement { .. } => self.enter_alone(ask),
        }
    }

    /// Answers a command that decides no transfer.
    fn enter<B: Board>(&mut self, board: &mut B, ask: &Ask) -> Result<Reply, Fault>
        requires own { ask.now.who ≡ self.old.who }
        requires fits { ask_fits self.old.settings ask.now ≡ true }
        requires lawful { IsLawfulBoard B.settings B.knows B.has_role board.old self.old }
        requires request { request self.old ask.now.command ≡ None }
        ensures enters { Enters (B.settings board.old).margin B.knows board.old self.old ask.now
            result board.new self.new }
        ensures stays { B.stays board.old board.new }
    {
        match &ask.command {
            Command::Submit(submission) => self.submit(board, ask, submission),
            Command::Query(query) => self.answer_query(ask, query),
            _ => self.enter_alone(ask),
        }
    }

    /// Answers a command of the participant, and appends its event.
    ///
    /// A confirmation, rejection or investigation of a transfer without a booked outcome asks the
    /// board to decide it. A new submission opens the next place.
    ///
    /// Requires a lawful board (see [`Slot`]), and an ask of this participant that fits the
    /// settings. A carried transfer must be adopted before it is confirmed or rejected (see
    /// [`adopt`](Slot::adopt)).
    ///
    /// # Errors
    ///
    /// - The first fault that applies, in the order of [`Fault`] from `SelfTransfer` to `Shortage`.
    ///   A refusal changes neither the slot nor what the board's holder knows.
    /// - `Memory`, only if an event is to be appended, or entries or lines are returned. The slot
    ///   is unchanged, and nothing was decided.
    pub fn apply<B: Board>(&mut self, board: &mut B, ask: &Ask) -> Result<Reply, Fault>
        requires own { ask.now.who ≡ self.old.who }
        requires fits { ask_fits self.old.settings ask.now ≡ true }
        requires lawful { IsLawfulBoard B.settings B.knows B.has_role board.old self.old }
        requires adopted { AsksAdopted self.old ask.now.command }
        ensures applies { AnswersAsk (B.settings board.old).margin B.knows B.has_role
            B.stood B.stays board.old self.old ask.now result board.new self.new }
        ensures law { KeepsLawful B.settings B.knows B.has_role B.stays board.old self.old
            board.new self.new }
    {
        let spots = self.arrivals.as_slice();
        match request_of(&self.ledger, spots, &ask.command) {
            Some(request) => settle(
                &mut self.ledger,
                &mut self.waiting,
                board,
                ask,
                &request,
                spots,
            ),
            None => self.enter(board, ask),
        }
    }
}
