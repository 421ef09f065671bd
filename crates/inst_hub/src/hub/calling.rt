//! Calls, under the locks of participants.
ghost use Rattle.std.specs.Prelude.{◌≡◌, ◌<◌, true, None, IfOk, IfSome, OnErr};
ghost use Rattle.inst_command.specs.Ask.{ask_fits};
ghost use Rattle.inst_hub.specs.Calls.{IsTellerOf, TellerKnowsMore, HasCalled, IsLeftUnanswered};
ghost use Rattle.inst_hub.specs.inner.Calls.{Follows, Asks};
ghost use Rattle.inst_row.specs.Row.{size};

use super::Hub;
use crate::gate::{Gate, Ungated};
use crate::teller::Teller;
use inst_cell::Ticket;
use inst_command::{Ask, Reply};
use inst_participant::FollowUp;
use std::alloc::AllocError;
use std::sync::Wait;

impl Hub {
    /// Answers one command.
    ///
    /// Returns the reply, which may be a refusal, and a [`Ticket`] if the reply concerns a live
    /// transfer. Afterwards the follow-up is done under the other side's lock: a taken transfer is
    /// delivered, or an outcome is learnt. A follow-up that fails to allocate is dropped; a later
    /// [`sweep`](Hub::sweep) of that participant makes up for it.
    ///
    /// Requires a teller of this hub, and `ask.fits(settings)`. Blocks while another thread holds
    /// the asker's lock, then while one holds the other side's. Cost: a constant number of hash
    /// look-ups under each lock; a statement or a fetch also copies what it returns.
    ///
    /// # Errors
    ///
    /// [`AllocError`] if the asker's event or reply can't be allocated. The asker's books are
    /// unchanged and nothing was decided.
    pub fn call<R: Wait>(
        &self,
        rt: &R,
        teller: &mut Teller,
        ask: &Ask,
    ) -> Result<(Reply, Option<Ticket>), AllocError>
        requires of { IsTellerOf self.now teller.old }
        requires fits { ask_fits self.now.settings ask.now ≡ true }
        ensures { HasCalled self.now teller.old ask.now result teller.new }
    {
        self.call_with(rt, teller, ask, &Ungated)
    }

    /// Answers one command as [`call`](Hub::call) does, and passes the gate once, after the asker's
    /// slot answered and before its lock is given back.
    ///
    /// Requires a teller of this hub, and `ask.fits(settings)`. Blocks as `call` does.
    ///
    /// # Errors
    ///
    /// [`AllocError`] as for [`call`](Hub::call), with the same state left. The gate is passed then
    /// too.
    pub fn call_with<R: Wait, G: Gate>(
        &self,
        rt: &R,
        teller: &mut Teller,
        ask: &Ask,
        gate: &G,
    ) -> Result<(Reply, Option<Ticket>), AllocError>
        requires of { IsTellerOf self.now teller.old }
        requires fits { ask_fits self.now.settings ask.now ≡ true }
        ensures { HasCalled self.now teller.old ask.now result teller.new }
    {
        let (answer, follow_up) = self.ask(rt, teller, ask, gate);
        self.follow(rt, teller, follow_up);
        answer
    }

    /// Answers a command under the asker's lock. Also returns the follow-up, none on failure.
    pub(crate) fn ask<R: Wait, G: Gate>(
        &self,
        rt: &R,
        teller: &mut Teller,
        ask: &Ask,
        gate: &G,
    ) -> (
        Result<(Reply, Option<Ticket>), AllocError>,
        Option<FollowUp>,
    )
        requires of { IsTellerOf self.now teller.old }
        requires fits { ask_fits self.now.settings ask.now ≡ true }
        ensures of { IsTellerOf self.now teller.new }
        ensures knows { TellerKnowsMore teller.old teller.new }
        ensures call { IfOk result.0 (λ answer.
            Asks self.now teller.old ask.now (answer, result.1) teller.new) }
        ensures lock { IfSome result.1 (λ f. f.who < size self.now.row) }
        ensures left { OnErr result.0 (IsLeftUnanswered self.now teller.old ask.now teller.new) }
        ensures none { OnErr result.0 (result.1 ≡ None) }
    {
        let lock = usize::from(ask.who);
        let mut participant = self.row.take(rt, &mut teller.seat, lock);
        let answer = participant.serve(&mut teller.sight, ask);
        let follow_up = participant.follow_up(&ask.command, &answer);
        gate.pass(ask.who);
        self.row.give(&mut teller.seat, lock, participant);
        (answer, follow_up)
    }

    /// Does the follow-up under the other side's lock. Drops it if it fails to allocate.
    fn follow<R: Wait>(&self, rt: &R, teller: &mut Teller, follow_up: Option<FollowUp>)
        requires of { IsTellerOf self.now teller.old }
        requires lock { IfSome follow_up (λ f. f.who < size self.now.row) }
        ensures of { IsTellerOf self.now teller.new }
        ensures knows { TellerKnowsMore teller.old teller.new }
        ensures follows { Follows self.now follow_up teller.old teller.new }
    {
        let Some(FollowUp { who, kind, place }) = follow_up else {
            return
        };
        let lock = usize::from(who);
        let mut participant = self.row.take(rt, &mut teller.seat, lock);
        let _ = participant.follow(kind, place);
        self.row.give(&mut teller.seat, lock, participant);
    }
}
