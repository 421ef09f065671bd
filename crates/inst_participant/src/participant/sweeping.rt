//! Sweeps: all open work of one participant.
ghost use Rattle.std.specs.Prelude.{◌≡◌, IfOk, None, is_ok};
ghost use Rattle.inst_settings.specs.Settings.{participants};
ghost use Rattle.inst_participant.specs.LockLaw.{IsReady, IsLater};
ghost use Rattle.inst_participant.specs.Told.{IsToldMore};
ghost use Rattle.inst_participant.specs.Sweeping.{MayExpire, LetsExpire, LearnsAll, LooksAt};
ghost use Rattle.inst_participant.specs.Sweeping.{DeliversFrom, DeliversAll, Sweeps, IsWholeSweep};
ghost use Rattle.inst_participant.specs.Told.{IsToldAll};

use super::Participant;
use crate::follow_up::FollowUpKind;
use inst_base::Moment;
use inst_board::Look;
use inst_command::Place;
use std::alloc::AllocError;

impl Participant {
    /// Expires, learns and delivers all open work of the participant at clock reading `at`. Returns
    /// the number of events stored, at most 2^32 - 1.
    ///
    /// First it expires each own transfer without a booked outcome, in order of deadline and place:
    /// an outcome is booked, and a due transfer times out. Then it learns the outcomes of forwarded
    /// transfers, in order of arrival. Then it delivers the pending transfers of each other
    /// originator, by its number and by place, up to the first unused place.
    ///
    /// # Errors
    ///
    /// [`AllocError`] if an event can't be stored; what was done before is kept, and nothing is
    /// done after it.
    pub fn sweep(&mut self, at: Moment) -> Result<u32, AllocError>
        requires ready { IsReady self.old }
        ensures ready { IsReady self.new }
        ensures later { IsLater self.old self.new }
        ensures told { IsToldAll self.old.slot.events self.new.slot.events }
        ensures sweeps { Sweeps at (is_ok result) self.old self.new }
        ensures whole { IfOk result (IsWholeSweep at self.old self.new) }
    {
        let before = self.slot.journal().events().len();
        self.let_expire(at)?;
        self.learn_all()?;
        self.deliver_all()?;
        let after = self.slot.journal().events().len();
        Ok(u32::try_from(after - before).unwrap_or(u32::MAX))
    }

    /// Expires each own transfer without a booked outcome.
    fn let_expire(&mut self, at: Moment) -> Result<(), AllocError>
        requires ready { IsReady self.old }
        ensures ready { IsReady self.new }
        ensures later { IsLater self.old self.new }
        ensures told { IsToldAll self.old.slot.events self.new.slot.events }
        ensures expires { LetsExpire at None (is_ok result) self.old self.new }
    {
        let mut last = None;
        while let Some((deadline, index)) = self.slot.due_after(last) {
            // Calls `past_base` because its contract tells the verifier how late a moment can be.
            let _ = deadline.past_base();
            self.expire(index, at)?;
            last = Some((deadline, index));
        }
        Ok(())
    }

    /// Books the outcome of the own transfer at this index, or times it out if due. Returns `true`
    /// if this stored an event.
    fn expire(&mut self, index: u16, at: Moment) -> Result<bool, AllocError>
        requires ready { IsReady self.old }
        ensures ready { IsReady self.new }
        ensures later { IsLater self.old self.new }
        ensures may { MayExpire at self.old index result self.new }
        ensures told { IsToldMore self.old.slot.events self.new.slot.events }
    {
        self.slot.expire(&mut self.board, index, at)
    }

    /// Learns the outcomes of forwarded transfers that have none booked.
    fn learn_all(&mut self) -> Result<(), AllocError>
        requires ready { IsReady self.old }
        ensures ready { IsReady self.new }
        ensures later { IsLater self.old self.new }
        ensures told { IsToldAll self.old.slot.events self.new.slot.events }
        ensures learns { LearnsAll 0 (is_ok result) self.old self.new }
    {
        let mut from = 0;
        while let Some((position, place)) = self.slot.unbooked_from(from) {
            self.follow(FollowUpKind::Learn, place)?;
            from = position + 1;
        }
        Ok(())
    }

    /// Delivers the pending transfers of all other originators.
    fn deliver_all(&mut self) -> Result<(), AllocError>
        requires ready { IsReady self.old }
        ensures ready { IsReady self.new }
        ensures later { IsLater self.old self.new }
        ensures told { IsToldAll self.old.slot.events self.new.slot.events }
        ensures delivers { DeliversAll 0 (participants self.old.slot.settings) (is_ok result)
            self.old self.new }
    {
        let own = u16::from(self.slot.who());
        for owner in 0..self.slot.settings().participants() {
            if owner != own {
                self.deliver_from(owner as u8)?;
            }
        }
        Ok(())
    }

    /// Delivers the pending transfers of one other originator.
    fn deliver_from(&mut self, owner: u8) -> Result<(), AllocError>
        requires ready { IsReady self.old }
        ensures ready { IsReady self.new }
        ensures later { IsLater self.old self.new }
        ensures told { IsToldAll self.old.slot.events self.new.slot.events }
        ensures delivers { DeliversFrom owner 0 self.old.slot.settings.places (is_ok result)
            self.old self.new }
    {
        for index in 0..self.slot.settings().places() {
            if !self.look_at(Place { owner, index })? {
                return Ok(());
            }
        }
        Ok(())
    }

    /// Delivers the transfer at the place if it is pending, for this participant and new. Returns
    /// `true` if the place is used.
    fn look_at(&mut self, place: Place) -> Result<bool, AllocError>
        requires ready { IsReady self.old }
        ensures ready { IsReady self.new }
        ensures later { IsLater self.old self.new }
        ensures told { IsToldAll self.old.slot.events self.new.slot.events }
        ensures looks { LooksAt self.old place result self.new }
    {
        match self.look(place) {
            Look::Unused => Ok(false),
            Look::Decided(..) => Ok(true),
            Look::Pending(..) => {
                self.follow(FollowUpKind::Deliver, place)?;
                Ok(true)
            }
        }
    }
}
