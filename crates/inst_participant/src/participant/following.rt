//! Follow-ups.
ghost use Rattle.std.specs.Prelude.{◌≡◌, true, IfSome};
ghost use Rattle.inst_settings.specs.Settings.{is_participant};
ghost use Rattle.inst_command.specs.Ask.{command_fits};
ghost use Rattle.inst_participant.specs.LockLaw.{IsReady, IsLater};
ghost use Rattle.inst_participant.specs.Following.{follow_up_after, Does, ShowsLook};
ghost use Rattle.inst_participant.specs.Told.{IsToldMore};

use super::Participant;
use crate::follow_up::{FollowUp, FollowUpKind};
use inst_board::{Board, Look};
use inst_cell::Ticket;
use inst_command::{Command, Place, Reply, State};
use std::alloc::AllocError;

impl Participant {
    /// Returns the follow-up that a command and its answer cause at the other side.
    ///
    /// Returns `None` if there is no ticket, if an investigation found its transfer pending, or if
    /// the command failed.
    pub fn follow_up(
        &self,
        command: &Command,
        answer: &Result<(Reply, Option<Ticket>), AllocError>,
    ) -> Option<FollowUp>
        requires fits { command_fits self.now.slot.settings command.now ≡ true }
        ensures follows { result ≡ follow_up_after self.now.slot.events command.now answer.now }
        ensures participant { IfSome result (λ f.
            is_participant self.now.slot.settings f.who ≡ true) }
    {
        let Ok((reply, Some(ticket))) = answer else {
            return None
        };
        let place = ticket.place();
        let (who, kind) = match (command, reply) {
            (Command::Submit(submission), _) => (submission.to, FollowUpKind::Deliver),
            (Command::Confirm { from, .. } | Command::Reject { from, .. }, _) => (
                *from,
                FollowUpKind::Learn,
            ),
            (
                Command::Investigate { id },
                Reply::State {
                    state: State::Decided(_),
                    ..
                },
            ) => (self.slot.beneficiary_of(id)?, FollowUpKind::Learn),
            _ => return None,
        };
        Some(FollowUp { who, kind, place })
    }

    /// Looks at a place.
    pub(super) fn look(&mut self, place: Place) -> Look
        requires ready { IsReady self.old }
        ensures ready { IsReady self.new }
        ensures later { IsLater self.old self.new }
        ensures same { self.new.slot ≡ self.old.slot }
        ensures shows { ShowsLook self.old.board place result self.new.board }
    {
        self.board.look(place)
    }

    /// Delivers the transfer of a place or learns its outcome, and returns `true` if this stored an
    /// event.
    ///
    /// # Errors
    ///
    /// [`AllocError`] if the event can't be stored; the slot is unchanged.
    pub fn follow(&mut self, kind: FollowUpKind, place: Place) -> Result<bool, AllocError>
        requires ready { IsReady self.old }
        ensures ready { IsReady self.new }
        ensures later { IsLater self.old self.new }
        ensures does { Does kind self.old place result self.new }
        ensures told { IsToldMore self.old.slot.events self.new.slot.events }
    {
        match kind {
            FollowUpKind::Deliver => self.slot.deliver(&mut self.board, place),
            FollowUpKind::Learn => self.slot.learn(&mut self.board, place),
        }
    }
}
