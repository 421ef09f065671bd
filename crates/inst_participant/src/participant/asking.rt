//! Commands of the participant.
ghost use Rattle.std.specs.Prelude.{◌≡◌, IfOk, OnErr};
ghost use Rattle.inst_board.specs.Learning.{KnowTheSame};
ghost use Rattle.inst_cell.specs.Held.{AtOneTable, knows};
ghost use Rattle.inst_cell.specs.Seen.{board_of_sight, sight_knows};
ghost use Rattle.inst_participant.specs.LockLaw.{IsReady, IsLater};
ghost use Rattle.inst_participant.specs.Telling.{SeesMore};
ghost use Rattle.inst_participant.specs.inner.Telling.{IsToldOf, IsToldBy};
ghost use Rattle.inst_participant.specs.Answers.{Answered};
ghost use Rattle.inst_participant.specs.Serving.{MayServe, StaysReady, Serves, AnswersWithTicket};
ghost use Rattle.inst_participant.specs.Serving.{LeavesUnanswered};

use super::Participant;
use inst_base::Ident;
use inst_cell::{Sight, Ticket};
use inst_command::{Ask, Reply, refusals_told};
use std::alloc::AllocError;

impl Participant {
    /// Answers one command of the participant.
    ///
    /// Returns the reply, which may be a refusal, and a [`Ticket`] if the reply concerns a live
    /// transfer. The teller then knows all that the board knows of that transfer.
    ///
    /// # Errors
    ///
    /// [`AllocError`] if the event or the reply can't be allocated; the slot is unchanged.
    pub fn serve(
        &mut self,
        teller: &mut Sight,
        ask: &Ask,
    ) -> Result<(Reply, Option<Ticket>), AllocError>
        requires may { MayServe self.old ask.now }
        requires one { AtOneTable self.old.board (board_of_sight teller.old) }
        ensures stays { StaysReady self.old self.new }
        ensures sees { SeesMore teller.old teller.new }
        ensures answers { IfOk result (λ answer.
            AnswersWithTicket self.old ask.now answer (sight_knows teller.new) self.new) }
        ensures left { OnErr result (LeavesUnanswered self.old ask.now self.new) }
    {
        let reply = self.answer(ask)?;
        let ticket = self.ticket(teller, ask.who, &reply);
        Ok((reply, ticket))
    }

    /// Answers a command. A refusal is a reply too.
    fn answer(&mut self, ask: &Ask) -> Result<Reply, AllocError>
        requires may { MayServe self.old ask.now }
        ensures stays { StaysReady self.old self.new }
        ensures serves { Serves self.old ask.now result self.new }
        ensures answered { IfOk result (λ reply.
            Answered self.old.slot.settings self.old.slot.who self.old.slot.events ask.now reply
            self.new.slot.events) }
        ensures err { OnErr result (self.new.slot ≡ self.old.slot) }
    {
        let answer = self.slot.apply(&mut self.board, ask);
        refusals_told(answer)
    }

    /// Returns a ticket for the transfer that the reply concerns, if it is live.
    fn ticket(&mut self, teller: &mut Sight, who: u8, reply: &Reply) -> Option<Ticket>
        requires ready { IsReady self.old }
        requires one { AtOneTable self.old.board (board_of_sight teller.old) }
        ensures ready { IsReady self.new }
        ensures later { IsLater self.old self.new }
        ensures same { self.new.slot ≡ self.old.slot }
        ensures knows { KnowTheSame knows self.old.board self.new.board }
        ensures sees { SeesMore teller.old teller.new }
        ensures told { IsToldBy self.old who reply.now teller.new result }
    {
        match reply {
            Reply::Taken { id, .. } => self.tell(teller, who, id),
            Reply::State { from, id, .. } => self.tell(teller, *from, id),
            _ => None,
        }
    }

    /// Returns a ticket for this transfer if it is live, and lets the teller know what the board
    /// knows.
    fn tell(&mut self, teller: &mut Sight, from: u8, id: &Ident) -> Option<Ticket>
        requires ready { IsReady self.old }
        requires one { AtOneTable self.old.board (board_of_sight teller.old) }
        ensures ready { IsReady self.new }
        ensures later { IsLater self.old self.new }
        ensures same { self.new.slot ≡ self.old.slot }
        ensures knows { KnowTheSame knows self.old.board self.new.board }
        ensures sees { SeesMore teller.old teller.new }
        ensures told { IsToldOf self.old from id.now teller.new result }
    {
        let place = self.slot.place_of(from, id)?;
        Some(self.board.tell(teller, place))
    }
}
