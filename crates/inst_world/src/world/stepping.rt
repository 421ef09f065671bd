//! Running a step by the slot of its participant.
ghost use Rattle.std.specs.Prelude.{◌≡◌, true, IfOk, OnErr};
ghost use Rattle.inst_settings.specs.Settings.{is_participant};
ghost use Rattle.inst_command.specs.Ask.{ask_fits};
ghost use Rattle.inst_command.specs.Step.{step_fits};
ghost use Rattle.inst_command.specs.declared.reply.Answer.{Answer};
ghost use Rattle.inst_command.specs.declared.step.Step.{Step};
ghost use Rattle.inst_world.specs.HasRun.{Runs, IsOfModel, IsUnrun};
ghost use Rattle.inst_world.specs.inner.Stepping.{RunsOrNeedsMemory};

use super::World;
use inst_base::Moment;
use inst_command::{Answer, Ask, Place, Reply, Step, refusals_told};
use std::alloc::AllocError;

impl World {
    /// Runs one step by the slot of its participant.
    pub(super) fn run_by_slot(&mut self, step: &Step) -> Result<Answer, AllocError>
        requires fits { step_fits self.old.board.settings step.now ≡ true }
        ensures { RunsOrNeedsMemory (λ answer. answer) self.old step.now result self.new }
    {
        match step {
            Step::Ask(asked) => Ok(Answer::Reply(self.ask(asked)?)),
            Step::Deliver { from, index, to } => {
                let place = Place {
                    owner: *from,
                    index: *index,
                };
                Ok(Answer::New(self.deliver(place, *to)?))
            }
            Step::Learn { who, from, index } => {
                let place = Place {
                    owner: *from,
                    index: *index,
                };
                Ok(Answer::New(self.learn(*who, place)?))
            }
            Step::Expire { who, index, at } => Ok(Answer::New(self.expire(*who, *index, *at)?)),
        }
    }

    /// Delivers the transfer at the place to participant `to`; returns `true` if it is new to it.
    fn deliver(&mut self, place: Place, to: u8) -> Result<bool, AllocError>
        requires participants { (is_participant self.old.board.settings place.owner ≡ true)
            × (is_participant self.old.board.settings to ≡ true) }
        ensures { RunsOrNeedsMemory (λ is_new. Answer.New is_new) self.old
            (Step.Deliver place.owner place.index to) result self.new }
    {
        self.slots[usize::from(to)].deliver(&mut self.board, place)
    }

    /// Lets participant `who` learn the outcome at the place; returns `true` if it is booked.
    fn learn(&mut self, who: u8, place: Place) -> Result<bool, AllocError>
        requires participants { (is_participant self.old.board.settings who ≡ true)
            × (is_participant self.old.board.settings place.owner ≡ true) }
        ensures { RunsOrNeedsMemory (λ is_new. Answer.New is_new) self.old
            (Step.Learn who place.owner place.index) result self.new }
    {
        self.slots[usize::from(who)].learn(&mut self.board, place)
    }

    /// Expires the participant's transfer at this index; returns `true` if an outcome is booked.
    fn expire(&mut self, who: u8, index: u16, at: Moment) -> Result<bool, AllocError>
        requires participant { is_participant self.old.board.settings who ≡ true }
        ensures { RunsOrNeedsMemory (λ is_new. Answer.New is_new) self.old
            (Step.Expire who index at) result self.new }
    {
        self.slots[usize::from(who)].expire(&mut self.board, index, at)
    }

    /// Answers one command as [`step`](World::step) does a [`Step::Ask`]. A refusal is a reply.
    ///
    /// Requires `ask.fits(settings)`. Cost: a constant number of hash look-ups, and a sorted
    /// insertion or removal of a deadline; a statement or a fetch also copies what it returns.
    ///
    /// # Errors
    ///
    /// [`AllocError`]; the hub is unchanged. It is possible only for a command that needs memory
    /// (`NeedsMemory`): its event is to be appended, or it copies entries or lines.
    pub fn ask(&mut self, ask: &Ask) -> Result<Reply, AllocError>
        requires fits { ask_fits self.old.board.settings ask.now ≡ true }
        ensures ok { IfOk result (λ reply.
            Runs self.old (Step.Ask ask.now) (Answer.Reply reply) self.new) }
        ensures model { IfOk result (λ reply.
            IsOfModel self.old.board.settings (Step.Ask ask.now) (Answer.Reply reply)) }
        ensures err { OnErr result (IsUnrun self.old self.new (Step.Ask ask.now)) }
        ensures settings { self.new.board.settings ≡ self.old.board.settings }
    {
        refusals_told(self.slots[usize::from(ask.who)].apply(&mut self.board, ask))
    }
}
