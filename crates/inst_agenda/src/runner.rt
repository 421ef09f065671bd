//! A hub that is run line by line.
ghost use Rattle.std.specs.Prelude.{◌≡◌, ℕ, true, Some, List, [], ◌∷◌, IfOk, IfSome, OnOk};
ghost use Rattle.inst_settings.specs.Settings.{is_participant};
ghost use Rattle.inst_command.specs.Ask.{ask_fits};
ghost use Rattle.inst_command.specs.Step.{step_fits};
ghost use Rattle.inst_command.specs.declared.step.Step.{Step};
ghost use Rattle.inst_model.specs.Opening.{Opening};
ghost use Rattle.inst_model.specs.Hub.{history};
ghost use Rattle.inst_model.specs.Trace.{answer};
ghost use Rattle.inst_model.specs.Transfer.{Transfer, at_place};
ghost use Rattle.inst_slot.specs.Book.{place_at};
ghost use Rattle.inst_world.specs.HasRun.{HasRun, Runs, IsOfModel};
ghost use Rattle.inst_agenda.specs.inner.Naming.{named_by};
ghost use Rattle.inst_agenda.specs.Agenda.{is_next};
ghost use Rattle.inst_agenda.specs.Watching.{Watches};
ghost use Rattle.inst_agenda.specs.inner.Watching.{NotesSome, NotesNamed};

use crate::agenda::Agenda;
use inst_command::{Answer, Ask, Command, Place, Step};
use inst_settings::Settings;
use inst_world::World;
use std::alloc::{AllocError, Global};

/// A hub with the agenda of its transfers.
#[derive(Drop)]
pub struct Runner {
    /// The hub.
    pub world: World,
    /// The transfers that have something left to do.
    pub agenda: Agenda,
}

impl Runner {
    /// Opens a hub for the first time.
    ///
    /// # Errors
    ///
    /// [`AllocError`] if the hub can't be allocated.
    pub fn open(alloc: Global, settings: &Settings) -> Result<Runner, AllocError>
        ensures settings { IfOk result (λ runner. runner.world.board.settings ≡ settings.now) }
        ensures watches { IfOk result (λ runner.
            Watches Opening.First [] runner.world runner.agenda) }
    {
        let world = World::open(alloc, settings)?;
        Runner::new(alloc, world)
    }

    /// Returns a runner of this hub, whatever it has run. The first follow-up visits all live
    /// transfers.
    ///
    /// # Errors
    ///
    /// [`AllocError`] if the transfers can't be noted; the hub is dropped.
    pub fn new(alloc: Global, world: World) -> Result<Runner, AllocError>
        ensures world { IfOk result (λ runner. runner.world ≡ world) }
        ensures ok { IfOk result (λ runner. (O : Opening) (L : List Step) → HasRun O L world →
            Watches O L runner.world runner.agenda) }
    {
        let mut runner = Runner {
            world,
            agenda: Agenda::new(alloc),
        };
        for owner in 0..runner.world.settings().participants() {
            runner.note_all(owner as u8)?;
        }
        Ok(runner)
    }

    /// Notes all live transfers of an originator.
    fn note_all(&mut self, owner: u8) -> Result<(), AllocError>
        ensures world { self.new.world ≡ self.old.world }
        ensures notes { OnOk result (NotesSome self.old.agenda self.new.agenda owner) }
        ensures noted { OnOk result ((O : Opening) (L : List Step) → HasRun O L self.old.world →
            (index : ℕ) (x : Transfer) →
            at_place owner (history self.old.world.board.settings O L owner) index ≡ Some x →
            is_next self.new.agenda owner index ≡ true) }
    {
        for index in 0..self.world.settings().places() {
            let place = Place { owner, index };
            if self.world.beneficiary_at(place).is_none() {
                return Ok(());
            }
            self.agenda.note(place)?;
        }
        Ok(())
    }

    /// Returns the settings of the hub.
    pub fn settings(&self) -> &Settings
        ensures { result.now ≡ self.now.world.board.settings }
    {
        self.world.settings()
    }

    /// Runs a step of a script, without noting any transfer.
    ///
    /// # Errors
    ///
    /// [`AllocError`] as from [`World::step`]; the hub is unchanged.
    pub fn step(&mut self, step: &Step) -> Result<Answer, AllocError>
        requires fits { step_fits self.old.world.board.settings step.now ≡ true }
        ensures ok { IfOk result (λ answer. Runs self.old.world step.now answer self.new.world) }
        ensures model { IfOk result (λ answer.
            IsOfModel self.old.world.board.settings step.now answer) }
        ensures settings { self.new.world.board.settings ≡ self.old.world.board.settings }
    {
        self.world.step(step)
    }

    /// Runs a command. If it appends an event, the transfer that it names is noted for the next
    /// follow-up.
    ///
    /// # Errors
    ///
    /// [`AllocError`] if the hub or the agenda fails to allocate. The command may have been run
    /// without its transfer being noted.
    pub fn ask(&mut self, ask: &Ask) -> Result<Answer, AllocError>
        requires fits { ask_fits self.old.world.board.settings ask.now ≡ true }
        ensures ok { IfOk result (λ told. (O : Opening) (L : List Step) →
            Watches O L self.old.world self.old.agenda →
            (told ≡ answer self.old.world.board.settings O L (Step.Ask ask.now))
            × Watches O (Step.Ask ask.now ∷ L) self.new.world self.new.agenda) }
        ensures model { IfOk result (IsOfModel self.old.world.board.settings (Step.Ask ask.now)) }
        ensures settings { self.new.world.board.settings ≡ self.old.world.board.settings }
    {
        let events = self.world.journal(ask.who).events().len();
        let reply = self.world.ask(ask)?;
        // A command that appends no event decides nothing.
        if self.world.journal(ask.who).events().len() > events {
            self.note_named(ask)?;
        }
        Ok(Answer::Reply(reply))
    }

    /// Notes the transfer that the command names, if it is live.
    fn note_named(&mut self, ask: &Ask) -> Result<(), AllocError>
        requires fits { ask_fits self.old.world.board.settings ask.now ≡ true }
        ensures world { self.new.world ≡ self.old.world }
        ensures notes { OnOk result
            (NotesNamed self.old.world (named_by ask.now.who ask.now.command) self.old.agenda
            self.new.agenda) }
    {
        match self.place_named(ask) {
            Some(place) => self.agenda.note(place),
            None => Ok(()),
        }
    }

    /// Returns the place of the transfer that the command names, if it is live.
    fn place_named(&self, ask: &Ask) -> Option<Place>
        requires fits { ask_fits self.now.world.board.settings ask.now ≡ true }
        ensures place { (O : Opening) (L : List Step) → HasRun O L self.now.world →
            (p index : ℕ) (x : Transfer) →
            at_place p (history self.now.world.board.settings O L p) index ≡ Some x →
            named_by ask.now.who ask.now.command ≡ Some (p, x.id) →
            result ≡ Some (place_at p index) }
        ensures participant { IfSome result (λ place.
            is_participant self.now.world.board.settings place.owner ≡ true) }
    {
        match &ask.command {
            Command::Submit(submission) => self.world.place_of(ask.who, &submission.id),
            Command::Confirm { from, id } | Command::Reject { from, id, .. } => {
                self.world.place_of(*from, id)
            }
            Command::Investigate { id } => self.world.place_of(ask.who, id),
            _ => None,
        }
    }
}
