//! A participant of a race: its slot with its board.
ghost use Rattle.std.specs.Prelude.{◌≡◌};
ghost use Rattle.atomic_table.specs.Seated.{TableId};
ghost use Rattle.inst_cell.specs.Opening.{IsOpened};

use inst_base::{Fault, Moment, mention};
use inst_cell::SharedBoard;
use inst_command::{Answer, Ask, Command, Outcome, Place, Reply, Step};
use inst_journal::Journal;
use inst_settings::Settings;
use inst_slot::Slot;
use std::alloc::Global;
use std::marker::Model;

/// A participant's slot with the board that has its role. The board is lawful for the slot.
#[derive(Drop)]
pub(crate) struct Racer {
    who: u8,
    settings: Settings,
    board: SharedBoard,
    slot: Slot,
}

impl Model for Racer {
    ghost use Rattle.std.specs.Prelude.{◌≡◌};
    ghost use Rattle.inst_cell.specs.Held.{settings_of, knows, has_role};
    ghost use Rattle.inst_slot.specs.Book.{Book};
    ghost use Rattle.inst_slot.specs.LawfulBoard.{IsLawfulBoard, AllAreAdopted};

    ghost Value = { Book };

    ghost view = { λ p. p.slot };

    ghost invariant = { λ p. IsLawfulBoard settings_of knows has_role p.board p.slot
        × AllAreAdopted p.slot
        × (p.slot.who ≡ p.who)
        × (p.slot.settings ≡ p.settings) };
}

fn answered(is_new: Result<bool, Fault>) -> Result<Answer, Fault> {
    match is_new {
        Ok(is_new) => Ok(Answer::New(is_new)),
        Err(fault) => Err(fault),
    }
}

impl Racer {
    /// Opens the participant of this board in a new hub.
    pub(crate) fn open(
        alloc: Global,
        settings: &Settings,
        board: SharedBoard,
        who: u8,
    ) -> Result<Racer, Fault>
        requires { (table : TableId) × IsOpened settings.now table who board }
    {
        mention::<Outcome>();
        Ok(Racer {
            who,
            settings: settings.copy()?,
            board,
            slot: Slot::open(alloc, settings, who)?,
        })
    }

    /// Returns the slot's reply. Fails with `BadField` if the command doesn't fit the settings.
    pub(crate) fn ask(&mut self, command: Command, at: Moment) -> Result<Reply, Fault> {
        let ask = Ask {
            who: self.who,
            command,
            at,
        };
        if !ask.fits(&self.settings) {
            return Err(Fault::BadField);
        }
        self.slot.apply(&mut self.board, &ask)
    }

    /// Does the same and ignores the reply.
    pub(crate) fn does(&mut self, command: Command, at: Moment) -> Result<(), Fault> {
        match self.ask(command, at) {
            Ok(_) => Ok(()),
            Err(fault) => Err(fault),
        }
    }

    pub(crate) fn deliver(&mut self, place: Place) -> Result<bool, Fault> {
        Ok(self.slot.deliver(&mut self.board, place)?)
    }

    pub(crate) fn learn(&mut self, place: Place) -> Result<bool, Fault> {
        Ok(self.slot.learn(&mut self.board, place)?)
    }

    pub(crate) fn expire(&mut self, index: u16, at: Moment) -> Result<bool, Fault> {
        Ok(self.slot.expire(&mut self.board, index, at)?)
    }

    /// Takes a step of this participant, and returns the answer.
    pub(crate) fn take(&mut self, step: &Step) -> Result<Answer, Fault> {
        match *step {
            Step::Ask(ask) => match self.ask(ask.command, ask.at) {
                Ok(reply) => Ok(Answer::Reply(reply)),
                Err(fault) => Err(fault),
            },
            Step::Deliver { from, index, .. } => answered(self.deliver(Place {
                owner: from,
                index,
            })),
            Step::Learn { from, index, .. } => answered(self.learn(Place { owner: from, index })),
            Step::Expire { index, at, .. } => answered(self.expire(index, at)),
        }
    }

    pub(crate) fn settings(&self) -> &Settings {
        &self.settings
    }

    pub(crate) fn journal(&self) -> &Journal {
        self.slot.journal()
    }
}
