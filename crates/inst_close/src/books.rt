//! The books of a closed hub.
ghost use Rattle.std.specs.Prelude.{◌≡◌, ◌<◌, length};
ghost use Rattle.inst_settings.specs.Lawful.{IsSettings};
ghost use Rattle.inst_settings.specs.Settings.{participants};
ghost use Rattle.inst_journal.specs.Sound.{IsSound};
ghost use Rattle.inst_model.specs.Closing.{AreClosed};
ghost use Rattle.inst_participant.specs.Together.{histories};
ghost use Rattle.inst_participant.specs.InTheBooks.{state_in_books};
ghost use Rattle.inst_close.specs.ClosedHub.{AreNumbered};

use inst_cell::Ticket;
use inst_command::{Place, State};
use inst_journal::Journal;
use inst_settings::Settings;
use inst_slot::Slot;
use std::marker::Model;

/// The books of all participants of a closed hub. Each is a history that a participant can have,
/// and together they are closed.
#[derive(Drop)]
pub struct Books {
    pub(crate) settings: Settings,
    pub(crate) slots: Vec<Slot>,
}

impl Model for Books {
    ghost use Rattle.inst_close.specs.ClosedHub.{ClosedHub, IsClosed};

    ghost Value = { ClosedHub };

    ghost view = { λ b. record { settings = b.settings; books = b.slots.items } };

    ghost invariant = { λ b. IsClosed b.settings b.slots.items };
}

impl Books {
    /// Makes books of these slots.
    pub(crate) fn of(settings: Settings, slots: Vec<Slot>) -> Books
        requires one_each { length slots.items ≡ participants settings }
        requires numbered { AreNumbered slots.items }
        requires closed { AreClosed settings (histories slots.items) }
        ensures settings { result.settings ≡ settings }
        ensures books { result.books ≡ slots.items }
    {
        Books { settings, slots }
    }

    /// Returns the settings of the hub. The contract also says that the books are closed.
    pub fn settings(&self) -> &Settings
        ensures settings { result.now ≡ self.now.settings }
        ensures lawful { IsSettings self.now.settings }
        ensures one_each { length self.now.books ≡ participants self.now.settings }
        ensures numbered { AreNumbered self.now.books }
        ensures closed { AreClosed self.now.settings (histories self.now.books) }
    {
        &self.settings
    }

    /// Returns the history of the participant `who`. Requires `who` below the number of
    /// participants.
    pub fn journal(&self, who: u8) -> &Journal
        requires { who < participants self.now.settings }
        ensures events { result.now.events ≡ histories self.now.books who }
        ensures sound { IsSound self.now.settings who result.now.events }
    {
        self.slots[usize::from(who)].journal()
    }

    /// Returns the state that the originator's book has for the ticket's place: `Unused` if no
    /// transfer was taken there.
    pub fn told(&self, ticket: &Ticket) -> State
        ensures { result ≡ state_in_books (histories self.now.books) ticket.now }
    {
        let Place { owner, index } = ticket.place();
        match self.slots.get(usize::from(owner)) {
            Some(slot) => slot.own_state(index),
            None => State::Unused,
        }
    }
}
