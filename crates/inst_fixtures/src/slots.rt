//! The slots of the worked rows' participants over one board.
ghost use Rattle.std.specs.Prelude.{◌≡◌};
ghost use Rattle.inst_journal.specs.Sound.{IsSound};

use crate::acts::{Act, act_of};
use crate::hub::settings_with;
use inst_base::{Fault, Moment};
use inst_board::PlainBoard;
use inst_command::Answer;
use inst_journal::{Event, Journal};
use inst_settings::Settings;
use inst_slot::Slot;
use std::alloc::Global;
use std::marker::Model;

/// Slots by their participants' numbers. The board is lawful for each.
#[derive(Drop)]
pub struct Slots {
    settings: Settings,
    board: PlainBoard,
    slots: Vec<Slot>,
}

impl Model for Slots {
    ghost use Rattle.std.specs.Prelude.{◌≡◌, ℕ, Some, slice_get};
    ghost use Rattle.inst_settings.specs.Settings.{HubSettings};
    ghost use Rattle.inst_board.specs.Plain.{Contents, plain_knows};
    ghost use Rattle.inst_slot.specs.Book.{Book};
    ghost use Rattle.inst_slot.specs.LawfulBoard.{IsLawfulBoard};

    ghost Value = { HubSettings };

    ghost view = { λ slots. slots.settings };

    ghost invariant = { λ slots. (p : ℕ) (book : Book) → slice_get slots.slots.items p ≡ Some book →
        IsLawfulBoard (λ (b : Contents). b.settings) plain_knows (λ _ _. Unit {0}) slots.board book
        × (book.who ≡ p) × (book.settings ≡ slots.settings) };
}

impl Slots {
    /// Opens the slots of three participants with two places each, for a first opening.
    ///
    /// # Errors
    ///
    /// [`Fault::Memory`] if an allocation fails, [`Fault::BadSettings`] if the margin isn't below
    /// the limit.
    pub fn open(alloc: Global, margin: u32) -> Result<Slots, Fault> {
        let settings = settings_with(alloc, 2, margin)?;
        let board = PlainBoard::new(alloc, &settings)?;
        let mut slots = Vec::new(alloc);
        slots.push(Slot::open(alloc, &settings, 0)?)?;
        slots.push(Slot::open(alloc, &settings, 1)?)?;
        slots.push(Slot::open(alloc, &settings, 2)?)?;
        Ok(Slots {
            settings,
            board,
            slots,
        })
    }

    /// Opens the slots from these books.
    fn open_from(
        alloc: Global,
        settings: Settings,
        first: &Journal,
        second: &Journal,
        third: &Journal,
    ) -> Result<Slots, Fault>
        requires first { IsSound settings 0 first.now.events }
        requires second { IsSound settings 1 second.now.events }
        requires third { IsSound settings 2 third.now.events }
    {
        let are_few = first.has_openings_left()
            && second.has_openings_left()
            && third.has_openings_left();
        if settings.participants() != 3 || !are_few {
            return Err(Fault::BadSettings);
        }
        let mut board = PlainBoard::new(alloc, &settings)?;
        let mut slots = Vec::new(alloc);
        slots.push(Slot::open_from(alloc, &settings, 0, &mut board, first)?)?;
        slots.push(Slot::open_from(alloc, &settings, 1, &mut board, second)?)?;
        slots.push(Slot::open_from(alloc, &settings, 2, &mut board, third)?)?;
        Ok(Slots {
            settings,
            board,
            slots,
        })
    }

    /// Opens slots from the books of these. If `is_first_new`, the first participant has none.
    ///
    /// # Errors
    ///
    /// [`Fault::Memory`] if an allocation fails, [`Fault::BadSettings`] if the books have no
    /// openings left.
    pub fn open_again(&self, alloc: Global, is_first_new: bool) -> Result<Slots, Fault> {
        let [first, second, third] = self.slots.as_slice() else {
            return Err(Fault::BadSettings);
        };
        let none = Journal::new(alloc);
        let first = if is_first_new { &none } else { first.journal() };
        let settings = self.settings.copy()?;
        Slots::open_from(alloc, settings, first, second.journal(), third.journal())
    }

    /// Returns the participant's slot, or `None` if there is no such participant.
    pub fn slot(&self, who: u8) -> Option<&Slot> {
        self.slots.get(usize::from(who))
    }

    /// Returns the participant's history, which is empty if there is no such participant.
    pub fn history(&self, who: u8) -> &[Event] {
        match self.slot(who) {
            Some(slot) => slot.journal().events(),
            None => &[],
        }
    }

    /// Returns the answer to the participant's act at this clock reading.
    ///
    /// # Errors
    ///
    /// [`Fault::Memory`] if an allocation fails, and the slot's refusal. [`Fault::BadField`] also
    /// if there is no such participant, the command doesn't fit the settings, or a carried transfer
    /// isn't adopted yet.
    pub fn act(&mut self, who: u8, act: &Act, at: Moment) -> Result<Answer, Fault> {
        match self.slots.get_mut(usize::from(who)) {
            Some(slot) => act_of(slot, &mut self.board, &self.settings, who, act, at),
            None => Err(Fault::BadField),
        }
    }
}
