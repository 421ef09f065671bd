//! A hub that was taken apart.
ghost use Rattle.std.specs.Prelude.{◌≡◌, ◌<◌, IfOk};
ghost use Rattle.inst_board.specs.declared.about.About.TheVariants.{Opened};
ghost use Rattle.inst_command.specs.declared.place.Place.{Place};
ghost use Rattle.inst_board.specs.Standing.{about};
ghost use Rattle.inst_cell.specs.Held.{knows};
ghost use Rattle.inst_model.specs.Closing.{AreClosed};
ghost use Rattle.inst_model.specs.Opening.{Opening};
ghost use Rattle.inst_settings.specs.Settings.{participants};
ghost use Rattle.inst_participant.specs.Sweeping.{new_events};
ghost use Rattle.inst_participant.specs.Together.{histories};
ghost use Rattle.inst_participant.specs.InTheBooks.{IsInTheBooks};
ghost use Rattle.inst_participant.specs.Apart.{IsPartsOf, AreLater, histories_of};
ghost use Rattle.inst_participant.specs.Parts.{IsSettledAt};

use crate::settled::{settle_each, settle_one};
use inst_cell::SharedBoard;
use inst_settings::Settings;
use inst_slot::Slot;
use std::alloc::AllocError;

/// What a hub is taken apart into: the slots of its participants, by number, and one board with all
/// roles.
#[derive(Drop)]
pub struct Parts {
    pub(crate) settings: Settings,
    pub(crate) slots: Vec<Slot>,
    pub(crate) board: SharedBoard,
}

impl Parts {
    /// Makes parts of these slots and this board.
    pub fn of(settings: Settings, slots: Vec<Slot>, board: SharedBoard) -> Parts
        ensures settings { result.settings ≡ settings }
        ensures slots { result.slots.items ≡ slots.items }
        ensures board { result.board ≡ board }
    {
        Parts {
            settings,
            slots,
            board,
        }
    }

    /// Settles one participant: books each decided outcome of its live transfers and delivers what
    /// is pending for it. Returns how many events this stored, at most 2^32 - 1.
    ///
    /// Its own transfers come first, by place, then the forwarded ones, in order of arrival, then
    /// the deliveries, by originator and place. Visits the participant's places and the used ones
    /// of the others.
    ///
    /// # Errors
    ///
    /// [`AllocError`] if an event can't be stored; what was done before is kept, and the call can
    /// be repeated.
    pub fn settle(&mut self, who: u8) -> Result<u32, AllocError>
        requires parts { (O : Opening) × IsPartsOf O self.old }
        requires participant { who < participants self.old.settings }
        ensures later { AreLater self.old self.new }
        ensures settled { IfOk result (λ _.
            IsSettledAt knows self.new.board who self.new.slots.items) }
        ensures count { IfOk result (λ count.
            count ≡ new_events (histories_of self.old who) (histories_of self.new who)) }
    {
        settle_one(&mut self.slots, &mut self.board, who)
    }

    /// Settles each participant, by number. Then the books are closed, and all that the board knew
    /// is in them.
    ///
    /// # Errors
    ///
    /// [`AllocError`] if an event can't be stored; what was done before is kept, and the call can
    /// be repeated.
    pub fn settle_all(&mut self) -> Result<(), AllocError>
        requires parts { (O : Opening) × IsPartsOf O self.old }
        ensures later { AreLater self.old self.new }
        ensures closed { IfOk result (λ _.
            AreClosed self.old.settings (histories self.new.slots.items)) }
        ensures told { IfOk result (λ _. (k : Place) → knows self.old.board (about k Opened) →
            IsInTheBooks knows self.old.board (histories self.new.slots.items) k) }
    {
        settle_each(&self.settings, &mut self.slots, &mut self.board)
    }

    /// Returns the settings and the slots, and drops the board.
    pub fn into_slots(self) -> (Settings, Vec<Slot>)
        ensures settings { result.0 ≡ self.settings }
        ensures slots { result.1.items ≡ self.slots.items }
    {
        let Parts {
            settings,
            slots,
            ..
        } = self;
        (settings, slots)
    }
}
