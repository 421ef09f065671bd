//! Opening a hub again from the journals of its participants.
ghost use Rattle.std.specs.Prelude.{◌≡◌, ◌+◌, [], reverse, IfOk};
ghost use Rattle.inst_settings.specs.Settings.{participants};
ghost use Rattle.inst_model.specs.Interleaving.{IsInterleaving};
ghost use Rattle.inst_world.specs.HasRun.{HasRun, journal_of};
ghost use Rattle.inst_world.specs.Headline.{run_of, KeepsTheHeadline};
ghost use Rattle.inst_world.specs.NextOpening.{books_of, opening_from, CanOpenFrom};
ghost use Rattle.inst_world.specs.inner.NextOpening.{AreOpenedAgain, HaveFoundBefore, OnlyFinds};

use super::World;
use crate::trace::Trace;
use inst_board::{Board, Look, PlainBoard};
use inst_command::{Place, Step};
use inst_journal::Journal;
use inst_settings::Settings;
use inst_slot::Slot;
use std::alloc::{AllocError, Global};
use std::marker::Model;

impl World {
    /// Opens a hub again from these journals, one for each participant by number.
    ///
    /// Pending transfers stay pending; the places of decided ones are free again. The journals are
    /// copied. Requires journals from which a hub with these settings can open (`CanOpenFrom`):
    /// those of [`carry`](World::carry), or others that `inst_books::can_open` accepts. Cost:
    /// linear in the events and in all places.
    ///
    /// # Errors
    ///
    /// [`AllocError`] if the hub or the copies can't be allocated.
    pub fn open_from(
        alloc: Global,
        settings: &Settings,
        journals: &[Journal],
    ) -> Result<World, AllocError>
        requires journals { CanOpenFrom settings.now journals.now }
        ensures ok { IfOk result (λ world. (world.board.settings ≡ settings.now)
            × HasRun (opening_from journals.now) [] world) }
    {
        let settings = settings.copy()?;
        let mut opened = Reopened::open(alloc, &settings, journals)?;
        opened.adopt_all(&settings);
        let Reopened { slots, board } = opened;
        Ok(World {
            settings,
            slots,
            board,
        })
    }

    /// Runs the steps in order on a hub that opens again from these journals. Returns the hub and
    /// the answers, which keep what [`run`](World::run) promises.
    ///
    /// Requires journals as for [`open_from`](World::open_from), and steps that fit the settings.
    ///
    /// # Errors
    ///
    /// [`AllocError`] from the opening, or from the first step that fails to allocate; the hub is
    /// dropped.
    pub fn run_from(
        alloc: Global,
        settings: &Settings,
        journals: &[Journal],
        steps: &[Step],
    ) -> Result<(World, Trace), AllocError>
        requires journals { CanOpenFrom settings.now journals.now }
        requires fits { IsInterleaving settings.now steps.now }
        ensures ran { IfOk result (λ r. (r.0.board.settings ≡ settings.now)
            × HasRun (opening_from journals.now) (reverse steps.now) r.0) }
        ensures headline { IfOk result (λ r.
            KeepsTheHeadline settings.now
            (run_of (opening_from journals.now) steps.now (journal_of r.0) r.1.answers)) }
    {
        let mut world = World::open_from(alloc, settings, journals)?;
        let trace = world.run_steps(alloc, steps)?;
        Ok((world, trace))
    }
}

/// The slots of a hub that opens again, over its board. Some carried transfers may not be adopted
/// yet.
#[derive(Drop)]
struct Reopened {
    slots: Vec<Slot>,
    board: PlainBoard,
}

impl Model for Reopened {
    ghost use Rattle.inst_world.specs.HasRun.{World};
    ghost use Rattle.inst_world.specs.inner.NextOpening.{IsCarryingWorld};

    ghost Value = { World };

    ghost view = { λ opened. record { books = opened.slots.items; board = opened.board } };

    ghost invariant = { λ opened. IsCarryingWorld
        (record { books = opened.slots.items; board = opened.board }) };
}

impl Reopened {
    /// Opens the slots of the participants from their journals over an empty board.
    fn open(
        alloc: Global,
        settings: &Settings,
        journals: &[Journal],
    ) -> Result<Reopened, AllocError>
        requires journals { CanOpenFrom settings.now journals.now }
        ensures ok { IfOk result
            (AreOpenedAgain settings.now (books_of journals.now) (participants settings.now)) }
    {
        let mut board = PlainBoard::new(alloc, settings)?;
        let mut slots = Vec::new(alloc);
        for who in 0..settings.participants() {
            let journal = &journals[usize::from(who)];
            slots.push(Slot::open_from(alloc, settings, who as u8, &mut board, journal)?)?;
        }
        Ok(Reopened { slots, board })
    }

    /// Visits each place, so that each carried transfer is adopted.
    fn adopt_all(&mut self, settings: &Settings)
        requires settings { self.old.board.settings ≡ settings.now }
        ensures found { HaveFoundBefore (participants settings.now) 0 self.new }
        ensures finds { OnlyFinds self.old self.new }
    {
        for owner in 0..settings.participants() {
            self.adopt_from(owner as u8, settings.places());
        }
    }

    /// Visits each place of an originator.
    fn adopt_from(&mut self, owner: u8, places: u16)
        requires places { places ≡ self.old.board.settings.places }
        requires found { HaveFoundBefore owner 0 self.old }
        ensures found { HaveFoundBefore (owner + 1) 0 self.new }
        ensures finds { OnlyFinds self.old self.new }
    {
        for index in 0..places {
            self.adopt_at(Place { owner, index });
        }
    }

    /// Lets the beneficiary adopt the transfer that is pending at the place.
    fn adopt_at(&mut self, place: Place)
        requires found { HaveFoundBefore place.owner place.index self.old }
        ensures found { HaveFoundBefore place.owner (place.index + 1) self.new }
        ensures finds { OnlyFinds self.old self.new }
    {
        if let Look::Pending(terms, _) = self.board.look(place) {
            self.slots[usize::from(terms.to)].adopt(&mut self.board, place);
        }
    }
}
