//! The hub in one thread: its fields, stepping, lookups, and whole runs.
ghost use Rattle.std.specs.Prelude.{◌≡◌, ◌<◌, ◌^◌, ℕ, true, List, [], reverse, option_map, Some};
ghost use Rattle.std.specs.Prelude.{None, IfOk, OnErr, IfSome};
ghost use Rattle.inst_settings.specs.Settings.{is_participant};
ghost use Rattle.inst_settings.specs.Lawful.{IsSettings};
ghost use Rattle.inst_command.specs.Step.{step_fits};
ghost use Rattle.inst_journal.specs.Money.{position};
ghost use Rattle.inst_journal.specs.Sound.{IsSound};
ghost use Rattle.inst_journal.specs.Statement.{statement_part};
ghost use Rattle.inst_model.specs.Opening.{Opening};
ghost use Rattle.inst_model.specs.Interleaving.{IsInterleaving};
ghost use Rattle.inst_model.specs.Trace.{trace};
ghost use Rattle.inst_model.specs.Transfer.{Transfer, at_place, deadline};
ghost use Rattle.inst_command.specs.declared.step.Step.{Step};
ghost use Rattle.inst_model.specs.Hub.{history, outcome};
ghost use Rattle.inst_slot.specs.Book.{place_at};
ghost use Rattle.inst_world.specs.HasRun.{IsWorld, HasRun, Runs, IsOfModel, IsUnrun};
ghost use Rattle.inst_world.specs.HasRun.{journal_of};
ghost use Rattle.inst_world.specs.Places.{IsPendingAt, IsPlaceOf};
ghost use Rattle.inst_world.specs.Headline.{run_of, KeepsTheHeadline};

mod closing;
mod next_opening;
mod stepping;

use crate::trace::Trace;
pub use closing::have_openings_left;
use inst_base::{Ident, Moment};
use inst_board::{Board, Look, PlainBoard};
use inst_command::{Answer, Items, Lines, Place, Step};
use inst_journal::Journal;
use inst_settings::Settings;
use inst_slot::Slot;
use std::alloc::{AllocError, Global};
use std::marker::Model;

/// A hub in one thread: a slot for each participant, over one plain board.
///
/// ```text
/// let mut world = World::open(alloc, &settings)?;
/// if step.fits(world.settings()) {
///     world.step(&step)?;       // the answer, which may be a refusal
/// }
/// world.position(0)             // the position of participant 0, in cents
/// ```
#[derive(Drop)]
pub struct World {
    settings: Settings,
    slots: Vec<Slot>,
    board: PlainBoard,
}

impl Model for World {
    ghost use Rattle.std.specs.Prelude.{◌≡◌};
    ghost use Rattle.inst_settings.specs.Lawful.{IsSettings};
    ghost use Rattle.inst_world.specs.HasRun.{World as TheWorld, IsWorld, HasRunSomething};

    ghost Value = { TheWorld };

    ghost view = { λ world. record { books = world.slots.items; board = world.board } };

    ghost invariant = { λ world. IsWorld (record { books = world.slots.items; board = world.board })
        × (world.board.settings ≡ world.settings)
        × IsSettings world.board.settings
        × HasRunSomething (record { books = world.slots.items; board = world.board }) };
}

impl World {
    /// Opens a hub for the first time. It copies the settings.
    ///
    /// Cost: linear in the participants. Reserves, for each participant, 56 bytes for each of 5 ×
    /// places + fundings; the memory is used as transfers come.
    ///
    /// # Errors
    ///
    /// [`AllocError`] if the settings, the board or a slot can't be allocated.
    pub fn open(alloc: Global, settings: &Settings) -> Result<World, AllocError>
        ensures ok { IfOk result (λ world. (world.board.settings ≡ settings.now)
            × HasRun Opening.First [] world) }
    {
        let settings = settings.copy()?;
        let board = PlainBoard::new(alloc, &settings)?;
        let mut slots = Vec::new(alloc);
        for who in 0..settings.participants() {
            slots.push(Slot::open(alloc, &settings, who as u8)?)?;
        }
        Ok(World {
            settings,
            slots,
            board,
        })
    }

    /// Returns the settings of the hub.
    pub fn settings(&self) -> &Settings
        ensures { result.now ≡ self.now.board.settings }
    {
        &self.settings
    }

    /// Returns the history of a participant. Requires `who` below the number of participants.
    pub fn journal(&self, who: u8) -> &Journal
        requires { is_participant self.now.board.settings who ≡ true }
        ensures events { result.now.events ≡ journal_of self.now who }
        ensures history { (O : Opening) (L : List Step) → HasRun O L self.now →
            result.now.events ≡ history self.now.board.settings O L who }
        ensures lawful { IsSettings self.now.board.settings }
        ensures sound { IsSound self.now.board.settings who result.now.events }
    {
        self.slots[usize::from(who)].journal()
    }

    /// Returns the position of a participant in cents: net funding and credits, less debits.
    ///
    /// Requires `who` below the number of participants. Takes constant time.
    pub fn position(&self, who: u8) -> u128
        requires { is_participant self.now.board.settings who ≡ true }
        ensures history { (O : Opening) (L : List Step) → HasRun O L self.now →
            result ≡ position (history self.now.board.settings O L who) }
        ensures within { result < 2 ^ 64 }
    {
        self.slots[usize::from(who)].position()
    }

    /// Returns at most `count` lines of a participant's statement since the last opening, after the
    /// first `skip`.
    ///
    /// Requires `who` below the number of participants. Cost: linear in the lines returned.
    ///
    /// # Errors
    ///
    /// [`AllocError`] if the lines can't be allocated.
    pub fn statement(
        &self,
        alloc: Global,
        who: u8,
        skip: u64,
        count: u32,
    ) -> Result<Lines, AllocError>
        requires { is_participant self.now.board.settings who ≡ true }
        ensures { IfOk result (λ lines. (O : Opening) (L : List Step) → HasRun O L self.now →
            lines ≡ statement_part (history self.now.board.settings O L who) skip count) }
    {
        self.slots[usize::from(who)].statement(alloc, skip, count)
    }

    /// Returns the slots of the participants, by number. Drops the board.
    pub fn into_slots(self) -> Vec<Slot>
        ensures slots { result.items ≡ self.books }
        ensures hub { IsWorld self }
    {
        let World { slots, .. } = self;
        slots
    }

    /// Runs one step, and returns its answer. The answer to a refused command is its refusal.
    ///
    /// Requires `step.fits(settings)`. Cost: a constant number of hash look-ups, and a sorted
    /// insertion or removal of a deadline; a statement or a fetch also copies what it returns.
    ///
    /// # Errors
    ///
    /// [`AllocError`]; the hub is unchanged. It is possible only for a step that needs memory
    /// (`NeedsMemory`): a command whose event is to be appended or that copies entries or lines,
    /// and a delivery, learning or expiry that finds something new.
    pub fn step(&mut self, step: &Step) -> Result<Answer, AllocError>
        requires fits { step_fits self.old.board.settings step.now ≡ true }
        ensures ok { IfOk result (λ answer. Runs self.old step.now answer self.new) }
        ensures model { IfOk result (λ answer. IsOfModel self.old.board.settings step.now answer) }
        ensures err { OnErr result (IsUnrun self.old self.new step.now) }
        ensures settings { self.new.board.settings ≡ self.old.board.settings }
    {
        // Using a field makes the type's invariant known to the prover.
        let _ = &self.settings;
        self.run_by_slot(step)
    }

    /// Returns the beneficiary of the transfer at the place, if there is one.
    pub fn beneficiary_at(&mut self, place: Place) -> Option<u8>
        ensures beneficiary { (O : Opening) (L : List Step) → HasRun O L self.old →
            result ≡ option_map (λ x.
            x.to) (at_place place.owner (history self.old.board.settings O L place.owner)
            place.index) }
        ensures participant { IfSome result (λ to.
            is_participant self.old.board.settings to ≡ true) }
        ensures owner { IfSome result (λ to.
            is_participant self.old.board.settings place.owner ≡ true) }
        ensures same { self.new ≡ self.old }
    {
        match self.board.look(place) {
            Look::Unused => None,
            Look::Pending(terms, _) | Look::Decided(terms, _) => Some(terms.to),
        }
    }

    /// Returns the deadline of the transfer at the place, if it is pending.
    pub fn pending_until(&mut self, place: Place) -> Option<Moment>
        ensures deadline { (O : Opening) (L : List Step) → HasRun O L self.old → (x : Transfer) →
            at_place place.owner (history self.old.board.settings O L place.owner) place.index
            ≡ Some x →
            outcome self.old.board.settings O L place.owner x.id ≡ None →
            result ≡ Some (deadline self.old.board.settings x) }
        ensures pending { (O : Opening) (L : List Step) → HasRun O L self.old →
            IfSome result (λ _. IsPendingAt self.old.board.settings O L place) }
        ensures same { self.new ≡ self.old }
    {
        match self.board.look(place) {
            Look::Pending(_, deadline) => Some(deadline),
            Look::Unused | Look::Decided(..) => None,
        }
    }

    /// Returns the place of the originator's live transfer with this identifier.
    ///
    /// Requires `from` below the number of participants.
    pub fn place_of(&self, from: u8, id: &Ident) -> Option<Place>
        requires participant { is_participant self.now.board.settings from ≡ true }
        ensures place { (O : Opening) (L : List Step) → HasRun O L self.now →
            (index : ℕ) (x : Transfer) →
            at_place from (history self.now.board.settings O L from) index ≡ Some x →
            x.id ≡ id.now → result ≡ Some (place_at from index) }
        ensures named { (O : Opening) (L : List Step) → HasRun O L self.now →
            IfSome result (IsPlaceOf self.now.board.settings O L from id.now) }
        ensures owner { IfSome result (λ place. place.owner ≡ from) }
    {
        self.slots[usize::from(from)].place_of(from, id)
    }

    /// Runs the steps in order on a new hub. Returns the hub and the answers.
    ///
    /// They keep the headline (`KeepsTheHeadline`): isolation, one outcome of each transfer,
    /// settled or released at most once, sums, books that fit, locality. Requires steps that fit
    /// the settings.
    ///
    /// # Errors
    ///
    /// [`AllocError`] from the first step that fails to allocate; the hub is dropped.
    pub fn run(
        alloc: Global,
        settings: &Settings,
        steps: &[Step],
    ) -> Result<(World, Trace), AllocError>
        requires fits { IsInterleaving settings.now steps.now }
        ensures ran { IfOk result (λ r. (r.0.board.settings ≡ settings.now)
            × HasRun Opening.First (reverse steps.now) r.0) }
        ensures headline { IfOk result (λ r.
            KeepsTheHeadline settings.now
            (run_of Opening.First steps.now (journal_of r.0) r.1.answers)) }
    {
        let mut world = World::open(alloc, settings)?;
        let trace = world.run_steps(alloc, steps)?;
        Ok((world, trace))
    }

    /// Runs the steps in order.
    fn run_steps(&mut self, alloc: Global, steps: &[Step]) -> Result<Trace, AllocError>
        requires fits { IsInterleaving self.old.board.settings steps.now }
        ensures ok { IfOk result (λ t. (O : Opening) → HasRun O [] self.old →
            HasRun O (reverse steps.now) self.new
            × (t.answers ≡ trace self.old.board.settings O (reverse steps.now))) }
        ensures settings { self.new.board.settings ≡ self.old.board.settings }
    {
        let mut answers = Vec::new(alloc);
        for step in steps {
            answers.push(self.step(step)?)?;
        }
        Ok(Trace {
            answers: Items::new(answers),
        })
    }
}
