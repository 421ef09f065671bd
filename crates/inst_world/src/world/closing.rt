//! Closing a hub in one thread, and copying its books for the next opening.
ghost use Rattle.std.specs.Prelude.{◌≡◌, ◌++◌, ◌∷◌, ℕ, List, true, false, Some, None, IfOk, IfSome};
ghost use Rattle.std.specs.Prelude.{OnOk, option_map};
ghost use Rattle.inst_settings.specs.Settings.{is_participant, participants};
ghost use Rattle.inst_command.specs.declared.step.Step.{Step};
ghost use Rattle.inst_journal.specs.Opened.{HasOpeningsLeft};
ghost use Rattle.inst_model.specs.Closing.{of_places, of_originators, closing};
ghost use Rattle.inst_model.specs.Hub.{history};
ghost use Rattle.inst_model.specs.Opening.{Opening};
ghost use Rattle.inst_model.specs.Transfer.{at_place};
ghost use Rattle.inst_world.specs.HasRun.{HasRun, HasRunSomething};
ghost use Rattle.inst_world.specs.NextOpening.{books_of, AreJournalsOf, CanOpenFrom, AreCarried};
ghost use Rattle.inst_world.specs.NextOpening.{AreClosedBooks};
ghost use Rattle.inst_world.specs.NextOpening.{HasClosed, HasOnlyTold};
ghost use Rattle.inst_world.specs.inner.Closing.{HasAllBeneficiaries, HasBeneficiaries};

use super::World;
use inst_command::{Place, Step};
use inst_journal::Journal;
use std::alloc::{AllocError, Global};

/// Returns `true` if each journal can be opened from once more: it has fewer than 500 openings. Scans
/// the events of each.
pub fn have_openings_left(journals: &[Journal]) -> bool
    ensures few { result ≡ true → (p : ℕ) → HasOpeningsLeft (books_of journals.now p) }
    ensures many { result ≡ false → ¬ ((p : ℕ) → HasOpeningsLeft (books_of journals.now p)) }
{
    for journal in journals {
        if !journal.has_openings_left() {
            return false;
        }
    }
    true
}

impl World {
    /// Returns the beneficiaries of the originator's live transfers, by the index of their places.
    fn beneficiaries(&mut self, alloc: Global, from: u8) -> Result<Vec<u8>, AllocError>
        ensures has { IfOk result (λ list. HasBeneficiaries self.old from list.items) }
        ensures same { self.new ≡ self.old }
    {
        let mut list = Vec::new(alloc);
        for index in 0..self.settings.places() {
            let Some(to) = self.beneficiary_at(Place { owner: from, index }) else {
                break;
            };
            list.push(to)?;
        }
        Ok(list)
    }

    /// Returns the beneficiaries of each originator's live transfers, by its number.
    fn all_beneficiaries(&mut self, alloc: Global) -> Result<Vec<Vec<u8>>, AllocError>
        ensures has { IfOk result (λ lists. HasAllBeneficiaries self.old lists.items) }
        ensures same { self.new ≡ self.old }
    {
        let mut lists = Vec::new(alloc);
        for from in 0..self.settings.participants() {
            lists.push(self.beneficiaries(alloc, from as u8)?)?;
        }
        Ok(lists)
    }

    /// Lets the participant learn the outcome at the place, and delivers the pending transfer to it.
    /// Does nothing if it is no side of the transfer there, which goes to `to`.
    fn tell_place(&mut self, who: u8, place: Place, to: u8) -> Result<(), AllocError>
        requires who { is_participant self.old.board.settings who ≡ true }
        requires from { is_participant self.old.board.settings place.owner ≡ true }
        requires to { (O : Opening) (L : List Step) → HasRun O L self.old →
            Some to ≡ option_map (λ x.
            x.to) (at_place place.owner (history self.old.board.settings O L place.owner)
            place.index) }
        ensures ran { OnOk result ((O : Opening) (L : List Step) → HasRun O L self.old →
            HasRun O (Step.Deliver place.owner place.index who
            ∷ Step.Learn who place.owner place.index ∷ L) self.new) }
        ensures told { HasOnlyTold self.old self.new }
        ensures settings { self.new.board.settings ≡ self.old.board.settings }
    {
        let Place { owner: from, index } = place;
        if who != from && who != to {
            return Ok(());
        }
        self.step(&Step::Learn { who, from, index })?;
        let to = who;
        self.step(&Step::Deliver { from, index, to })?;
        Ok(())
    }

    /// Does the same for each place of the originator. `beneficiaries` are those of its live
    /// transfers; no other place has a transfer.
    fn tell_places(&mut self, who: u8, from: u8, beneficiaries: &[u8]) -> Result<(), AllocError>
        requires who { is_participant self.old.board.settings who ≡ true }
        requires from { is_participant self.old.board.settings from ≡ true }
        requires run { HasRunSomething self.old }
        requires beneficiaries { HasBeneficiaries self.old from beneficiaries.now }
        ensures ran { OnOk result ((O : Opening) (L : List Step) → HasRun O L self.old →
            HasRun O (of_places who from self.old.board.settings.places ++ L) self.new) }
        ensures told { HasOnlyTold self.old self.new }
        ensures settings { self.new.board.settings ≡ self.old.board.settings }
    {
        for index in 0..beneficiaries.len() {
            let place = Place {
                owner: from,
                index: index as u16,
            };
            self.tell_place(who, place, beneficiaries[index])?;
        }
        Ok(())
    }

    /// Does the same for the places of all originators.
    fn tell_originators(&mut self, who: u8, beneficiaries: &[Vec<u8>]) -> Result<(), AllocError>
        requires who { is_participant self.old.board.settings who ≡ true }
        requires run { HasRunSomething self.old }
        requires beneficiaries { HasAllBeneficiaries self.old beneficiaries.now }
        ensures ran { OnOk result ((O : Opening) (L : List Step) → HasRun O L self.old →
            HasRun O (of_originators who self.old.board.settings.places
            (participants self.old.board.settings) ++ L) self.new) }
        ensures told { HasOnlyTold self.old self.new }
        ensures settings { self.new.board.settings ≡ self.old.board.settings }
    {
        let originators = self.settings().participants();
        for from in 0..originators {
            self.tell_places(who, from as u8, &beneficiaries[usize::from(from)])?;
        }
        Ok(())
    }

    /// Closes the hub: each participant learns the decided outcomes and gets the pending transfers,
    /// at every place. Decides nothing.
    ///
    /// The hub may run further steps. Cost: a `Learn` and a `Deliver` for both sides of each live
    /// transfer, and a comparison for each other participant. Takes a byte for each live transfer
    /// meanwhile.
    ///
    /// # Errors
    ///
    /// [`AllocError`]. Some participants learnt or got some transfers; nothing else changed, and
    /// the call can be repeated.
    pub fn close(&mut self) -> Result<(), AllocError>
        ensures ran { OnOk result ((O : Opening) (L : List Step) → HasRun O L self.old →
            HasRun O (closing self.old.board.settings ++ L) self.new) }
        ensures told { HasOnlyTold self.old self.new }
        ensures closed { OnOk result (HasClosed self.new) }
        ensures settings { self.new.board.settings ≡ self.old.board.settings }
    {
        let alloc = *self.slots.allocator();
        let participants = self.settings.participants();
        let beneficiaries = self.all_beneficiaries(alloc)?;
        for who in 0..participants {
            self.tell_originators(who as u8, &beneficiaries)?;
        }
        Ok(())
    }

    /// Returns copies of all journals, in the order of the participants.
    fn journals(&self, alloc: Global) -> Result<Vec<Journal>, AllocError>
        ensures ok { IfOk result (λ journals. (O : Opening) (L : List Step) → HasRun O L self.now →
            AreJournalsOf self.now.board.settings (history self.now.board.settings O L)
            journals.items) }
    {
        let mut journals = Vec::new(alloc);
        let participants = self.settings().participants();
        for who in 0..participants {
            journals.push(self.journal(who as u8).copy()?)?;
        }
        Ok(journals)
    }

    /// Closes the hub as [`close`](World::close) does, and copies its books.
    ///
    /// Cost: that of `close`, and linear in the events.
    ///
    /// # Errors
    ///
    /// [`AllocError`], as for [`close`](World::close), or if the copies can't be allocated; the hub
    /// is then closed.
    pub fn close_books(&mut self, alloc: Global) -> Result<Vec<Journal>, AllocError>
        ensures books { IfOk result (λ journals. (O : Opening) (L : List Step) → HasRun O L self.old →
            AreCarried self.old.board.settings O L journals.items) }
        ensures closed { IfOk result (λ journals.
            AreClosedBooks self.old.board.settings journals.items) }
        ensures ran { OnOk result ((O : Opening) (L : List Step) → HasRun O L self.old →
            HasRun O (closing self.old.board.settings ++ L) self.new) }
        ensures told { HasOnlyTold self.old self.new }
        ensures settings { self.new.board.settings ≡ self.old.board.settings }
    {
        self.close()?;
        self.journals(alloc)
    }

    /// Closes the hub and copies its books as [`close_books`](World::close_books) does, for the next
    /// opening.
    ///
    /// Returns `None` if a participant's history can't be opened from once more, which is after 500
    /// openings.
    ///
    /// # Errors
    ///
    /// As for [`close_books`](World::close_books).
    pub fn carry(&mut self, alloc: Global) -> Result<Option<Vec<Journal>>, AllocError>
        ensures books { IfOk result (λ books.
            IfSome books (λ journals. (O : Opening) (L : List Step) → HasRun O L self.old →
            AreCarried self.old.board.settings O L journals.items)) }
        ensures can { IfOk result (λ books.
            IfSome books (λ journals. CanOpenFrom self.old.board.settings journals.items)) }
        ensures many { IfOk result (λ books. books ≡ None → (O : Opening) (L : List Step) →
            HasRun O L self.old →
            ¬ ((p : ℕ) →
            HasOpeningsLeft (history self.old.board.settings O (closing self.old.board.settings
            ++ L) p))) }
        ensures ran { OnOk result ((O : Opening) (L : List Step) → HasRun O L self.old →
            HasRun O (closing self.old.board.settings ++ L) self.new) }
        ensures told { HasOnlyTold self.old self.new }
        ensures settings { self.new.board.settings ≡ self.old.board.settings }
    {
        let journals = self.close_books(alloc)?;
        if !have_openings_left(&journals) {
            return Ok(None);
        }
        Ok(Some(journals))
    }
}
