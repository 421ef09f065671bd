//! The atomic steps of a board on the words of a place.
ghost use Rattle.std.specs.Prelude.{false, ◌≡◌, ◌⊎◌, ◌≢◌, ◌≤◌, ◌<◌, ◌+◌, ◌*◌, slice_index, IsTrue};
ghost use Rattle.inst_base.specs.Moment.{is_moment};
ghost use Rattle.inst_terms.specs.declared.terms.Terms.{Terms};
ghost use Rattle.inst_terms.specs.Terms.{IsTerms, words_of};
ghost use Rattle.inst_terms.specs.Word.{number, outcome_number, IsOutcome};
ghost use Rattle.inst_terms.specs.WordLaw.{InTime};
ghost use Rattle.inst_board.specs.declared.about.About.{About};
ghost use Rattle.inst_board.specs.declared.about.About.TheVariants.{Opened, HasTerms, Due};
ghost use Rattle.inst_board.specs.Standing.{IsPlace, pending, about};
ghost use Rattle.inst_board.specs.Learning.{IsAnswer};
ghost use Rattle.inst_board.specs.Plain.{place_number};
ghost use Rattle.inst_cell.specs.View.{view_after_learning, with_note};
ghost use Rattle.inst_cell.specs.Steps.{ShowsWord};
ghost use Rattle.inst_cell.specs.Held.{settings_of, view_of, knows, has_role, wrote, Stays};

use super::SharedBoard;
use crate::steps::{Deciding, Loading, LoadingTerm, Noting, PlaceOpening};
use crate::words::{decided_word, pending_word};
use inst_base::Moment;
use inst_command::{Outcome, Place};
use inst_terms::{Terms, unpack};

impl SharedBoard {
    /// Loads the outcome word.
    pub(super) fn load(&mut self, place: Place) -> u64
        requires { IsPlace (settings_of self.old) place }
        ensures stays { Stays self.old self.new }
        ensures shows { ShowsWord ⊥ (place_number (settings_of self.old) place) (view_of self.old)
            result
            (view_of self.new) }
    {
        let word = self.first_word(place) + 5;
        self.table.shared.load::<Loading>(&mut self.seat, word)
    }

    /// Loads a terms word of a place that is known to be opened.
    fn load_term(&mut self, place: Place, index: usize) -> u64
        requires opened { knows self.old (about place Opened) }
        requires index { index < 5 }
        ensures stays { Stays self.old self.new }
        ensures view { view_of self.new ≡ view_of self.old }
        ensures term { (t : Terms) → knows self.old (about place (HasTerms t)) →
            IsTerms t × (result ≡ slice_index (words_of t) index) }
    {
        let word = self.first_word(place) + index;
        self.table.shared.load::<LoadingTerm>(&mut self.seat, word)
    }

    /// Loads the terms of a place that is known to be opened.
    pub(super) fn terms(&mut self, place: Place) -> Terms
        requires opened { knows self.old (about place Opened) }
        requires known { (t : Terms) × knows self.old (about place (HasTerms t)) }
        ensures stays { Stays self.old self.new }
        ensures view { view_of self.new ≡ view_of self.old }
        ensures terms { (t : Terms) → knows self.old (about place (HasTerms t)) → result ≡ t }
    {
        let money = self.load_term(place, 0);
        let first = self.load_term(place, 1);
        let second = self.load_term(place, 2);
        let third = self.load_term(place, 3);
        let fourth = self.load_term(place, 4);
        match unpack(&[money, first, second, third, fourth]) {
            Some(terms) => terms,
            None => unreachable!(),
        }
    }

    /// Stores a terms word of a place that is not opened.
    pub(super) fn store_term(&mut self, place: Place, index: usize, value: u64)
        requires place { IsPlace (settings_of self.old) place }
        requires index { index < 5 }
        requires own { has_role self.old place.owner }
        requires unused { ¬ knows self.old (about place Opened) }
        ensures stays { Stays self.old self.new }
        ensures view { view_of self.new
            ≡ with_note (view_of self.old) (place_number (settings_of self.old) place * 6
            + index) value }
    {
        let word = self.first_word(place) + index;
        self.table
            .shared
            .store::<Noting>(&mut self.seat, word, value);
    }

    /// Opens the place: stores its outcome word, pending until the deadline.
    pub(super) fn put(&mut self, place: Place, deadline: Moment)
        requires place { IsPlace (settings_of self.old) place }
        requires own { has_role self.old place.owner }
        requires unused { ¬ knows self.old (about place Opened) }
        requires written { (t : Terms) × wrote self.old place t }
        requires deadline { 1 ≤ deadline }
        ensures stays { Stays self.old self.new }
        ensures learns { (t : Terms) → wrote self.old place t
            → view_of self.new
            ≡ view_after_learning (view_of self.old) (place_number (settings_of self.old) place)
            (pending t deadline) false }
        ensures moment { IsTrue (is_moment deadline) }
        ensures new { (a : About) → ¬ knows self.old (about place a) }
    {
        let word = self.first_word(place) + 5;
        let pending = pending_word(deadline);
        self.table
            .shared
            .store::<PlaceOpening>(&mut self.seat, word, pending);
    }

    /// Decides a place that is known to be pending until the deadline, unless it is decided
    /// already. Returns the outcome word afterwards.
    pub(super) fn settle(
        &mut self,
        place: Place,
        deadline: Moment,
        outcome: &Outcome,
        at: Moment,
    ) -> u64
        requires in_time { InTime (settings_of self.old).margin outcome.now deadline at }
        requires due { knows self.old (about place (Due deadline)) }
        requires terms { (t : Terms) × knows self.old (about place (HasTerms t))
            × (IsAnswer outcome.now → has_role self.old t.to)
            × (has_role self.old place.owner ⊎ has_role self.old t.to) }
        ensures stays { Stays self.old self.new }
        ensures shows { ShowsWord (result
            ≡ outcome_number outcome.now at) (place_number (settings_of self.old) place)
            (view_of self.old) result (view_of self.new) }
        ensures moved { result ≢ number deadline 0 0 }
        ensures word { IsOutcome outcome.now × IsTrue (is_moment at) }
    {
        let word = self.first_word(place) + 5;
        let pending = pending_word(deadline);
        let decided = decided_word(outcome, at);
        let found = self
            .table
            .shared
            .compare_exchange::<Deciding>(&mut self.seat, word, pending, decided);
        if found == pending { decided } else { found }
    }
}
