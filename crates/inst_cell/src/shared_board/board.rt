//! The trait `Board` for the shared board.
use super::SharedBoard;
use crate::words::{pack_terms, read_word};
use inst_base::Moment;
use inst_board::{Board, Look, PlaceState, Wish};
use inst_command::{Outcome, Place};
use inst_terms::{Terms, Word};

impl Board for SharedBoard {
    ghost use Rattle.std.proofs.Common.{refl, ◌∙◌};
    ghost use Rattle.inst_cell.specs.Held.{settings_of, knows as known_by, has_role as role_of};
    ghost use Rattle.inst_cell.specs.Held.{wrote as written_by, stood as stood_by};
    ghost use Rattle.inst_cell.specs.Held.{Stays as IsLater};
    ghost use Rattle.inst_board.specs.Plain.{place_number};
    ghost use Rattle.inst_cell.specs.View.{known_standing};
    ghost use Rattle.inst_cell.specs.Held.{view_of, roles_same};

    ghost settings = { settings_of };

    ghost knows = { known_by };

    ghost has_role = { role_of };

    ghost wrote = { written_by };

    ghost stood = { stood_by };

    ghost stays = { IsLater };

    ghost stays_still = { λ a. record { settings = refl; table = refl; roles = refl } };

    ghost stays_on = { λ a b c p q.
        record {
          settings = q.settings ∙ p.settings;
          table = q.table ∙ p.table;
          roles =
              q.roles ∙ p.roles;
        } };

    ghost stays_settings = { λ a b p. p.settings };

    ghost stays_roles = { λ a b p q. roles_same a b p q };

    ghost stood_seldom = { λ b k t o known role was. was t known role };

    ghost knows_one = { λ b k. (
      known_standing (view_of b) (place_number (settings_of b) k),
      λ a h.
          b.one (place_number (settings_of b) k) a h.1,
    ) };

    ghost knows_places = { λ b k a h. h.0 };

    fn write_terms(&mut self, place: Place, terms: &Terms) {
        let [money, first, second, third, fourth] = pack_terms(terms);
        self.store_term(place, 0, money);
        self.store_term(place, 1, first);
        self.store_term(place, 2, second);
        self.store_term(place, 3, third);
        self.store_term(place, 4, fourth);
    }

    fn open(&mut self, place: Place, deadline: Moment) {
        self.put(place, deadline);
    }

    fn look(&mut self, place: Place) -> Look {
        if !self.has(place) {
            return Look::Unused;
        }
        let word = self.load(place);
        match read_word(word) {
            Word::Unused => Look::Unused,
            Word::Pending(deadline) => {
                let terms = self.terms(place);
                Look::Pending(terms, deadline)
            }
            Word::Decided(outcome, _) => {
                let terms = self.terms(place);
                Look::Decided(terms, outcome)
            }
        }
    }

    fn place_state(&mut self, place: Place) -> PlaceState {
        let word = self.load(place);
        match read_word(word) {
            Word::Unused => PlaceState::Unused,
            Word::Pending(deadline) => PlaceState::Pending(deadline),
            Word::Decided(outcome, _) => PlaceState::Decided(outcome),
        }
    }

    fn decide(&mut self, place: Place, wish: Wish, at: Moment) -> Option<Outcome> {
        let word = self.load(place);
        match read_word(word) {
            Word::Decided(outcome, _) => Some(outcome),
            Word::Pending(deadline) => {
                let outcome = wish.outcome(self.margin, deadline, at)?;
                let word = self.settle(place, deadline, &outcome, at);
                match read_word(word) {
                    Word::Decided(outcome, _) => Some(outcome),
                    _ => unreachable!(),
                }
            }
            Word::Unused => unreachable!(),
        }
    }
}
