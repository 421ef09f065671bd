//! The trait of boards.

use crate::{Look, PlaceState, Wish};
use inst_base::Moment;
use inst_command::{Outcome, Place};
use inst_terms::Terms;

/// A holder of the outcome words of all places.
///
/// Its knowledge only grows, and what it knows of a place stays true. No call allocates.
pub trait Board {
    ghost use Rattle.std.specs.Prelude.{◌≡◌, ◌≢◌, ◌↔◌, ◌⊎◌, ℕ, ◌≤◌, IsTrue};
    ghost use Rattle.inst_settings.specs.Settings.{HubSettings, is_participant};
    ghost use Rattle.inst_command.specs.declared.outcome.Outcome.{Outcome};
    ghost use Rattle.inst_command.specs.declared.outcome.Outcome.TheVariants.{TimedOut};
    ghost use Rattle.inst_terms.specs.declared.terms.Terms.{Terms};
    ghost use Rattle.inst_command.specs.declared.place.Place.{Place};
    ghost use Rattle.inst_board.specs.declared.look.Look.{Look};
    ghost use Rattle.inst_board.specs.declared.about.About.{About};
    ghost use Rattle.inst_board.specs.declared.about.About.TheVariants.{Opened, HasTerms, Decided};
    ghost use Rattle.inst_board.specs.declared.about.Fact.{Fact};
    ghost use Rattle.inst_board.specs.Standing.{Standing, IsPlace, Says, pending, place_state_of};
    ghost use Rattle.inst_board.specs.Standing.{about};
    ghost use Rattle.inst_board.specs.Learning.{Learns, KnowTheSame, KeepsWritten, Looks};
    ghost use Rattle.inst_board.specs.Learning.{MayDecide, Decides};

    /// The settings of the hub.
    ghost settings: { Self → HubSettings };

    /// The facts that the holder knows.
    ghost knows: { Self → Fact → Type 0 };

    /// The holder has the role of this participant: only it opens the participant's places, and
    /// only it answers transfers addressed to the participant.
    ghost has_role: { Self → ℕ → Type 0 };

    /// The terms that the holder wrote to a place that isn't opened yet.
    ghost wrote: { Self → Place → Terms → Type 0 };

    /// This outcome of the place may have been decided before.
    ghost stood: { Self → Place → Outcome → Type 0 };

    /// The second is the same holder as the first, at a later time.
    ghost stays: { Self → Self → Type 0 };

    /// Writes the terms of an unused place that the holder may open.
    fn write_terms(&mut self, place: Place, terms: &Terms)
        requires place { IsPlace (settings self.old) place }
        requires beneficiary { IsTrue (is_participant (settings self.old) terms.now.to) }
        requires own { has_role self.old place.owner }
        requires unused { ¬ knows self.old (about place Opened) }

        ensures written { wrote self.new place terms.now }
        ensures others { KeepsWritten wrote self.old (λ k. k ≢ place) self.new }
        ensures knowledge { KnowTheSame knows self.old self.new }
        ensures stays { stays self.old self.new };

    /// Opens a place with the terms that were written last. It is pending until `deadline`, which
    /// is at least 1 ms after the base.
    fn open(&mut self, place: Place, deadline: Moment)
        requires place { IsPlace (settings self.old) place }
        requires own { has_role self.old place.owner }
        requires unused { ¬ knows self.old (about place Opened) }
        requires written { (terms : Terms) × wrote self.old place terms }
        requires deadline { 1 ≤ deadline }

        ensures opened { (terms : Terms) → wrote self.old place terms →
            Learns (settings self.old).margin knows self.old place
            (pending terms deadline) self.new }
        ensures others { KeepsWritten wrote self.old (λ k. k ≢ place) self.new }
        ensures stays { stays self.old self.new };

    /// Returns what the place shows now; `Unused` also if the settings have no such place.
    fn look(&mut self, place: Place) -> Look
        ensures look { Looks (settings self.old).margin knows has_role stood self.old place result
            self.new }
        ensures outside { ¬ IsPlace (settings self.old) place → result ≡ Look.Unused }
        ensures written { KeepsWritten wrote self.old (λ _. Unit {0}) self.new }
        ensures stays { stays self.old self.new };

    /// Returns what [`look`](Board::look) shows, without the terms, which must be known.
    fn place_state(&mut self, place: Place) -> PlaceState
        requires terms { (terms : Terms) × knows self.old (about place (HasTerms terms)) }

        ensures look { (look : Look)
            × Looks (settings self.old).margin knows has_role stood self.old place look self.new
            × (result ≡ place_state_of look) }
        ensures written { KeepsWritten wrote self.old (λ _. Unit {0}) self.new }
        ensures stays { stays self.old self.new };

    /// Decides a place that is known to be opened, with its terms and deadline.
    ///
    /// Returns the outcome that the place has afterwards, or `None` if the transfer is still
    /// pending. An earlier outcome stays; else the place gets the outcome that the wish wants at
    /// the clock reading `at`, if any. For `Accept` and `Reject` the holder must have the
    /// beneficiary's role, for `Expire` that of a party.
    fn decide(&mut self, place: Place, wish: Wish, at: Moment) -> Option<Outcome>
        requires { MayDecide knows has_role self.old place wish }

        ensures decides { Decides (settings self.old).margin knows stood self.old place wish at
            result self.new }
        ensures written { KeepsWritten wrote self.old (λ _. Unit {0}) self.new }
        ensures stays { stays self.old self.new };

    ghost stays_still: { (a : Self) → stays a a };

    ghost stays_on: { (a b c : Self) → stays a b → stays b c → stays a c };

    ghost stays_settings: { (a b : Self) → stays a b → settings b ≡ settings a };

    ghost stays_roles: { (a b : Self) (p : ℕ) → stays a b → has_role a p ↔ has_role b p };

    /// The beneficiary's holder knows its own answers, so any other earlier outcome is the
    /// time-out.
    ghost stood_seldom: { (b : Self) (k : Place) (t : Terms) (o : Outcome) →
        knows b (about k (HasTerms t)) → has_role b t.to →
        stood b k o → knows b (about k (Decided o)) ⊎ (o ≡ TimedOut) };

    /// The facts that the holder knows about a place are true of one standing.
    ghost knows_one: { (b : Self) (k : Place) →
        (p : Standing) × ((a : About) → knows b (about k a) → Says p a) };

    /// The holder knows nothing about a place that the settings don't have.
    ghost knows_places: { (b : Self) (k : Place) (a : About) → knows b (about k a) →
        IsPlace (settings b) k };
}
