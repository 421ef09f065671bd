//! The board of a hub in one thread.
ghost use Rattle.std.specs.Prelude.{◌≡◌, ◌+◌, ◌*◌, ◌<◌, ◌≤◌, ℕ, Some, IfOk, length, get_or};
ghost use Rattle.std.specs.Prelude.{vec_capacity};
ghost use Rattle.inst_board.specs.declared.plain.Kept.TheVariants.{Unused as KeptUnused};
ghost use Rattle.inst_board.specs.inner.Plain.{Puts, PutsTerms};

use crate::kept_word::KeptWord;
use crate::{Board, Look, PlaceState, Wish};
use inst_base::Moment;
use inst_command::{Outcome, Place};
use inst_settings::Settings;
use inst_terms::{Terms, Word};
use std::alloc::{AllocError, Global};
use std::marker::Model;
use std::snapshot::Snapshot;

/// The content of a place of a plain board, as contracts see it.
#[derive(Clone, Copy)]
pub enum Kept {
    /// Nothing.
    Unused,
    /// The terms, until the place is opened.
    Written(Terms),
    /// The terms and the deadline.
    Pending(Terms, Moment),
    /// The terms, the deadline, the outcome and the clock reading at which it was decided.
    Decided(Terms, Moment, Outcome, Moment),
}

/// A board with a single holder, which has all roles and knows all that is true of the places.
///
/// Capacity for all places is reserved when it is made, and touched as they are used. A call reads
/// or writes one place; writing a place after the last one that was written also clears the places
/// between. Outcome words are stored apart from the terms, so a decision writes only eight bytes.
///
/// ```text
/// let mut board = PlainBoard::new(alloc, &settings)?;
/// board.write_terms(place, &terms);
/// board.open(place, deadline);
/// board.decide(place, Wish::Accept, at) // Some(Outcome::Accepted), in time
/// board.look(place)                     // Look::Decided(terms, Outcome::Accepted)
/// ```
#[derive(Drop)]
pub struct PlainBoard {
    settings: Snapshot<Settings>,
    participants: u16,
    places: u16,
    margin: u32,
    /// The outcome words, by rank.
    words: Vec<KeptWord>,
    /// The terms, by rank; arbitrary for a place without content.
    terms: Vec<Terms>,
}

impl Model for PlainBoard {
    ghost use Rattle.std.specs.Prelude.{◌≡◌, ◌≤◌, ◌*◌, length, vec_capacity};
    ghost use Rattle.inst_board.specs.Plain.{Contents, IsContents, HaveTerms};

    ghost Value = { Contents };

    ghost view = { λ b. record { settings = b.settings.value; kept = b.words.items } };

    ghost invariant = { λ b. IsContents
        (record { settings = b.settings.value; kept = b.words.items })
        × (b.participants ≡ length b.settings.value.codes)
        × (b.places ≡ b.settings.value.places)
        × (b.margin ≡ b.settings.value.margin)
        × (length b.settings.value.codes * b.settings.value.places ≤ vec_capacity b.words)
        × (length b.settings.value.codes * b.settings.value.places ≤ vec_capacity b.terms)
        × HaveTerms b.words.items b.terms.items };
}

impl PlainBoard {
    ghost use Rattle.inst_terms.specs.declared.terms.Terms.{Terms};
    ghost use Rattle.inst_command.specs.declared.place.Place.{Place};
    ghost use Rattle.inst_board.specs.declared.plain.Kept.TheVariants.{Unused as KeptUnused};
    ghost use Rattle.inst_board.specs.Standing.{IsPlace, IsLawful, is_place, look_of, word_of};
    ghost use Rattle.inst_board.specs.Plain.{Becomes, kept_at, standing_at, standing_of};
    ghost use Rattle.inst_board.specs.Plain.{kept_terms};

    /// Makes the board of a hub that opens, with all places unused.
    ///
    /// # Errors
    ///
    /// [`AllocError`] if the capacity for all places can't be allocated.
    pub fn new(alloc: Global, settings: &Settings) -> Result<PlainBoard, AllocError>
        ensures unused { IfOk result (λ b. (b.settings ≡ settings.now)
            × ((place : Place) → kept_at b place ≡ KeptUnused)) }
    {
        let participants = settings.participants();
        let places = settings.places();
        let size = usize::from(participants) * usize::from(places);
        Ok(PlainBoard {
            settings: Snapshot::of(settings),
            participants,
            places,
            margin: settings.margin(),
            words: Vec::with_capacity(alloc, size)?,
            terms: Vec::with_capacity(alloc, size)?,
        })
    }

    fn has(&self, place: Place) -> bool
        ensures { result ≡ is_place self.now.settings place }
    {
        u16::from(place.owner) < self.participants && place.index < self.places
    }

    /// Returns the content of the place's word.
    #[inline(always)]
    fn word(&self, place: Place) -> Word
        ensures value { result ≡ word_of (standing_at self.now place) }
        ensures lawful { IsLawful self.now.settings.margin (standing_at self.now place) }
    {
        if !self.has(place) {
            return Word::Unused;
        }
        match self.words.get(rank_of(self.participants, place)) {
            Some(word) => word.says(),
            None => Word::Unused,
        }
    }

    /// Returns the terms of a place that was written.
    #[inline(always)]
    fn terms(&self, place: Place) -> Terms
        requires { (terms : Terms) × (kept_terms (kept_at self.now place) ≡ Some terms) }
        ensures { kept_terms (kept_at self.now place) ≡ Some result }
    {
        self.terms[rank_of(self.participants, place)]
    }

    /// Returns what the place shows.
    #[inline(always)]
    fn shown(&self, place: Place) -> Look
        ensures look { result ≡ look_of (standing_at self.now place) }
        ensures lawful { IsLawful self.now.settings.margin (standing_at self.now place) }
    {
        match self.word(place) {
            Word::Unused => Look::Unused,
            Word::Pending(deadline) => Look::Pending(self.terms(place), deadline),
            Word::Decided(outcome, _) => Look::Decided(self.terms(place), outcome),
        }
    }

    /// Stores the terms of a place that isn't opened.
    fn write(&mut self, place: Place, terms: &Terms)
        requires { IsPlace self.old.settings place }
        ensures { Becomes self.old place (Kept.Written terms.now) self.new }
    {
        let rank = rank_of(self.participants, place);
        put_terms(&mut self.terms, rank, terms);
        put(&mut self.words, rank, KeptWord::new(&Kept::Written(*terms)));
    }

    /// Stores the content of a place whose terms were written.
    #[inline(always)]
    fn keep(&mut self, place: Place, kept: &Kept)
        requires written { (terms : Terms) × (kept_terms (kept_at self.old place) ≡ Some terms)
            × (kept_terms kept.now ≡ Some terms) }
        requires lawful { IsLawful self.old.settings.margin (standing_of kept.now) }
        ensures { Becomes self.old place kept.now self.new }
    {
        self.words[rank_of(self.participants, place)] = KeptWord::new(kept);
    }
}

/// Returns the rank of a place. Places with the same index are adjacent, since originators use
/// theirs in order.
fn rank_of(participants: u16, place: Place) -> usize
    ensures { result ≡ place.index * participants + place.owner }
{
    usize::from(place.index) * usize::from(participants) + usize::from(place.owner)
}

/// Puts a word at its rank, within the capacity. New words before it are those of unused places.
fn put(words: &mut Vec<KeptWord>, rank: usize, word: KeptWord)
    requires { rank < vec_capacity words.old }
    ensures puts { Puts words.old.items rank word words.new.items }
    ensures room { vec_capacity words.old ≤ vec_capacity words.new }
{
    if rank < words.len() {
        words[rank] = word;
        return;
    }
    fill(words, rank);
    words.push_reserved(word);
}

/// Appends words of unused places until there are `len`, within the capacity.
fn fill(words: &mut Vec<KeptWord>, len: usize)
    requires room { len ≤ vec_capacity words.old }
    requires less { length words.old.items ≤ len }
    ensures same { (j : ℕ) →
        get_or words.new.items j KeptUnused ≡ get_or words.old.items j KeptUnused }
    ensures len { length words.new.items ≡ len }
    ensures room { vec_capacity words.old ≤ vec_capacity words.new }
{
    for _ in words.len()..len {
        words.push_reserved(KeptWord::new(&Kept::Unused));
    }
}

/// Puts terms at their rank, within the capacity. New terms before them are never read.
fn put_terms(all: &mut Vec<Terms>, rank: usize, terms: &Terms)
    requires { rank < vec_capacity all.old }
    ensures puts { PutsTerms all.old.items rank terms.now all.new.items }
    ensures room { vec_capacity all.old ≤ vec_capacity all.new }
{
    if rank < all.len() {
        all[rank] = *terms;
        return;
    }
    let Ok(()) = all.resize(rank, *terms) else {
        unreachable!();
    };
    all.push_reserved(*terms);
}

/// Returns the content of a decided place.
#[inline(always)]
fn ended(terms: Terms, deadline: Moment, outcome: &Outcome, at: Moment) -> Kept
    ensures { result ≡ Kept.Decided terms deadline outcome.now at }
{
    Kept::Decided(terms, deadline, *outcome, at)
}

impl Board for PlainBoard {
    ghost use Rattle.std.specs.Prelude.{◌≡◌, ◌≢◌, ◌≤◌};
    ghost use Rattle.inst_terms.specs.declared.terms.Terms.{Terms};
    ghost use Rattle.inst_command.specs.declared.place.Place.{Place};
    ghost use Rattle.inst_board.specs.declared.look.Look.{Look};
    ghost use Rattle.inst_board.specs.declared.about.About.TheVariants.{Opened, HasTerms};
    ghost use Rattle.inst_board.specs.Standing.{IsPlace, pending, about, look_of, place_state_of};
    ghost use Rattle.inst_board.specs.Learning.{Learns, KnowTheSame, KeepsWritten, Looks, Decides};
    ghost use Rattle.inst_board.specs.Plain.{Becomes, standing_after, outcome_of_standing, kept_at};
    ghost use Rattle.inst_board.specs.Plain.{standing_at};
    ghost use Rattle.std.proofs.Common.{refl, ◌∙◌, inl};
    ghost use Rattle.inst_board.specs.Plain.{plain_knows, plain_wrote, plain_stood, known_is_place};

    ghost settings = { λ b. b.settings };

    ghost knows = { plain_knows };

    ghost has_role = { λ b p. Unit {0} };

    ghost wrote = { plain_wrote };

    ghost stood = { plain_stood };

    ghost stays = { λ a b. b.settings ≡ a.settings };

    ghost stays_still = { λ a. refl };

    ghost stays_on = { λ a b c p q. q ∙ p };

    ghost stays_settings = { λ a b p. p };

    ghost stays_roles = { λ a b p q. (λ r. r, λ r. r) };

    ghost stood_seldom = { λ b k t o known role was. inl was };

    ghost knows_one = { λ b k. (standing_at b k, λ a h. h) };

    ghost knows_places = { known_is_place };

    fn write_terms(&mut self, place: Place, terms: &Terms)
        requires place { IsPlace self.old.settings place }
        requires unused { ¬ plain_knows self.old (about place Opened) }

        ensures exact { Becomes self.old place (Kept.Written terms.now) self.new }
        ensures written { plain_wrote self.new place terms.now }
        ensures others { KeepsWritten plain_wrote self.old (λ k. k ≢ place) self.new }
        ensures knowledge { KnowTheSame plain_knows self.old self.new }
        ensures stays { self.new.settings ≡ self.old.settings }
    {
        self.write(place, terms);
    }

    fn open(&mut self, place: Place, deadline: Moment)
        requires place { IsPlace self.old.settings place }
        requires unused { ¬ plain_knows self.old (about place Opened) }
        requires written { (terms : Terms) × plain_wrote self.old place terms }
        requires deadline { 1 ≤ deadline }

        ensures exact { (terms : Terms) → plain_wrote self.old place terms →
            Becomes self.old place (Kept.Pending terms deadline) self.new }
        ensures opened { (terms : Terms) → plain_wrote self.old place terms →
            Learns self.old.settings.margin plain_knows self.old place (pending terms deadline)
            self.new }
        ensures others { KeepsWritten plain_wrote self.old (λ k. k ≢ place) self.new }
        ensures stays { self.new.settings ≡ self.old.settings }
    {
        let terms = self.terms(place);
        self.keep(place, &Kept::Pending(terms, deadline));
    }

    #[inline(always)]
    fn look(&mut self, place: Place) -> Look
        ensures exact { (result ≡ look_of (standing_at self.old place)) × (self.new ≡ self.old) }
        ensures look { Looks self.old.settings.margin plain_knows (λ _ _.
            Unit {0}) plain_stood self.old place result self.new }
        ensures outside { ¬ IsPlace self.old.settings place → result ≡ Look.Unused }
        ensures written { KeepsWritten plain_wrote self.old (λ _. Unit {0}) self.new }
        ensures stays { self.new.settings ≡ self.old.settings }
    {
        self.shown(place)
    }

    #[inline(always)]
    fn place_state(&mut self, place: Place) -> PlaceState
        requires terms { (terms : Terms) × plain_knows self.old (about place (HasTerms terms)) }

        ensures exact { (result ≡ place_state_of (look_of (standing_at self.old place)))
            × (self.new ≡ self.old) }
        ensures look { (look : Look)
            × Looks self.old.settings.margin plain_knows (λ _ _.
            Unit {0}) plain_stood self.old place look self.new
            × (result ≡ place_state_of look) }
        ensures written { KeepsWritten plain_wrote self.old (λ _. Unit {0}) self.new }
        ensures stays { self.new.settings ≡ self.old.settings }
    {
        match self.look(place) {
            Look::Unused => PlaceState::Unused,
            Look::Pending(_, deadline) => PlaceState::Pending(deadline),
            Look::Decided(_, outcome) => PlaceState::Decided(outcome),
        }
    }

    fn decide(&mut self, place: Place, wish: Wish, at: Moment) -> Option<Outcome>
        requires { plain_knows self.old (about place Opened) }

        ensures answer { result ≡ outcome_of_standing (standing_at self.new place) }
        ensures here { standing_at self.new place
            ≡ standing_after self.old.settings.margin wish at (standing_at self.old place) }
        ensures elsewhere { (j : Place) → j ≢ place → kept_at self.new j ≡ kept_at self.old j }
        ensures decides { Decides self.old.settings.margin plain_knows plain_stood self.old place
            wish at result self.new }
        ensures written { KeepsWritten plain_wrote self.old (λ _. Unit {0}) self.new }
        ensures stays { self.new.settings ≡ self.old.settings }
    {
        match self.shown(place) {
            Look::Pending(terms, deadline) => {
                let outcome = wish.outcome(self.margin, deadline, at)?;
                self.keep(place, &ended(terms, deadline, &outcome, at));
                Some(outcome)
            }
            Look::Decided(_, outcome) => Some(outcome),
            Look::Unused => unreachable!(),
        }
    }
}
