//! The laws of boards, and code over any board. A function without a body has the law as its
//! contract, so the verifier proves it.
ghost use Rattle.std.specs.Prelude.{◌≡◌, ◌≢◌, ◌≤◌, ℕ, Some, IfSome};
ghost use Rattle.inst_board.specs.declared.about.About.TheVariants.{Opened};
ghost use Rattle.inst_board.specs.Standing.{about};
ghost use Rattle.inst_board.specs.Learning.{MayDecide, Decides};
ghost use Rattle.inst_board.specs.Plain.{plain_knows, standing_at, standing_after};
ghost use Rattle.inst_board.specs.Plain.{outcome_of_standing};
ghost use Rattle.inst_board.specs.Laws.{KnowsMore, KnowsOpening, CanOpen, DecidedOnce};
ghost use Rattle.inst_board.specs.Laws.{OnlyPartiesDecide};
ghost use Rattle.inst_board.specs.Laws.{OnlyTheBeneficiaryAnswers, EachPartyMayDecide};
ghost use Rattle.inst_board.specs.Laws.{AnOpeningIsKnown, ALookIsKnown};
ghost use Rattle.inst_board.specs.Laws.{ALookShowsWhatIsKnown, OwnOpeningsAreKnown};
ghost use Rattle.inst_board.specs.Laws.{OwnAnswersAreKnown};
ghost use Rattle.inst_board.specs.Laws.{ADecisionIsKnown, EachWishWantsByItsReading};
ghost use Rattle.inst_board.specs.Laws.{EachDecisionIsInTime};
ghost use Rattle.inst_board.specs.Laws.{EachDecisionIsOfItsReading, OnlyOwnReadingsAreLearnt};
ghost use Rattle.inst_board.specs.Laws.{OwnAnswersStand, WhatIsKnownStaysTrue};
ghost use Rattle.inst_board.specs.Laws.{StandingsFollowTheWordLaw, ShowsItsWords};
ghost use Rattle.inst_board.specs.Laws.{WhichPlacesThereAre, EachPlaceHasItsNumber};
ghost use Rattle.inst_board.specs.Laws.{EachPlaceHasItsRank, PlainDecidesExactly};
ghost use Rattle.inst_board.specs.Laws.{PlainLooksExactly, PlainOpensExactly};
ghost use Rattle.inst_board.specs.Laws.{WhatIsDecidedIsInTime};

use crate::{Board, PlainBoard, Wish};
use inst_base::Moment;
use inst_command::{Outcome, Place};
use inst_terms::Terms;

/// On any board a place is decided once.
pub fn decided_once<B: Board>()
    ensures { (margin : ℕ) → DecidedOnce margin B.knows B.stood }
{}

/// A holder that may decide a place knows its opening and has the role of a party.
pub fn only_parties_decide<B: Board>()
    ensures { OnlyPartiesDecide B.knows B.has_role }
{}

/// A holder that may confirm or reject has the beneficiary's role.
pub fn only_the_beneficiary_answers<B: Board>()
    ensures { OnlyTheBeneficiaryAnswers B.knows B.has_role }
{}

/// If the opening is known, the beneficiary's holder may use each wish, and the originator's may
/// let the transfer expire.
pub fn each_party_may_decide<B: Board>()
    ensures { EachPartyMayDecide B.knows B.has_role }
{}

/// A holder that opens a place knows its terms and its deadline.
pub fn an_opening_is_known<B: Board>()
    ensures { (margin : ℕ) → AnOpeningIsKnown margin B.knows }
{}

/// A holder that looks at a place knows what it showed.
pub fn a_look_is_known<B: Board>()
    ensures { (margin : ℕ) → ALookIsKnown margin B.knows B.has_role B.stood }
{}

/// A look shows at least what was known.
pub fn a_look_shows_what_is_known<B: Board>()
    ensures { (margin : ℕ) → ALookShowsWhatIsKnown margin B.knows B.has_role B.stood }
{}

/// By a look the originator's holder learns no opening of its own places.
pub fn own_openings_are_known<B: Board>()
    ensures { (margin : ℕ) → OwnOpeningsAreKnown margin B.knows B.has_role B.stood }
{}

/// By a look the beneficiary's holder learns no acceptance and no rejection of transfers addressed
/// to it.
pub fn own_answers_are_known<B: Board>()
    ensures { (margin : ℕ) → OwnAnswersAreKnown margin B.knows B.has_role B.stood }
{}

/// A decision returns a known outcome, and the outcome that it returns is known afterwards.
pub fn a_decision_is_known<B: Board>()
    ensures { (margin : ℕ) → ADecisionIsKnown margin B.knows B.stood }
{}

/// From the deadline on each wish wants the time-out. Before it a rejection wants itself, an
/// acceptance only before the margin, and an expiry nothing.
pub fn each_wish_wants_by_its_reading()
    ensures { EachWishWantsByItsReading }
{}

/// On any board a new outcome is in time.
pub fn each_decision_is_in_time<B: Board>()
    ensures { (margin : ℕ) → EachDecisionIsInTime margin B.knows B.stood }
{}

/// On any board a new outcome was decided at the clock reading of the wish.
pub fn each_decision_is_of_its_reading<B: Board>()
    ensures { (margin : ℕ) → EachDecisionIsOfItsReading margin B.knows B.stood }
{}

/// On any board a holder learns no deciding clock reading by a look, and by a decision none but its
/// own.
pub fn only_own_readings_are_learnt<B: Board>()
    ensures { (margin : ℕ) → OnlyOwnReadingsAreLearnt margin B.knows B.has_role B.stood }
{}

/// On any board an answer in time decides, unless the transfer was timed out before. The
/// beneficiary must know no outcome.
pub fn own_answers_stand<B: Board>()
    ensures { (margin : ℕ) → OwnAnswersStand margin B.knows B.has_role B.stood }
{}

/// The facts known about a place stay true of one lawful standing, whatever is called.
pub fn what_is_known_stays_true<B: Board>()
    ensures { (margin : ℕ) → WhatIsKnownStaysTrue margin B.knows }
{}

/// The standings of a place follow the law of its words.
pub fn standings_follow_the_word_law()
    ensures { StandingsFollowTheWordLaw }
{}

/// A place shows only facts that are true of it, and a decided place shows nothing of its deadline.
pub fn a_place_shows_its_words()
    ensures { ShowsItsWords }
{}

/// A participant of the settings has places from 0 to one less than their number.
pub fn which_places_there_are()
    ensures { WhichPlacesThereAre }
{}

/// Different places have different numbers, by which threads share their words.
pub fn each_place_has_its_number()
    ensures { EachPlaceHasItsNumber }
{}

/// Different places have different ranks on a plain board.
pub fn each_place_has_its_rank()
    ensures { EachPlaceHasItsRank }
{}

/// On a plain board the contract of a decision is exact.
pub fn plain_decides_exactly()
    ensures { PlainDecidesExactly }
{}

/// On a plain board the contract of a look is exact.
pub fn plain_looks_exactly()
    ensures { PlainLooksExactly }
{}

/// On a plain board the contract of an opening is exact.
pub fn plain_opens_exactly()
    ensures { PlainOpensExactly }
{}

/// A pending place of a plain board either stays pending or is decided in time.
pub fn what_is_decided_is_in_time()
    ensures { WhatIsDecidedIsInTime }
{}

/// Decides a place twice, on any board: the second answer is the first, if there was an outcome.
pub fn decide_twice<B: Board>(
    board: &mut B,
    place: Place,
    first: Wish,
    at: Moment,
    second: Wish,
    later: Moment,
) -> (Option<Outcome>, Option<Outcome>)
    requires first { MayDecide B.knows B.has_role board.old place first }
    requires second { MayDecide B.knows B.has_role board.old place second }

    ensures once { IfSome result.0 (λ o. result.1 ≡ Some o) }
    ensures decides { (between : B)
        × Decides (B.settings board.old).margin B.knows B.stood board.old place first at result.0
        between
        × Decides (B.settings board.old).margin B.knows B.stood between place second later result.1
        board.new }
    ensures stays { B.stays board.old board.new }
{
    let answer = board.decide(place, first, at);
    let again = board.decide(place, second, later);
    (answer, again)
}

/// Decides a place of a plain board twice: the answers are exactly what the first wish that wanted
/// an outcome wanted.
pub fn decide_plain_twice(
    board: &mut PlainBoard,
    place: Place,
    first: Wish,
    at: Moment,
    second: Wish,
    later: Moment,
) -> (Option<Outcome>, Option<Outcome>)
    requires { plain_knows board.old (about place Opened) }

    ensures first { result.0 ≡ outcome_of_standing
        (standing_after board.old.settings.margin first at (standing_at board.old place)) }
    ensures second { result.1 ≡ outcome_of_standing
        (standing_after board.old.settings.margin second later
        (standing_after board.old.settings.margin first at (standing_at board.old place))) }
{
    decide_twice(board, place, first, at, second, later)
}

/// Writes the terms of two places on any board, then opens both: each is known with its own terms,
/// and all earlier knowledge is kept.
pub fn open_two<B: Board>(
    board: &mut B,
    one: Place,
    terms: &Terms,
    other: Place,
    others: &Terms,
    deadline: Moment,
)
    requires apart { other ≢ one }
    requires one { CanOpen B.knows B.has_role (B.settings board.old) board.old one terms.now }
    requires other { CanOpen B.knows B.has_role (B.settings board.old) board.old other others.now }
    requires deadline { 1 ≤ deadline }

    ensures one { KnowsOpening B.knows board.new one terms.now deadline }
    ensures other { KnowsOpening B.knows board.new other others.now deadline }
    ensures kept { KnowsMore B.knows board.old board.new }
    ensures stays { B.stays board.old board.new }
{
    board.write_terms(one, terms);
    board.write_terms(other, others);
    board.open(one, deadline);
    board.open(other, deadline);
}
