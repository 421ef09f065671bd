//! Peeks, two boards of one table, and the numbers of tellers.
ghost use Rattle.std.specs.Prelude.{◌≡◌, ◌≤◌, IfOk, length, slice_get, Some};
ghost use Rattle.inst_board.specs.declared.about.About.TheVariants.{Opened};
ghost use Rattle.inst_board.specs.declared.about.Fact.{Fact};
ghost use Rattle.inst_board.specs.Laws.{CanOpen};
ghost use Rattle.inst_board.specs.Standing.{about};
ghost use Rattle.inst_settings.specs.Settings.{participants};
ghost use Rattle.inst_cell.specs.Held.{settings_of, knows, has_role, Stays, AtOneTable};
ghost use Rattle.inst_cell.specs.Seen.{board_of_sight};

use crate::comparing::{same, same_at};
use inst_base::{Cents, Code, Fault, Ident, Moment, Reason};
use inst_board::{Board, Look, PlaceState, Wish};
use inst_cell::{MOST_TELLERS, SharedBoard, Sight};
use inst_command::{Outcome, Place, State};
use inst_settings::{HubParameters, Settings};
use inst_terms::Terms;
use std::alloc::Global;
use std::process::Abort;

/// Makes settings for two participants with two places each.
fn settings(alloc: Global, margin: u32) -> Result<Settings, Fault>
    ensures { IfOk result (λ s. (participants s ≡ 2) × (s.places ≡ 2)) }
{
    let codes = [Code::new("AAAADEFF")?, Code::new("BBBBFRPP")?];
    let numbers = HubParameters {
        places: 2,
        fundings: 4,
        margin,
        ..HubParameters::DEFAULT
    };
    Settings::check(codes.to_vec(alloc)?, numbers)
}

/// Makes the terms of a transfer to the second participant.
fn terms() -> Result<Terms, Fault>
    ensures { IfOk result (λ t. t.to ≡ 1) }
{
    Ok(Terms {
        to: 1,
        cents: Cents::new(100)?,
        id: Ident::new("T1")?,
    })
}

/// Returns both boards of a hub with two participants.
fn both(mut boards: Vec<SharedBoard>) -> (SharedBoard, SharedBoard)
    requires { length boards.items ≡ 2 }
    ensures { (slice_get boards.items 0 ≡ Some result.0)
        × (slice_get boards.items 1 ≡ Some result.1) }
{
    let second = boards.pop();
    let first = boards.pop();
    let (Some(first), Some(second)) = (first, second) else {
        unreachable!()
    };
    (first, second)
}

/// Opens the boards of a hub with two participants, and the sight of its teller.
fn open_two(alloc: Global, settings: &Settings) -> Result<(SharedBoard, SharedBoard, Sight), Fault>
    requires { participants settings.now ≡ 2 }
    ensures settings { IfOk result (λ r. settings_of r.0 ≡ settings.now) }
    ensures roles { IfOk result (λ r. has_role r.0 0 × has_role r.1 1) }
    ensures nothing { IfOk result (λ r. (f : Fact) → ¬ knows r.0 f) }
    ensures one { IfOk result (λ r. AtOneTable r.0 (board_of_sight r.2)) }
{
    let (boards, mut sights) = SharedBoard::open(alloc, settings, 1)?;
    let Some(sight) = sights.pop() else {
        unreachable!()
    };
    let (first, second) = both(boards);
    Ok((first, second, sight))
}

fn submit(board: &mut SharedBoard, place: Place, terms: &Terms, deadline: Moment)
    requires can { CanOpen knows has_role (settings_of board.old) board.old place terms.now }
    requires deadline { 1 ≤ deadline }
    ensures opened { knows board.new (about place Opened) }
    ensures stays { Stays board.old board.new }
{
    board.write_terms(place, terms);
    board.open(place, deadline);
}

/// Opens a place of the first participant, then deals the boards of both.
fn deal_two(
    alloc: Global,
    settings: &Settings,
    place: Place,
    terms: &Terms,
    deadline: Moment,
) -> Result<(SharedBoard, SharedBoard), Fault>
    requires two { (participants settings.now ≡ 2) × (settings.now.places ≡ 2) }
    requires place { (place.owner ≡ 0) × (place.index ≡ 1) }
    requires beneficiary { terms.now.to ≡ 1 }
    requires deadline { 1 ≤ deadline }
    ensures { IfOk result (λ r. has_role r.1 1) }
{
    let (mut all, _) = SharedBoard::open_whole(alloc, settings, 1)?;
    submit(&mut all, place, terms, deadline);
    let boards = all.deal(alloc)?;
    Ok(both(boards))
}

/// Decides a pending transfer to `who`, and returns the outcome, if any.
fn answer(board: &mut SharedBoard, who: u8, place: Place, wish: Wish, at: Moment) -> Option<Outcome>
    requires { has_role board.old who }
    ensures { Stays board.old board.new }
{
    match board.look(place) {
        Look::Pending(terms, _) if terms.to == who => board.decide(place, wish, at),
        _ => None,
    }
}

/// Returns what `place_state` shows of a place that a look shows opened.
fn glanced(board: &mut SharedBoard, place: Place) -> Option<PlaceState> {
    match board.look(place) {
        Look::Unused => None,
        Look::Pending(_terms, _) => Some(board.place_state(place)),
        Look::Decided(_terms, _) => Some(board.place_state(place)),
    }
}

/// Returns the state that a caller peeks before and after the beneficiary decides, and the outcome
/// of that decision.
fn seen_over(
    first: &mut SharedBoard,
    second: &mut SharedBoard,
    sight: &mut Sight,
    wish: Wish,
    at: u64,
) -> Result<(State, Option<Outcome>, State), Fault>
    requires two { (participants (settings_of first.old) ≡ 2)
        × ((settings_of first.old).places ≡ 2) }
    requires roles { has_role first.old 0 × has_role second.old 1 }
    requires nothing { (f : Fact) → ¬ knows first.old f }
    requires one { AtOneTable first.old (board_of_sight sight.old) }
{
    let place = Place { owner: 0, index: 1 };
    let terms = terms()?;
    let deadline = Moment::new(0, 11_000)?;
    let at = Moment::new(0, at)?;
    submit(first, place, &terms, deadline);
    let ticket = first.tell(sight, place);
    let before = sight.peek(&ticket);
    let outcome = answer(second, 1, place, wish, at);
    Ok((before, outcome, sight.peek(&ticket)))
}

/// Returns the same for a hub opened for this.
fn seen(
    alloc: Global,
    margin: u32,
    wish: Wish,
    at: u64,
) -> Result<(State, Option<Outcome>, State), Fault> {
    let settings = settings(alloc, margin)?;
    let (mut first, mut second, mut sight) = open_two(alloc, &settings)?;
    seen_over(&mut first, &mut second, &mut sight, wish, at)
}

/// Compares the same.
fn sees(
    rt: &(impl Abort + AllocGlobal),
    margin: u32,
    wish: Wish,
    at: u64,
    wanted: (State, Option<Outcome>, State),
) -> Result<(), Fault> {
    same(rt, seen(rt.alloc(), margin, wish, at)?, wanted);
    Ok(())
}

/// A peek shows an acceptance that no board shared with the sight.
#[test]
fn a_peek_loads(rt: HostRuntime) -> Result<(), Fault> {
    let wanted = (
        State::Pending,
        Some(Outcome::Accepted),
        State::Decided(Outcome::Accepted),
    );
    sees(&rt, 0, Wish::Accept, 10_999, wanted)
}

/// A peek shows a rejection within the margin.
#[test]
fn a_rejection_is_seen(rt: HostRuntime) -> Result<(), Fault> {
    let reason = Reason::new("AC04")?;
    let wanted = (
        State::Pending,
        Some(Outcome::Rejected(reason)),
        State::Decided(Outcome::Rejected(reason)),
    );
    sees(&rt, 2_000, Wish::Reject(reason), 10_999, wanted)
}

/// Within the margin an acceptance leaves the transfer pending.
#[test]
fn nothing_is_accepted_in_the_margin(rt: HostRuntime) -> Result<(), Fault> {
    let wanted = (State::Pending, None, State::Pending);
    sees(&rt, 2_000, Wish::Accept, 9_000, wanted)
}

/// Returns what `look` and `place_state` show.
fn both_shown(board: &mut SharedBoard, place: Place) -> (Look, Option<PlaceState>) {
    (board.look(place), glanced(board, place))
}

/// Compares what the first board shows: pending, and accepted once the second board decided so.
fn both_decide(
    rt: &impl Abort,
    first: &mut SharedBoard,
    second: &mut SharedBoard,
    place: Place,
    terms: &Terms,
    deadline: Moment,
) -> Result<(), Fault>
    requires { has_role second.old 1 }
{
    let at = Moment::new(0, 10_999)?;
    let found = (
        both_shown(first, place),
        answer(second, 1, place, Wish::Accept, at),
        both_shown(first, place),
    );
    let pending = (
        Look::Pending(*terms, deadline),
        Some(PlaceState::Pending(deadline)),
    );
    let decided = (
        Look::Decided(*terms, Outcome::Accepted),
        Some(PlaceState::Decided(Outcome::Accepted)),
    );
    same(rt, found, (pending, Some(Outcome::Accepted), decided));
    Ok(())
}

/// Boards that are dealt after an opening know the opened place.
#[test]
fn what_was_opened_is_dealt(rt: HostRuntime) -> Result<(), Fault> {
    let place = Place { owner: 0, index: 1 };
    let terms = terms()?;
    let deadline = Moment::new(0, 11_000)?;
    let settings = settings(rt.alloc(), 0)?;
    let (mut first, mut second) = deal_two(rt.alloc(), &settings, place, &terms, deadline)?;
    both_decide(&rt, &mut first, &mut second, place, &terms, deadline)
}

/// Returns how many boards and sights a hub with so many tellers opens with.
fn lengths(alloc: Global, settings: &Settings, tellers: u8) -> Result<(usize, usize), Fault> {
    let (boards, sights) = SharedBoard::open(alloc, settings, tellers)?;
    Ok((boards.len(), sights.len()))
}

/// Compares the numbers of boards and sights for several numbers of tellers.
fn opens(rt: &(impl Abort + AllocGlobal), settings: &Settings) {
    for tellers in 0..=MOST_TELLERS + 1 {
        let wanted = if tellers == 0 || tellers > MOST_TELLERS {
            Err(Fault::BadSettings)
        } else {
            Ok((2, usize::from(tellers)))
        };
        same_at(rt, tellers, lengths(rt.alloc(), settings, tellers), wanted);
    }
}

/// A hub opens with 1 to 16 tellers only.
#[test]
fn tellers_are_one_to_sixteen(rt: HostRuntime) -> Result<(), Fault> {
    let settings = settings(rt.alloc(), 0)?;
    opens(&rt, &settings);
    Ok(())
}
