//! The plain board: each wish near a deadline, and what a look shows afterwards.
ghost use Rattle.std.specs.Prelude.{◌≡◌, IfOk};
ghost use Rattle.inst_settings.specs.Settings.{participants};
ghost use Rattle.inst_board.specs.declared.about.About.TheVariants.{Opened};
ghost use Rattle.inst_board.specs.Standing.{about};
ghost use Rattle.inst_board.specs.Plain.{plain_knows};

use crate::comparing::{same, same_at};
use inst_base::{Cents, Code, Fault, Ident, Moment, Reason, mention};
use inst_board::laws::decide_plain_twice;
use inst_board::{Board, Look, PlainBoard, Wish};
use inst_command::{Outcome, Place};
use inst_settings::{HubParameters, Settings};
use inst_terms::Terms;
use std::alloc::Global;
use std::process::Abort;

const DEADLINE: u64 = 1000;

fn moment(ms: u64) -> Result<Moment, Fault> {
    Moment::new(0, ms)
}

fn terms() -> Result<Terms, Fault> {
    Ok(Terms {
        to: 1,
        cents: Cents::new(50_000)?,
        id: Ident::new("T1")?,
    })
}

/// Returns settings of two participants with three places each and a margin of 200 ms.
fn settings(alloc: Global) -> Result<Settings, Fault>
    ensures { IfOk result (λ s. (participants s ≡ 2) × (s.places ≡ 3)) }
{
    let codes = vec![in alloc; Code::new("AAAADEFF")?, Code::new("BBBBFRPP")?]?;
    let numbers = HubParameters {
        places: 3,
        fundings: 3,
        limit: 1_000,
        margin: 200,
        ceiling: 1_000,
        ..HubParameters::DEFAULT
    };
    Settings::check(codes, numbers)
}

/// Returns a board on which the last place of the first participant is pending.
fn opened(alloc: Global, place: Place) -> Result<PlainBoard, Fault>
    requires { (place.owner ≡ 0) × (place.index ≡ 2) }
    ensures { IfOk result (λ b. plain_knows b (about place Opened)) }
{
    let deadline = Moment::new(0, DEADLINE)?;
    let terms = terms()?;
    let settings = settings(alloc)?;
    let mut board = PlainBoard::new(alloc, &settings)?;
    board.write_terms(place, &terms);
    board.open(place, deadline);
    Ok(board)
}

/// Decides by this wish, and returns the outcome and what a look shows afterwards.
fn decided(alloc: Global, wish: Wish, at: u64) -> Result<(Option<Outcome>, Look), Fault> {
    let place = Place { owner: 0, index: 2 };
    let at = moment(at)?;
    let mut board = opened(alloc, place)?;
    let found = board.decide(place, wish, at);
    Ok((found, board.look(place)))
}

fn decided_twice(
    alloc: Global,
    first: (Wish, u64),
    second: (Wish, u64),
) -> Result<(Option<Outcome>, Option<Outcome>), Fault> {
    let place = Place { owner: 0, index: 2 };
    let mut board = opened(alloc, place)?;
    let at = moment(first.1)?;
    let later = moment(second.1)?;
    Ok(decide_plain_twice(&mut board, place, first.0, at, second.0, later))
}

/// Returns what a look must show after this outcome.
fn shown(found: Option<Outcome>) -> Result<Look, Fault> {
    Ok(match found {
        Some(outcome) => Look::Decided(terms()?, outcome),
        None => Look::Pending(terms()?, moment(DEADLINE)?),
    })
}

/// Checks the outcome of the wish, and what a look shows afterwards.
fn decides(
    rt: &(impl Abort + AllocGlobal),
    wish: Wish,
    at: u64,
    want: Option<Outcome>,
) -> Result<(), Fault> {
    let found = decided(rt.alloc(), wish, at)?;
    same_at(rt, (wish, at), found, (want, shown(want)?));
    Ok(())
}

#[test]
fn each_wish_about_the_deadline(rt: HostRuntime) -> Result<(), Fault> {
    let reason = Reason::new("AC04")?;
    let rejected = Outcome::Rejected(reason);
    for &(wish, at, want) in &[
        (Wish::Accept, 799, Some(Outcome::Accepted)),
        (Wish::Accept, 800, None),
        (Wish::Accept, 999, None),
        (Wish::Accept, 1000, Some(Outcome::TimedOut)),
        (Wish::Accept, 1001, Some(Outcome::TimedOut)),
        (Wish::Reject(reason), 999, Some(rejected)),
        (Wish::Reject(reason), 1000, Some(Outcome::TimedOut)),
        (Wish::Reject(reason), 1001, Some(Outcome::TimedOut)),
        (Wish::Expire, 999, None),
        (Wish::Expire, 1000, Some(Outcome::TimedOut)),
        (Wish::Expire, 1001, Some(Outcome::TimedOut)),
    ] {
        decides(&rt, wish, at, want)?;
    }
    Ok(())
}

#[test]
fn a_second_wish_changes_nothing(rt: HostRuntime) -> Result<(), Fault> {
    let reason = Reason::new("AC04")?;
    let rejected = Outcome::Rejected(reason);
    for &(first, second, want) in &[
        ((Wish::Accept, 1), (Wish::Expire, 2000), Outcome::Accepted),
        (
            (Wish::Accept, 1),
            (Wish::Reject(reason), 2),
            Outcome::Accepted,
        ),
        ((Wish::Reject(reason), 1), (Wish::Accept, 2), rejected),
        ((Wish::Expire, 2000), (Wish::Accept, 1), Outcome::TimedOut),
        ((Wish::Expire, 1), (Wish::Accept, 2), Outcome::Accepted),
    ] {
        let (_, found) = decided_twice(rt.alloc(), first, second)?;
        same(&rt, found, Some(want));
    }
    Ok(())
}

/// Places that the board has, and others.
const PLACES: &[(u8, u16)] = &[(0, 0), (1, 2), (0, 3), (2, 0), (255, 65_535)];

/// Checks that each of these places is unused.
fn is_unused(rt: &impl Abort, board: &mut PlainBoard) {
    for &(owner, index) in PLACES {
        let place = Place { owner, index };
        same_at(rt, place, board.look(place), Look::Unused);
    }
}

#[test]
fn what_was_not_opened_is_unused(rt: HostRuntime) -> Result<(), Fault> {
    mention::<Outcome>();
    let settings = settings(rt.alloc())?;
    let mut board = PlainBoard::new(rt.alloc(), &settings)?;
    is_unused(&rt, &mut board);
    Ok(())
}
