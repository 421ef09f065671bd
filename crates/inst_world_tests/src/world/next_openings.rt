//! Hubs that open again from the journals of a closed hub.
ghost use Rattle.std.specs.Prelude.{◌≡◌, IfOk};
ghost use Rattle.inst_model.specs.Rows as rows;
ghost use Rattle.inst_model.specs.Interleaving.{IsInterleaving};
ghost use Rattle.inst_world.specs.NextOpening.{CanOpenFrom};

use crate::comparing::{same, same_at};
use crate::world::told::{ExpectedAnswer, answers, is_told};
use inst_base::{Fault, Ident, Moment, mention};
use inst_command::{Answer, Command, LineKind, Outcome, Query, Step};
use inst_fixtures::{A, B, ask, books, confirm, fund, settings, submit};
use inst_journal::{Event, Journal};
use inst_settings::Settings;
use inst_slot::Slot;
use inst_world::World;
use std::alloc::Global;
use std::process::Abort;
use std::test::Fail;

fn delivered() -> Result<[Step; 3], Fault>
    ensures { IfOk result (λ steps. steps ≡ rows.delivered) }
{
    let deliver = Step::Deliver {
        from: A,
        index: 0,
        to: B,
    };
    Ok([
        fund(A, "F1", 50_000, 0)?,
        submit(A, "T1", B, 20_000, 1000, 1000)?,
        deliver,
    ])
}

fn carried_over_an_opening_steps() -> Result<[Step; 7], Fault>
    ensures { IfOk result (λ steps. steps ≡ rows.carried_over_an_opening) }
{
    let learn = Step::Learn {
        who: A,
        from: A,
        index: 0,
    };
    Ok([
        ask(A, Command::Query(Query::Position), 1002)?,
        submit(A, "T1", B, 20_000, 1000, 1002)?,
        submit(A, "T1", B, 19_999, 1000, 1002)?,
        ask(
            A,
            Command::Query(Query::Statement { skip: 0, count: 10 }),
            1002,
        )?,
        confirm(B, A, "T1", 2000)?,
        learn,
        ask(
            A,
            Command::Query(Query::Statement { skip: 0, count: 10 }),
            2000,
        )?,
    ])
}

/// The answers about a carried transfer: it is reserved and known again, then confirmed, and is in
/// the statement once it is learnt.
const CARRIED: [ExpectedAnswer; 7] = [
    ExpectedAnswer::Position(50_000, 20_000, 30_000),
    ExpectedAnswer::Taken("T1", 11_000),
    ExpectedAnswer::Refused(Fault::Duplicate),
    ExpectedAnswer::Lines(&[]),
    ExpectedAnswer::Decided(A, Outcome::Accepted),
    ExpectedAnswer::New(true),
    ExpectedAnswer::Lines(&[(1, LineKind::Paid, Some(B), "T1", 20_000, 30_000)]),
];

/// Returns `true` if answer `nth` is the expected one.
fn is_nth(answers: &[Answer], told: &[ExpectedAnswer], nth: usize) -> bool {
    match (answers.get(nth), told.get(nth)) {
        (Some(answer), Some(told)) => is_told(answer, told),
        _ => false,
    }
}

/// Checks that these are the answers.
fn are_told(rt: &impl Abort, answers: &[Answer], told: &[ExpectedAnswer]) {
    same(rt, answers.len(), told.len());
    for nth in 0..told.len() {
        same_at(rt, nth, is_nth(answers, told, nth), true);
    }
}

/// Opens a hub from books in which a transfer was delivered.
fn opened_again(alloc: Global) -> Result<World, Fault> {
    let steps = delivered()?;
    let settings = settings(alloc)?;
    let books = books(alloc, &settings, &steps)?;
    Ok(World::open_from(alloc, &settings, &books)?)
}

#[test]
fn carried_over_an_opening(rt: HostRuntime) -> Result<(), Fail> {
    let steps = carried_over_an_opening_steps()?;
    let mut world = opened_again(rt.alloc())?;
    answers(&rt, &mut world, &steps, &CARRIED)
}

/// Returns `true` if these are the events of the book and one more.
fn are_one_more(events: &[Event], book: &[Event]) -> bool {
    mention::<Outcome>();
    match events {
        [front @ .., _] => front == book,
        [] => false,
    }
}

/// Returns `true` if the slot has the events of its book and one more, and has found all places.
fn goes_on(slot: &Slot, book: Option<&Journal>) -> bool {
    match book {
        Some(book) => slot.unfound() == 0 && are_one_more(slot.journal().events(), book.events()),
        None => false,
    }
}

/// Checks that each slot extends its book, and each book has its slot.
fn go_on(rt: &impl Abort, slots: &[Slot], books: &[Journal]) {
    same(rt, slots.len(), books.len());
    for (who, slot) in slots.iter().enumerate() {
        same_at(rt, who, goes_on(slot, books.get(who)), true);
    }
}

/// Checks that the slots of a hub opened from these journals extend them.
fn slots_go_on(
    rt: &(impl Abort + AllocGlobal),
    settings: &Settings,
    journals: &[Journal],
) -> Result<(), Fail>
    requires { CanOpenFrom settings.now journals.now }
{
    let slots = World::open_from(rt.alloc(), settings, journals)?.into_slots();
    go_on(rt, &slots, journals);
    Ok(())
}

/// Does so with the books that these steps leave.
fn slots_go_on_after(
    rt: &(impl Abort + AllocGlobal),
    settings: &Settings,
    steps: &[Step],
) -> Result<(), Fail>
    requires { IsInterleaving settings.now steps.now }
{
    let books = books(rt.alloc(), settings, steps)?;
    slots_go_on(rt, settings, &books)
}

#[test]
fn slots_by_number(rt: HostRuntime) -> Result<(), Fail> {
    let steps = delivered()?;
    let settings = settings(rt.alloc())?;
    slots_go_on_after(&rt, &settings, &steps)
}

/// Checks the answers to the steps at a hub opened from these journals.
fn runs_from(
    rt: &(impl Abort + AllocGlobal),
    settings: &Settings,
    journals: &[Journal],
    steps: &[Step],
    told: &[ExpectedAnswer],
) -> Result<(), Fail>
    requires journals { CanOpenFrom settings.now journals.now }
    requires fits { IsInterleaving settings.now steps.now }
{
    let (_, trace) = World::run_from(rt.alloc(), settings, journals, steps)?;
    are_told(rt, trace.answers.as_slice(), told);
    Ok(())
}

/// Does so with the books that the steps `before` leave.
fn runs_after(
    rt: &(impl Abort + AllocGlobal),
    settings: &Settings,
    before: &[Step],
    steps: &[Step],
    told: &[ExpectedAnswer],
) -> Result<(), Fail>
    requires before { IsInterleaving settings.now before.now }
    requires fits { IsInterleaving settings.now steps.now }
{
    let books = books(rt.alloc(), settings, before)?;
    runs_from(rt, settings, &books, steps, told)
}

#[test]
fn run_from_books(rt: HostRuntime) -> Result<(), Fail> {
    let before = delivered()?;
    let steps = carried_over_an_opening_steps()?;
    let settings = settings(rt.alloc())?;
    runs_after(&rt, &settings, &before, &steps, &CARRIED)
}

fn one_settled() -> Result<[Step; 7], Fault>
    ensures { IfOk result (λ steps. steps ≡ rows.one_settled) }
{
    let first = Step::Deliver {
        from: A,
        index: 0,
        to: B,
    };
    let second = Step::Deliver {
        from: A,
        index: 1,
        to: B,
    };
    let learn = Step::Learn {
        who: A,
        from: A,
        index: 0,
    };
    Ok([
        fund(A, "F1", 50_000, 0)?,
        submit(A, "T1", B, 100, 1000, 1000)?,
        submit(A, "T2", B, 100, 1000, 1000)?,
        first,
        second,
        confirm(B, A, "T1", 2000)?,
        learn,
    ])
}

fn places_given_back_steps() -> Result<[Step; 6], Fault>
    ensures { IfOk result (λ steps. steps ≡ rows.places_given_back) }
{
    let at = Moment::new(0, 11_000)?;
    let expire = Step::Expire {
        who: A,
        index: 0,
        at,
    };
    let first = Command::Investigate {
        id: Ident::new("T1")?,
    };
    let second = Command::Investigate {
        id: Ident::new("T2")?,
    };
    Ok([
        submit(A, "T3", B, 100, 3000, 3000)?,
        submit(A, "T4", B, 100, 3000, 3000)?,
        ask(A, first, 3000)?,
        submit(A, "T1", B, 100, 1000, 3000)?,
        expire,
        ask(A, second, 3000)?,
    ])
}

/// The answers about a settled transfer, whose place is free again, and a pending one, which has
/// the first place.
const GIVEN_BACK: [ExpectedAnswer; 6] = [
    ExpectedAnswer::Taken("T3", 13_000),
    ExpectedAnswer::Refused(Fault::Full),
    ExpectedAnswer::Decided(A, Outcome::Accepted),
    ExpectedAnswer::Taken("T1", 11_000),
    ExpectedAnswer::New(true),
    ExpectedAnswer::Decided(A, Outcome::TimedOut),
];

#[test]
fn places_given_back(rt: HostRuntime) -> Result<(), Fail> {
    let before = one_settled()?;
    let steps = places_given_back_steps()?;
    let settings = settings(rt.alloc())?;
    runs_after(&rt, &settings, &before, &steps, &GIVEN_BACK)
}
