//! Ten openings, each from the books of the one before.
ghost use Rattle.inst_model.specs.Opening.{Opening};
ghost use Rattle.inst_hub.specs.Calls.{AreOf};
ghost use Rattle.inst_hub.specs.Opening.{HaveAllParts};
ghost use Rattle.inst_close.specs.Closing.{IsOpenedSo};

use crate::asking::{ACCEPTED, Deed, ExpectedCall, ScriptLine, play_by};
use crate::close::closing::{closed, opened, opened_again};
use crate::comparing::same;
use crate::tellers::played;
use inst_base::Fault;
use inst_close::Books;
use inst_command::Outcome;
use inst_hub::{Hub, Teller};
use inst_journal::{Event, Journal};
use std::alloc::Global;
use std::process::Abort;
use std::sync::Wait;

/// The identifiers of the transfers, one for each opening.
const IDS: [&str; 10] = ["T1", "T2", "T3", "T4", "T5", "T6", "T7", "T8", "T9", "T10"];

/// Runs one opening, in which participant 0 is funded with 1,000 cents and pays 300 of them to
/// participant 1. Returns its books.
fn paid<R: Wait + Abort>(
    rt: &R,
    alloc: Global,
    opened: (Hub, Vec<Teller>),
    id: &str,
) -> Result<Books, Fault>
    requires of { AreOf opened.0 opened.1.items }
    requires parts { HaveAllParts opened.1.items }
    requires opened { (O : Opening) × IsOpenedSo O opened.0 }
{
    let lines = [
        ScriptLine(0, Deed::Fund(id, 1_000), 0, ExpectedCall::Done),
        ScriptLine(
            0,
            Deed::Submit(id, 300, 1_000),
            1_000,
            ExpectedCall::Taken(true),
        ),
        ScriptLine(
            1,
            Deed::Confirm(id),
            2_000,
            ExpectedCall::State(ACCEPTED, true),
        ),
    ];
    let (hub, mut tellers) = opened;
    let played = play_by(rt, &hub, &mut tellers, 0, &lines);
    played.and(closed(alloc, hub, tellers))
}

/// Runs ten openings, and returns the books of the last.
fn ten_openings<R: Wait + Abort>(rt: &R, alloc: Global) -> Result<Books, Fault> {
    let mut books = paid(rt, alloc, opened(alloc)?, IDS[0])?;
    for id in &IDS[1..] {
        books = paid(rt, alloc, opened_again(alloc, &books)?, id)?;
    }
    Ok(books)
}

/// The numbers of events in a book, and the cents that were funded.
#[derive(Clone, Copy, Debug, PartialEq)]
struct BookCounts {
    opened: u32,
    funded: u64,
    taken: u32,
    forwarded: u32,
    accepted: u32,
}

/// Counts the events of a book.
fn counted(journal: &Journal) -> BookCounts {
    let mut counted = BookCounts {
        opened: 0,
        funded: 0,
        taken: 0,
        forwarded: 0,
        accepted: 0,
    };
    for event in journal.events() {
        match event {
            Event::Opened => counted.opened = counted.opened.saturating_add(1),
            Event::Funded(funding) => {
                counted.funded = counted.funded.saturating_add(funding.cents.get());
            }
            Event::Taken { .. } => counted.taken = counted.taken.saturating_add(1),
            Event::Forwarded { .. } => counted.forwarded = counted.forwarded.saturating_add(1),
            Event::Booked {
                outcome: Outcome::Accepted,
                ..
            } => counted.accepted = counted.accepted.saturating_add(1),
            _ => {}
        }
    }
    counted
}

/// Investigations of the first and the last transfer.
const FIRST_AND_LAST: [ScriptLine<'static>; 2] = [
    ScriptLine(
        0,
        Deed::Investigate("T1"),
        2_000,
        ExpectedCall::State(ACCEPTED, false),
    ),
    ScriptLine(
        0,
        Deed::Investigate("T10"),
        2_000,
        ExpectedCall::State(ACCEPTED, false),
    ),
];

/// Compares the books of both participants, the sums, and two investigations in the next opening.
fn loses_nothing<R: Wait + Abort>(rt: &R, alloc: Global, books: &Books) -> Result<(), Fault> {
    let originator = BookCounts {
        opened: 9,
        funded: 10_000,
        taken: 10,
        forwarded: 0,
        accepted: 10,
    };
    let beneficiary = BookCounts {
        funded: 0,
        taken: 0,
        forwarded: 10,
        ..originator
    };
    if books.settings().participants() < 2 {
        return Err(Fault::BadSettings);
    }
    same(rt, counted(books.journal(0)), originator);
    same(rt, counted(books.journal(1)), beneficiary);
    same(rt, [books.net(), books.sum()], [10_000, 10_000]);
    played(rt, opened_again(alloc, books)?, &FIRST_AND_LAST)
}

/// Ten openings lose no identifier, no outcome and no cent.
#[test]
fn ten_openings_lose_nothing(rt: HostRuntime) -> Result<(), Fault> {
    let books = ten_openings(&rt, rt.alloc())?;
    loses_nothing(&rt, rt.alloc(), &books)
}
