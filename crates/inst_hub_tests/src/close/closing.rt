//! A hub with two tellers closes with one transfer confirmed and one pending, and the next one
//! opens from its books.
ghost use Rattle.std.specs.Prelude.{IfOk};
ghost use Rattle.inst_model.specs.Opening.{Opening};
ghost use Rattle.inst_hub.specs.Calls.{AreOf};
ghost use Rattle.inst_hub.specs.Opening.{HaveAllParts};
ghost use Rattle.inst_close.specs.Closing.{IsOpenedSo};

use crate::asking::{ACCEPTED, Deed, ExpectedCall, SUBMITTED, ScriptLine, play_by};
use crate::comparing::same;
use crate::tellers::played;
use inst_base::{Code, Fault};
use inst_close::{Books, close};
use inst_command::State;
use inst_fixtures::settings;
use inst_hub::{Hub, Teller, Ticket};
use inst_settings::{HubParameters, Settings};
use std::alloc::Global;
use std::process::Abort;
use std::sync::Wait;

/// Opens the first hub, with two tellers.
pub(crate) fn opened(alloc: Global) -> Result<(Hub, Vec<Teller>), Fault>
    ensures of { IfOk result (λ r. AreOf r.0 r.1.items) }
    ensures parts { IfOk result (λ r. HaveAllParts r.1.items) }
    ensures opened { IfOk result (λ r. (O : Opening) × IsOpenedSo O r.0) }
{
    Hub::open(alloc, settings(alloc)?, 2)
}

/// Opens the next hub, with one teller.
pub(crate) fn opened_again(alloc: Global, books: &Books) -> Result<(Hub, Vec<Teller>), Fault>
    ensures of { IfOk result (λ r. AreOf r.0 r.1.items) }
    ensures parts { IfOk result (λ r. HaveAllParts r.1.items) }
    ensures opened { IfOk result (λ r. (O : Opening) × IsOpenedSo O r.0) }
{
    books.open_next(alloc, 1)
}

/// Closes the hub; `Memory` if that fails to allocate.
pub(crate) fn closed(alloc: Global, hub: Hub, tellers: Vec<Teller>) -> Result<Books, Fault>
    requires of { AreOf hub tellers.items }
    requires parts { HaveAllParts tellers.items }
    requires opened { (O : Opening) × IsOpenedSo O hub }
{
    match close(alloc, hub, tellers) {
        Ok(books) => Ok(books),
        Err(_) => Err(Fault::Memory),
    }
}

/// Participant 0 submits a second transfer.
const SECOND: [ScriptLine<'static>; 1] = [ScriptLine(
    0,
    Deed::Submit("T2", 5_000, 1_000),
    1_000,
    ExpectedCall::Taken(true),
)];

/// Participant 1 confirms the first.
const CONFIRMED: [ScriptLine<'static>; 1] = [ScriptLine(
    1,
    Deed::Confirm("T1"),
    2_000,
    ExpectedCall::State(ACCEPTED, true),
)];

/// Submits two transfers and confirms the first, through the second teller. Returns both tickets.
fn one_confirmed<R: Wait + Abort>(
    rt: &R,
    hub: &Hub,
    tellers: &mut Vec<Teller>,
) -> Result<(Ticket, Ticket), Fault>
    requires of { AreOf hub.now tellers.old.items }
    requires parts { HaveAllParts tellers.old.items }
    ensures of { AreOf hub.now tellers.new.items }
    ensures parts { HaveAllParts tellers.new.items }
{
    let first = play_by(rt, hub, tellers, 0, &SUBMITTED)?;
    let second = play_by(rt, hub, tellers, 0, &SECOND)?;
    play_by(rt, hub, tellers, 1, &CONFIRMED)?;
    first.zip(second).ok_or(Fault::UnknownTransfer)
}

/// Returns the books of a hub with one transfer confirmed and one pending, and both tickets.
fn first_books<R: Wait + Abort>(rt: &R, alloc: Global) -> Result<(Books, (Ticket, Ticket)), Fault> {
    let (hub, mut tellers) = opened(alloc)?;
    let tickets = one_confirmed(rt, &hub, &mut tellers);
    let books = closed(alloc, hub, tellers)?;
    match tickets {
        Ok(tickets) => Ok((books, tickets)),
        Err(fault) => Err(fault),
    }
}

/// Returns the positions of three participants, their sum and the net funding, in cents.
fn sums_of(books: &Books) -> Option<[u128; 5]> {
    if books.settings().participants() < 3 {
        return None;
    }
    Some([
        books.journal(0).position(),
        books.journal(1).position(),
        books.journal(2).position(),
        books.sum(),
        books.net(),
    ])
}

/// The books have the outcome of the confirmed transfer, the pending one, and the right sums.
#[test]
fn closes_and_tells(rt: HostRuntime) -> Result<(), Fault> {
    let (books, (first, second)) = first_books(&rt, rt.alloc())?;
    same(
        &rt,
        [books.told(&first), books.told(&second)],
        [ACCEPTED, State::Pending],
    );
    same(
        &rt,
        sums_of(&books),
        Some([30_000, 20_000, 0, 50_000, 50_000]),
    );
    Ok(())
}

/// Participant 1 confirms the pending transfer.
const CONFIRMED_LATER: [ScriptLine<'static>; 1] = [ScriptLine(
    1,
    Deed::Confirm("T2"),
    2_000,
    ExpectedCall::State(ACCEPTED, true),
)];

/// Confirms the pending transfer in the next opening, and compares the books of that opening.
fn moves_on<R: Wait + Abort>(rt: &R, alloc: Global, books: &Books) -> Result<(), Fault> {
    let (hub, mut tellers) = opened_again(alloc, books)?;
    let confirmed = play_by(rt, &hub, &mut tellers, 0, &CONFIRMED_LATER);
    let next = confirmed.and(closed(alloc, hub, tellers))?;
    same(
        rt,
        sums_of(&next),
        Some([25_000, 25_000, 0, 50_000, 50_000]),
    );
    Ok(())
}

/// A transfer that was pending at the closing can be confirmed in the next opening.
#[test]
fn opens_again_from_its_books(rt: HostRuntime) -> Result<(), Fault> {
    let (books, _) = first_books(&rt, rt.alloc())?;
    moves_on(&rt, rt.alloc(), &books)
}

/// Opens the next hub, with one teller, and lets a participant with this code join.
fn joined(alloc: Global, books: &Books, code: &str) -> Result<(Hub, Vec<Teller>), Fault>
    ensures { IfOk result (λ r. AreOf r.0 r.1.items) }
{
    let codes = vec![in alloc; Code::new(code)?]?;
    books.open_wider(alloc, codes, 1)
}

/// The money of the first participant and of the one that joined.
const MONEY: [ScriptLine<'static>; 2] = [
    ScriptLine(
        0,
        Deed::Position,
        1_002,
        ExpectedCall::Money(30_000, 5_000, 25_000),
    ),
    ScriptLine(3, Deed::Position, 1_002, ExpectedCall::Money(0, 0, 0)),
];

/// A participant joins between two openings.
#[test]
fn one_joins_between_openings(rt: HostRuntime) -> Result<(), Fault> {
    let (books, _) = first_books(&rt, rt.alloc())?;
    played(&rt, joined(rt.alloc(), &books, "DDDDESMM")?, &MONEY)
}

/// Compares the refusals of an existing code and of seventeen tellers.
fn refuses(rt: &impl Abort, alloc: Global, books: &Books) {
    let joined = joined(alloc, books, "AAAADEFF").err();
    let opened = books.open_next(alloc, 17).err();
    let refused = Some(Fault::BadSettings);
    same(rt, [joined, opened], [refused, refused]);
}

/// An existing code and seventeen tellers are refused.
#[test]
fn no_code_joins_twice(rt: HostRuntime) -> Result<(), Fault> {
    let (books, _) = first_books(&rt, rt.alloc())?;
    refuses(&rt, rt.alloc(), &books);
    Ok(())
}

/// Returns the settings of the books with these numbers and one participant more.
fn changed(alloc: Global, books: &Books, numbers: HubParameters) -> Result<Settings, Fault> {
    let mut codes = books.settings().codes().to_vec(alloc)?;
    codes.push(Code::new("DDDDESMM")?)?;
    Settings::check(codes, numbers)
}

/// Opens the next hub, with one teller, under these settings.
fn opened_under(
    alloc: Global,
    books: &Books,
    settings: Settings,
) -> Result<(Hub, Vec<Teller>), Fault>
    ensures { IfOk result (λ r. AreOf r.0 r.1.items) }
{
    books.open_under(alloc, settings, 1)
}

/// Participant 0 has three pending transfers, one of them from the first opening; participant 1
/// confirms one of the new ones. The participant that joined has no money.
const UNDER_CHANGES: [ScriptLine<'static>; 5] = [
    ScriptLine(
        0,
        Deed::Submit("T3", 1_000, 2_000),
        2_000,
        ExpectedCall::Taken(true),
    ),
    ScriptLine(
        0,
        Deed::Submit("T4", 2_000, 2_000),
        2_000,
        ExpectedCall::Taken(true),
    ),
    ScriptLine(
        1,
        Deed::Confirm("T3"),
        3_000,
        ExpectedCall::State(ACCEPTED, true),
    ),
    ScriptLine(
        0,
        Deed::Position,
        3_000,
        ExpectedCall::Money(29_000, 7_000, 22_000),
    ),
    ScriptLine(3, Deed::Position, 3_000, ExpectedCall::Money(0, 0, 0)),
];

/// The next hub opens under three places, a margin and a ceiling, and a transfer is confirmed.
#[test]
fn opens_under_changed_settings(rt: HostRuntime) -> Result<(), Fault> {
    let (books, _) = first_books(&rt, rt.alloc())?;
    let numbers = HubParameters {
        places: 3,
        margin: 500,
        ceiling: 50_000,
        ..books.settings().numbers()
    };
    let settings = changed(rt.alloc(), &books, numbers)?;
    played(
        &rt,
        opened_under(rt.alloc(), &books, settings)?,
        &UNDER_CHANGES,
    )
}

/// Returns the fault of an opening under these numbers.
fn refused_under(
    alloc: Global,
    books: &Books,
    numbers: HubParameters,
) -> Result<Option<Fault>, Fault> {
    let settings = changed(alloc, books, numbers)?;
    Ok(opened_under(alloc, books, settings).err())
}

/// A ceiling below an amount of the books and another base are refused.
#[test]
fn the_books_refuse_changes(rt: HostRuntime) -> Result<(), Fault> {
    let (books, _) = first_books(&rt, rt.alloc())?;
    let numbers = books.settings().numbers();
    let low = HubParameters {
        ceiling: 49_999,
        ..numbers
    };
    let moved = HubParameters { base: 1, ..numbers };
    let refused = Some(Fault::BadSettings);
    same(
        &rt,
        [
            refused_under(rt.alloc(), &books, low)?,
            refused_under(rt.alloc(), &books, moved)?,
        ],
        [refused, refused],
    );
    Ok(())
}
