//! A hub that opens from the journals of a hub in one thread, which was closed with a transfer
//! pending.
ghost use Rattle.std.specs.Prelude.{◌≡◌, IfOk};
ghost use Rattle.inst_model.specs.Rows as rows;

use crate::asking::{ACCEPTED, Deed, ExpectedCall, ScriptLine};
use crate::tellers::played;
use inst_base::Fault;
use inst_command::Step;
use inst_fixtures::{A, B, books, settings};
use inst_hub::Hub;
use std::alloc::Global;
use std::process::Abort;
use std::sync::Wait;

/// Participant 1 receives two transfers of participant 0, and confirms the first.
fn one_settled() -> Result<[Step; 7], Fault>
    ensures { IfOk result (λ steps. steps ≡ rows.one_settled) }
{
    let first = Step::Deliver {
        from: A,
        index: 0,
        to: B,
    };
    let second = Step::Deliver {
        from: A,
        index: 1,
        to: B,
    };
    let learn = Step::Learn {
        who: A,
        from: A,
        index: 0,
    };
    Ok([
        inst_fixtures::fund(A, "F1", 50_000, 0)?,
        inst_fixtures::submit(A, "T1", B, 100, 1000, 1000)?,
        inst_fixtures::submit(A, "T2", B, 100, 1000, 1000)?,
        first,
        second,
        inst_fixtures::confirm(B, A, "T1", 2000)?,
        learn,
    ])
}

/// Plays the lines in the hub that opens from those books.
fn plays<R: Wait + Abort>(rt: &R, alloc: Global, lines: &[ScriptLine<'_>]) -> Result<(), Fault> {
    let steps = one_settled()?;
    let settings = settings(alloc)?;
    let books = books(alloc, &settings, &steps)?;
    played(rt, Hub::open_from(alloc, settings, &books, 1)?, lines)
}

/// The originator's money, the confirmation of the pending transfer, and the money afterwards.
const GOES_ON: [ScriptLine<'static>; 3] = [
    ScriptLine(
        0,
        Deed::Position,
        2_000,
        ExpectedCall::Money(49_900, 100, 49_800),
    ),
    ScriptLine(
        1,
        Deed::Confirm("T2"),
        2_000,
        ExpectedCall::State(ACCEPTED, true),
    ),
    ScriptLine(
        0,
        Deed::Position,
        2_000,
        ExpectedCall::Money(49_800, 0, 49_800),
    ),
];

/// A pending transfer can be confirmed in the next opening.
#[test]
fn what_was_pending_goes_on(rt: HostRuntime) -> Result<(), Fault> {
    plays(&rt, rt.alloc(), &GOES_ON)
}

/// An investigation of the settled transfer, which returns no ticket.
const SETTLED: [ScriptLine<'static>; 1] = [ScriptLine(
    0,
    Deed::Investigate("T1"),
    3_000,
    ExpectedCall::State(ACCEPTED, false),
)];

// A settled transfer has no place, and so no ticket.
#[test]
fn what_was_settled_has_no_ticket(rt: HostRuntime) -> Result<(), Fault> {
    plays(&rt, rt.alloc(), &SETTLED)
}
