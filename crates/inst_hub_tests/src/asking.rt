//! Scripts of commands and the expected answers.
ghost use Rattle.std.specs.Prelude.{◌≡◌, [], ◌∷◌};
ghost use Rattle.inst_hub.specs.Calls.{IsTellerOf, AreOf};
ghost use Rattle.inst_hub.specs.Opening.{HaveAllParts, row_parts};

use crate::comparing::same;
use inst_base::{Cents, Fault, Ident, Moment};
use inst_command::{Ask, Command, Funding, Outcome, Query, Reply, State, Submission};
use inst_hub::{Gate, Hub, Teller, Ticket, Ungated};
use std::process::Abort;
use std::sync::Wait;

pub(crate) const ACCEPTED: State = State::Decided(Outcome::Accepted);

/// What a participant does.
#[derive(Clone, Copy)]
pub(crate) enum Deed<'a> {
    /// Funds its position with so many cents, under this reference.
    Fund(&'a str, u64),
    /// Submits a transfer of so many cents to participant 1, with this time stamp.
    Submit(&'a str, u64, u64),
    /// Confirms a transfer of participant 0.
    Confirm(&'a str),
    Investigate(&'a str),
    Fetch,
    Position,
    /// Is swept, without a command.
    Sweep,
}

/// The expected answer.
#[derive(Clone, Copy, Debug, PartialEq)]
pub(crate) enum ExpectedCall {
    /// The command is done.
    Done,
    /// The submission is taken; `true` if with a ticket.
    Taken(bool),
    /// The state of a transfer; `true` if with a ticket.
    State(State, bool),
    /// Position, reserved and available, in cents.
    Money(u64, u64, u64),
    /// The originators of the two forwarded transfers.
    Came(u8, u8),
    /// How many events a sweep stores.
    New(u32),
    Other,
}

/// A line of a script: participant, deed, clock reading and expected answer.
#[derive(Clone, Copy)]
pub(crate) struct ScriptLine<'a>(
    pub(crate) u8,
    pub(crate) Deed<'a>,
    pub(crate) u64,
    pub(crate) ExpectedCall,
);

/// Participant 0 is funded, and submits a transfer to participant 1.
pub(crate) const SUBMITTED: [ScriptLine<'static>; 2] = [
    ScriptLine(0, Deed::Fund("F1", 50_000), 0, ExpectedCall::Done),
    ScriptLine(
        0,
        Deed::Submit("T1", 20_000, 1_000),
        1_000,
        ExpectedCall::Taken(true),
    ),
];

/// Makes the ask of a deed; `BadField` for a sweep.
pub(crate) fn asked(who: u8, deed: Deed<'_>, at: u64) -> Result<Ask, Fault> {
    let command = match deed {
        Deed::Fund(reference, cents) => Command::Fund(Funding {
            reference: Ident::new(reference)?,
            cents: Cents::new(cents)?,
        }),
        Deed::Submit(id, cents, stamp) => Command::Submit(Submission {
            id: Ident::new(id)?,
            to: 1,
            cents: Cents::new(cents)?,
            stamp: Moment::new(0, stamp)?,
        }),
        Deed::Confirm(id) => Command::Confirm {
            from: 0,
            id: Ident::new(id)?,
        },
        Deed::Investigate(id) => Command::Investigate {
            id: Ident::new(id)?,
        },
        Deed::Fetch => Command::Fetch { max: 10 },
        Deed::Position => Command::Query(Query::Position),
        Deed::Sweep => return Err(Fault::BadField),
    };
    let at = Moment::new(0, at)?;
    Ok(Ask { who, command, at })
}

/// Converts a reply, with a ticket or without.
fn told_of(reply: &Reply, ticket: bool) -> ExpectedCall {
    match reply {
        Reply::Done { .. } => ExpectedCall::Done,
        Reply::Taken { .. } => ExpectedCall::Taken(ticket),
        Reply::State { state, .. } => ExpectedCall::State(*state, ticket),
        Reply::Position {
            position,
            reserved,
            available,
        } => ExpectedCall::Money(*position, *reserved, *available),
        Reply::Inbox { entries } => match entries.as_slice() {
            [first, second] => ExpectedCall::Came(first.from, second.from),
            _ => ExpectedCall::Other,
        },
        _ => ExpectedCall::Other,
    }
}

/// Calls the hub, with a gate, and returns the answer and the ticket, if any. A sweep passes no
/// gate. `BadField` if the deed doesn't fit the hub.
pub(crate) fn answer<R: Wait, G: Gate>(
    rt: &R,
    hub: &Hub,
    teller: &mut Teller,
    who: u8,
    deed: Deed<'_>,
    at: u64,
    gate: &G,
) -> Result<(ExpectedCall, Option<Ticket>), Fault>
    requires { IsTellerOf hub.now teller.old }
    ensures of { IsTellerOf hub.now teller.new }
    ensures parts { row_parts (teller.new ∷ []) ≡ row_parts (teller.old ∷ []) }
{
    let ask = asked(who, deed, at)?;
    if !ask.fits(hub.settings()) {
        return Err(Fault::BadField);
    }
    match hub.call_with(rt, teller, &ask, gate) {
        Ok((reply, ticket)) => {
            let told = told_of(&reply, ticket.is_some());
            Ok((told, ticket))
        }
        Err(_) => Err(Fault::Memory),
    }
}

/// Sweeps a participant, and returns how many events this stored.
fn swept<R: Wait>(rt: &R, hub: &Hub, teller: &mut Teller, who: u8, at: u64) -> Result<u32, Fault>
    requires { IsTellerOf hub.now teller.old }
    ensures of { IsTellerOf hub.now teller.new }
    ensures parts { row_parts (teller.new ∷ []) ≡ row_parts (teller.old ∷ []) }
{
    if !hub.settings().has_participant(who) {
        return Err(Fault::BadField);
    }
    let at = Moment::new(0, at)?;
    match hub.sweep(rt, teller, who, at) {
        Ok(new) => Ok(new),
        Err(_) => Err(Fault::Memory),
    }
}

/// Plays the lines in order and compares each answer. Returns the ticket of the last, if any.
pub(crate) fn play<R: Wait + Abort>(
    rt: &R,
    hub: &Hub,
    teller: &mut Teller,
    lines: &[ScriptLine<'_>],
) -> Result<Option<Ticket>, Fault>
    requires { IsTellerOf hub.now teller.old }
    ensures of { IsTellerOf hub.now teller.new }
    ensures parts { row_parts (teller.new ∷ []) ≡ row_parts (teller.old ∷ []) }
{
    let mut last = None;
    for ScriptLine(who, deed, at, wanted) in lines {
        let (found, ticket) = if let Deed::Sweep = deed {
            (ExpectedCall::New(swept(rt, hub, teller, *who, *at)?), None)
        } else {
            answer(rt, hub, teller, *who, *deed, *at, &Ungated)?
        };
        same(rt, found, *wanted);
        last = ticket;
    }
    Ok(last)
}

/// Plays the lines through the teller with this index; `BadField` if there is none.
pub(crate) fn play_by<R: Wait + Abort>(
    rt: &R,
    hub: &Hub,
    tellers: &mut Vec<Teller>,
    index: usize,
    lines: &[ScriptLine<'_>],
) -> Result<Option<Ticket>, Fault>
    requires of { AreOf hub.now tellers.old.items }
    requires parts { HaveAllParts tellers.old.items }
    ensures of { AreOf hub.now tellers.new.items }
    ensures parts { HaveAllParts tellers.new.items }
{
    if index >= tellers.len() {
        return Err(Fault::BadField);
    }
    play(rt, hub, &mut tellers[index], lines)
}
