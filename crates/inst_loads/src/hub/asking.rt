//! Calls of the hub.
ghost use Rattle.inst_hub.specs.Calls.{IsTellerOf};
ghost use Rattle.inst_loads.specs.Jobs.{IsStill};

use inst_base::{Cents, Fault, Ident, Moment};
use inst_command::{Ask, Command, Funding, Outcome, Query, Reply, State, Submission};
use inst_hub::{Hub, Teller, Ticket};
use std::alloc::Global;
use std::sync::Wait;

/// The amount of each transfer, in cents.
const CENTS: u64 = 100;

/// The time stamp of all transfers, and the clock reading of their submission, in milliseconds.
const STAMP: u64 = 1_000;

/// Returns the reply to an ask, which may be a refusal, and the ticket. Fails with `BadField` if
/// the ask doesn't fit the hub.
pub(crate) fn call<R: Wait>(
    rt: &R,
    hub: &Hub,
    teller: &mut Teller,
    ask: &Ask,
) -> Result<(Reply, Option<Ticket>), Fault>
    requires { IsTellerOf hub.now teller.old }
    ensures { IsStill hub.now teller.old teller.new }
{
    if !ask.fits(hub.settings()) {
        return Err(Fault::BadField);
    }
    Ok(hub.call(rt, teller, ask)?)
}

/// Returns the reply to a command. A refusal is an error.
pub(crate) fn ask<R: Wait>(
    rt: &R,
    hub: &Hub,
    teller: &mut Teller,
    who: u8,
    command: Command,
    at: u64,
) -> Result<Reply, Fault>
    requires { IsTellerOf hub.now teller.old }
    ensures { IsStill hub.now teller.old teller.new }
{
    let ask = Ask {
        who,
        command,
        at: Moment::new(0, at)?,
    };
    match call(rt, hub, teller, &ask)? {
        (Reply::Refused(fault), _) => Err(fault),
        (reply, _) => Ok(reply),
    }
}

fn fund<R: Wait>(rt: &R, hub: &Hub, teller: &mut Teller, who: u8, cents: u64) -> Result<(), Fault>
    requires { IsTellerOf hub.now teller.old }
    ensures { IsStill hub.now teller.old teller.new }
{
    let command = Command::Fund(Funding {
        reference: Ident::new("F1")?,
        cents: Cents::new(cents)?,
    });
    match ask(rt, hub, teller, who, command, 0) {
        Ok(_) => Ok(()),
        Err(fault) => Err(fault),
    }
}

/// Funds the first `participants` participants, at most 256, with `cents` each. A refusal is an
/// error.
pub(crate) fn fund_all<R: Wait>(
    rt: &R,
    hub: &Hub,
    teller: &mut Teller,
    participants: u16,
    cents: u64,
) -> Result<(), Fault>
    requires { IsTellerOf hub.now teller.old }
    ensures { IsStill hub.now teller.old teller.new }
{
    for who in 0..participants.min(256) {
        fund(rt, hub, teller, who as u8, cents)?;
    }
    Ok(())
}

/// A participant's money, in cents.
#[derive(Clone, Copy)]
pub(crate) struct Money {
    pub(crate) position: u64,
    pub(crate) reserved: u64,
    pub(crate) available: u64,
}

/// Returns the money in a reply, if it is that of a position.
pub(crate) fn money_of(reply: &Reply) -> Option<Money> {
    match reply {
        Reply::Position {
            position,
            reserved,
            available,
        } => Some(Money {
            position: *position,
            reserved: *reserved,
            available: *available,
        }),
        _ => None,
    }
}

/// Asks for a participant's money.
pub(crate) fn ask_money<R: Wait>(
    rt: &R,
    hub: &Hub,
    teller: &mut Teller,
    who: u8,
) -> Result<Money, Fault>
    requires { IsTellerOf hub.now teller.old }
    ensures { IsStill hub.now teller.old teller.new }
{
    let reply = ask(rt, hub, teller, who, Command::Query(Query::Position), STAMP)?;
    money_of(&reply).ok_or(Fault::BadField)
}

/// Returns the submission of a thread's transfer with this number.
fn submission(alloc: Global, to: u8, thread: u8, number: u32) -> Result<Submission, Fault> {
    let text = format!(in alloc; "T{thread}-{number}")?;
    Ok(Submission {
        id: Ident::new(text.as_str())?,
        to,
        cents: Cents::new(CENTS)?,
        stamp: Moment::new(0, STAMP)?,
    })
}

/// Returns `true` if the reply has the state accepted.
pub(crate) fn is_accepted(reply: &Reply) -> bool {
    match reply {
        Reply::State { state, .. } => *state == State::Decided(Outcome::Accepted),
        _ => false,
    }
}

/// Submits and confirms a transfer. Returns `true` if it was accepted; a refusal of either is an
/// error.
pub(crate) fn settle<R: Wait>(
    rt: &R,
    alloc: Global,
    hub: &Hub,
    teller: &mut Teller,
    pair: (u8, u8),
    name: (u8, u32),
) -> Result<bool, Fault>
    requires { IsTellerOf hub.now teller.old }
    ensures { IsStill hub.now teller.old teller.new }
{
    let (from, to) = pair;
    let submission = submission(alloc, to, name.0, name.1)?;
    let id = submission.id;
    ask(rt, hub, teller, from, Command::Submit(submission), STAMP)?;
    let command = Command::Confirm { from, id };
    Ok(is_accepted(&ask(rt, hub, teller, to, command, STAMP + 1)?))
}
