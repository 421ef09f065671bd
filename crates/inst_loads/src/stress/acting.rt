//! The calls of a teller in a stress, and what it notes of the replies.
ghost use Rattle.inst_hub.specs.declared.hub.Hub.{Hub};
ghost use Rattle.inst_hub.specs.Calls.{IsTellerOf};
ghost use Rattle.inst_loads.specs.Jobs.{IsStill};

use crate::flaw::Flaw;
use crate::hub::asking::{call, money_of};
use crate::stress::chooser::Choice;
use crate::stress::sights::{Sights, ToldTransfer};
use inst_base::{Fault, Moment, mention};
use inst_command::{Ask, Outcome, Place, Reply};
use inst_hub::{Hub, Teller, Ticket};
use std::sync::Wait;

/// Makes the chosen call, and notes what it returns.
pub(crate) fn act_so<R: Wait>(
    rt: &R,
    hub: &Hub,
    teller: &mut Teller,
    sights: &mut Sights,
    choice: &Choice,
) -> Result<(), Flaw>
    requires { IsTellerOf hub.now teller.old }
    ensures { IsStill hub.now teller.old teller.new }
{
    match choice {
        Choice::Ask(ask) => ask_so(rt, hub, teller, sights, ask),
        Choice::Peek(place) => peek_at(teller, sights, *place),
        Choice::Sweep { who, at } => {
            sights.calls = sights.calls.saturating_add(1);
            match sweep(rt, hub, teller, *who, *at) {
                Ok(_) => Ok(()),
                Err(flaw) => Err(flaw),
            }
        }
    }
}

/// Sweeps a participant, and returns how many events were stored.
pub(crate) fn sweep<R: Wait>(
    rt: &R,
    hub: &Hub,
    teller: &mut Teller,
    who: u8,
    at: Moment,
) -> Result<u32, Flaw>
    requires { IsTellerOf hub.now teller.old }
    ensures { IsStill hub.now teller.old teller.new }
{
    if u16::from(who) >= hub.settings().participants() {
        return Err(Flaw::Refused(Fault::BadField));
    }
    Ok(hub.sweep(rt, teller, who, at)?)
}

/// Asks, and peeks if there is a ticket.
pub(crate) fn ask_so<R: Wait>(
    rt: &R,
    hub: &Hub,
    teller: &mut Teller,
    sights: &mut Sights,
    ask: &Ask,
) -> Result<(), Flaw>
    requires { IsTellerOf hub.now teller.old }
    ensures { IsStill hub.now teller.old teller.new }
{
    let (reply, ticket) = call(rt, hub, teller, ask)?;
    sights.calls = sights.calls.saturating_add(1);
    is_balanced(&reply)?;
    match ticket {
        Some(ticket) => told(teller, sights, ask, &reply, ticket),
        None => told_other(sights, &reply),
    }
}

/// Checks that a reply's position is the sum of its reserved and available amounts.
fn is_balanced(reply: &Reply) -> Result<(), Flaw> {
    match money_of(reply) {
        Some(money) if money.reserved.checked_add(money.available) != Some(money.position) => {
            Err(Flaw::Unbalanced)
        }
        _ => Ok(()),
    }
}

/// Notes a reply that has no ticket.
fn told_other(sights: &mut Sights, reply: &Reply) -> Result<(), Flaw> {
    match reply {
        Reply::Taken { .. } | Reply::State { .. } => Err(Flaw::NoTicket),
        Reply::Inbox { entries } => sights.fetch(entries.as_slice()),
        _ => Ok(()),
    }
}

/// Notes the state in a reply, if it has one.
fn note_reply(sights: &mut Sights, sight: &ToldTransfer, reply: &Reply) -> Result<(), Flaw> {
    match reply {
        Reply::State { .. } => sights.note(*sight, Flaw::ReplyWentBack),
        _ => Ok(()),
    }
}

/// Notes what the reply says of the ticket's transfer, and what a peek then returns.
fn told(
    teller: &mut Teller,
    sights: &mut Sights,
    ask: &Ask,
    reply: &Reply,
    ticket: Ticket,
) -> Result<(), Flaw>
    ensures { (hub : Hub) → IsTellerOf hub teller.old → IsStill hub teller.old teller.new }
{
    mention::<Outcome>();
    let sight = ToldTransfer::of(&ask.command, reply, ticket).ok_or(Flaw::OtherTransfer)?;
    note_reply(sights, &sight, reply)?;
    let state = teller.peek(&ticket);
    sights.note(ToldTransfer { state, ..sight }, Flaw::PeekWentBack)
}

/// Peeks at this place, if a transfer was noted there.
pub(crate) fn peek_at(teller: &mut Teller, sights: &mut Sights, place: Place) -> Result<(), Flaw>
    ensures { (hub : Hub) → IsTellerOf hub teller.old → IsStill hub teller.old teller.new }
{
    let Some(sight) = sights.at(place) else {
        return Ok(());
    };
    let state = teller.peek(&sight.ticket);
    sights.note(ToldTransfer { state, ..sight }, Flaw::PeekWentBack)
}
