//! A row of two tellers at a hub for many threads. Each call is tried with more and more memory
//! until it succeeds.
ghost use Rattle.std.specs.Prelude.{IfOk};
ghost use Rattle.inst_hub.specs.Calls.{IsTellerOf, AreOf};

use crate::flaw::Flaw;
use crate::hub::job::last;
use crate::scarce::asking::ask_and_compare;
use crate::scarce::want::{MOST_TRIES, Need, QUANTUM, Want, check_answer};
use crate::told::RaceReply;
use inst_base::{Fault, Moment};
use inst_command::{Command, Outcome, Query, State, Step};
use inst_fixtures::{A, B, ask, confirm, fund, settings, submit};
use inst_hub::{Hub, Teller, Ticket};
use std::alloc::Global;
use std::sync::Wait;

/// The outcome of the transfer.
const ACCEPTED: State = State::Decided(Outcome::Accepted);

/// Opens the hub with more and more memory until that succeeds.
fn open_in_want(alloc: Global, want: &mut Want) -> Result<(Hub, Vec<Teller>), Flaw>
    ensures { IfOk result (λ r. AreOf r.0 r.1.items) }
{
    for quanta in 0..MOST_TRIES {
        let settings = settings(alloc)?;
        if !want.hoard.leave(quanta * QUANTUM) {
            return Err(Flaw::NoHoard);
        }
        let opened = Hub::open(alloc, settings, 2);
        want.hoard.give_back();
        match opened {
            Err(Fault::Memory) => {}
            Ok(opened) => {
                want.tries.count(Need::Takes, quanta);
                return Ok(opened);
            }
            Err(fault) => return Err(Flaw::Refused(fault)),
        }
    }
    Err(Flaw::NeverServed)
}

/// The money of originator and beneficiary.
#[derive(Clone, Copy)]
struct Money {
    originator: RaceReply,
    beneficiary: RaceReply,
}

impl Money {
    /// Returns the money of the originator, in cents; the beneficiary has none yet.
    fn of_first(position: u64, reserved: u64, available: u64) -> Money {
        Money {
            originator: RaceReply::Position(position, reserved, available),
            beneficiary: RaceReply::Position(0, 0, 0),
        }
    }
}

/// Asks with `bytes` of memory left, and frees the rest of the memory afterwards.
fn ask_in_want<R: Wait>(
    rt: &R,
    hub: &Hub,
    want: &mut Want,
    teller: &mut Teller,
    step: &Step,
    wanted: RaceReply,
    bytes: usize,
) -> Result<Option<Ticket>, Flaw>
    requires { IsTellerOf hub.now teller.old }
    ensures { IsTellerOf hub.now teller.new }
{
    if !want.hoard.leave(bytes) {
        return Err(Flaw::NoHoard);
    }
    let answer = ask_and_compare(rt, hub, teller, step, wanted);
    want.hoard.give_back();
    answer
}

/// Returns `true` if a participant has this money. The query gets no memory.
fn has<R: Wait>(
    rt: &R,
    hub: &Hub,
    want: &mut Want,
    teller: &mut Teller,
    who: u8,
    wanted: RaceReply,
) -> Result<bool, Flaw>
    requires { IsTellerOf hub.now teller.old }
    ensures { IsTellerOf hub.now teller.new }
{
    let step = ask(who, Command::Query(Query::Position), 2_000)?;
    match ask_in_want(rt, hub, want, teller, &step, wanted, 0) {
        Ok(_) => Ok(true),
        Err(Flaw::OtherAnswer) => Ok(false),
        Err(Flaw::Refused(Fault::Memory)) => Err(Flaw::Needless),
        Err(flaw) => Err(flaw),
    }
}

/// Returns `true` if originator and beneficiary have this money.
fn both_have<R: Wait>(
    rt: &R,
    hub: &Hub,
    want: &mut Want,
    teller: &mut Teller,
    money: Money,
) -> Result<bool, Flaw>
    requires { IsTellerOf hub.now teller.old }
    ensures { IsTellerOf hub.now teller.new }
{
    match has(rt, hub, want, teller, A, money.originator) {
        Ok(true) => has(rt, hub, want, teller, B, money.beneficiary),
        other => other,
    }
}

/// A call of the row, the expected reply, and the money of both sides before it.
#[derive(Clone, Copy)]
struct Call {
    step: Step,
    need: Need,
    wanted: RaceReply,
    before: Money,
}

/// Makes the call with more and more memory until it succeeds, and returns the ticket, if there is
/// one. Before each try the money of both sides must be as before the call.
fn call_in_want<R: Wait>(
    rt: &R,
    hub: &Hub,
    want: &mut Want,
    teller: &mut Teller,
    call: &Call,
) -> Result<Option<Ticket>, Flaw>
    requires { IsTellerOf hub.now teller.old }
    ensures { IsTellerOf hub.now teller.new }
{
    for quanta in 0..MOST_TRIES {
        if !both_have(rt, hub, want, teller, call.before)? {
            return Err(if quanta == 0 {
                Flaw::OtherAnswer
            } else {
                Flaw::Changed
            });
        }
        let bytes = quanta * QUANTUM;
        match ask_in_want(rt, hub, want, teller, &call.step, call.wanted, bytes) {
            Err(Flaw::Refused(Fault::Memory)) => {}
            Err(flaw) => return Err(flaw),
            Ok(ticket) => {
                want.tries.count(call.need, quanta);
                return Ok(ticket);
            }
        }
    }
    Err(Flaw::NeverServed)
}

/// Sweeps participant 1 with more and more memory until that succeeds and stores `new` events.
fn sweep_in_want<R: Wait>(
    rt: &R,
    hub: &Hub,
    want: &mut Want,
    teller: &mut Teller,
    need: Need,
    new: u32,
) -> Result<(), Flaw>
    requires { IsTellerOf hub.now teller.old }
    ensures { IsTellerOf hub.now teller.new }
{
    let at = Moment::new(0, 1_000)?;
    if !hub.settings().has_participant(B) {
        return Err(Flaw::Refused(Fault::BadField));
    }
    for quanta in 0..MOST_TRIES {
        if !want.hoard.leave(quanta * QUANTUM) {
            return Err(Flaw::NoHoard);
        }
        let answer = hub.sweep(rt, teller, B, at);
        want.hoard.give_back();
        if let Ok(count) = answer {
            want.tries.count(need, quanta);
            return check_answer(count == new);
        }
    }
    Err(Flaw::NeverServed)
}

/// Checks that the teller sees this state, with no memory left.
fn sees(
    want: &mut Want,
    teller: &mut Teller,
    ticket: &Option<Ticket>,
    state: State,
) -> Result<(), Flaw>
    ensures { (hub : Hub) → IsTellerOf hub teller.old → IsTellerOf hub teller.new }
{
    let Some(ticket) = ticket else {
        return Err(Flaw::OtherAnswer);
    };
    if !want.hoard.leave(0) {
        return Err(Flaw::NoHoard);
    }
    let seen = teller.peek(ticket);
    want.hoard.give_back();
    check_answer(seen == state)
}

/// The first teller funds participant 0, submits a transfer to participant 1 and sees it pending.
fn submit_first<R: Wait>(
    rt: &R,
    hub: &Hub,
    want: &mut Want,
    first: &mut Teller,
) -> Result<Option<Ticket>, Flaw>
    requires { IsTellerOf hub.now first.old }
    ensures { IsTellerOf hub.now first.new }
{
    let funding = Call {
        step: fund(A, "F1", 50_000, 0)?,
        need: Need::Takes,
        wanted: RaceReply::Done("F1"),
        before: Money::of_first(0, 0, 0),
    };
    call_in_want(rt, hub, want, first, &funding)?;
    let submission = Call {
        step: submit(A, "T1", B, 20_000, 1_000, 1_000)?,
        need: Need::Takes,
        wanted: RaceReply::Taken("T1", 11_000),
        before: Money::of_first(50_000, 0, 50_000),
    };
    let ticket = call_in_want(rt, hub, want, first, &submission)?;
    sees(want, first, &ticket, State::Pending)?;
    Ok(ticket)
}

/// The second teller confirms the transfer for participant 1. The follow-up of the submission
/// failed to allocate, so a first sweep finds one event; a second sweep finds none and allocates
/// nothing.
fn confirm_second<R: Wait>(
    rt: &R,
    hub: &Hub,
    want: &mut Want,
    second: &mut Teller,
    ticket: &Option<Ticket>,
) -> Result<(), Flaw>
    requires { IsTellerOf hub.now second.old }
    ensures { IsTellerOf hub.now second.new }
{
    sweep_in_want(rt, hub, want, second, Need::MayTake, 1)?;
    sweep_in_want(rt, hub, want, second, Need::TakesNone, 0)?;
    let confirmation = Call {
        step: confirm(B, A, "T1", 2_000)?,
        need: Need::MayTake,
        wanted: RaceReply::Accepted(A, "T1"),
        before: Money::of_first(50_000, 20_000, 30_000),
    };
    call_in_want(rt, hub, want, second, &confirmation)?;
    sees(want, second, ticket, ACCEPTED)
}

/// Makes the calls of both tellers. Once they have met, the first sees what the second knows.
fn calls<R: Wait>(
    rt: &R,
    hub: &Hub,
    want: &mut Want,
    first: &mut Teller,
    second: &mut Teller,
) -> Result<(), Flaw>
    requires { IsTellerOf hub.now first.old × IsTellerOf hub.now second.old }
{
    let ticket = submit_first(rt, hub, want, first)?;
    confirm_second(rt, hub, want, second, &ticket)?;
    hub.meet(first, second);
    sees(want, first, &ticket, ACCEPTED)?;
    let settled = Money {
        originator: RaceReply::Position(30_000, 0, 30_000),
        beneficiary: RaceReply::Position(20_000, 0, 20_000),
    };
    check_answer(both_have(rt, hub, want, second, settled)?)
}

/// Makes the calls of both tellers at an open hub.
fn calls_of_two<R: Wait>(
    rt: &R,
    hub: &Hub,
    want: &mut Want,
    tellers: Vec<Teller>,
) -> Result<(), Flaw>
    requires { AreOf hub.now tellers.items }
{
    let mut tellers = tellers;
    let mut second = last(hub, &mut tellers)?;
    let mut first = last(hub, &mut tellers)?;
    calls(rt, hub, want, &mut first, &mut second)
}

/// Runs the row: one teller submits a transfer, the other confirms it, and sweeps do the failed
/// follow-ups.
pub(crate) fn two_tellers<R: Wait>(rt: &R, alloc: Global, want: &mut Want) -> Result<(), Flaw> {
    let (hub, tellers) = open_in_want(alloc, want)?;
    calls_of_two(rt, &hub, want, tellers)
}
