//! One thread confirms transfers at the last moment in time while another investigates them at the
//! deadline.
ghost use Rattle.inst_hub.specs.Calls.{IsTellerOf, AreOf};

use crate::asking::{Deed, ExpectedCall, ScriptLine, answer, play};
use crate::comparing::same;
use crate::hub::start::StartLine;
use crate::tellers::{last, last_two};
use inst_base::{Fault, Ident};
use inst_command::{Outcome, State};
use inst_fixtures::settings_with;
use inst_hub::{Hub, Teller, Ungated};
use std::alloc::Global;
use std::process::Abort;
use std::sync::Wait;
use std::thread::{Threads, join};

/// How many transfers are raced for.
const TRANSFERS: u16 = 100;

/// The funding of the originator, in cents.
const FUNDS: u64 = 20_000;

/// Returns the identifier of the transfer with this index.
fn name(alloc: Global, index: u16) -> Result<Ident, Fault> {
    let text = format!(in alloc; "T{index}")?;
    Ident::new(text.as_str())
}

/// Funds participant 0 and submits all transfers.
fn submit_all<R: Wait>(rt: &R, alloc: Global, hub: &Hub, teller: &mut Teller) -> Result<(), Fault>
    requires { IsTellerOf hub.now teller.old }
    ensures { IsTellerOf hub.now teller.new }
{
    answer(rt, hub, teller, 0, Deed::Fund("F1", FUNDS), 0, &Ungated)?;
    for index in 0..TRANSFERS {
        let id = name(alloc, index)?;
        let deed = Deed::Submit(id.text(), 200, 1_000);
        answer(rt, hub, teller, 0, deed, 1_000, &Ungated)?;
    }
    Ok(())
}

/// How many commands were answered with an acceptance, and how many with a time-out.
#[derive(Clone, Copy, Debug, PartialEq)]
struct Count {
    accepted: u16,
    timed_out: u16,
}

/// Decides each transfer once both sides have started, and counts the outcomes. Participant 0
/// investigates it at this clock reading; participant 1 confirms it.
fn decide_all<R: Wait>(
    rt: &R,
    alloc: Global,
    hub: &Hub,
    teller: &mut Teller,
    who: u8,
    at: u64,
    start: &StartLine,
) -> Result<Count, Fault>
    requires { IsTellerOf hub.now teller.old }
{
    start.arrive();
    if !start.wait_for(2) {
        return Err(Fault::Full);
    }
    let mut count = Count {
        accepted: 0,
        timed_out: 0,
    };
    for index in 0..TRANSFERS {
        let id = name(alloc, index)?;
        let deed = match who {
            0 => Deed::Investigate(id.text()),
            _ => Deed::Confirm(id.text()),
        };
        let (found, _) = answer(rt, hub, teller, who, deed, at, &Ungated)?;
        let ExpectedCall::State(State::Decided(outcome), _) = found else {
            return Err(Fault::UnknownTransfer);
        };
        match outcome {
            Outcome::Accepted => count.accepted = count.accepted.saturating_add(1),
            Outcome::TimedOut => count.timed_out = count.timed_out.saturating_add(1),
            Outcome::Rejected(_) => return Err(Fault::UnknownTransfer),
        }
    }
    Ok(count)
}

/// Compares the answers of both sides in two threads: the numbers of acceptances and time-outs.
fn race<R: Threads + Wait + Sync + Abort>(
    rt: &R,
    alloc: Global,
    hub: &Hub,
    first: &mut Teller,
    second: &mut Teller,
) -> Result<Count, Fault>
    requires { IsTellerOf hub.now first.old × IsTellerOf hub.now second.old }
{
    let start = StartLine::new();
    let (investigated, confirmed) = join(
        rt,
        || decide_all(rt, alloc, hub, first, 0, 11_000, &start),
        || decide_all(rt, alloc, hub, second, 1, 10_999, &start),
    );
    same(rt, investigated, confirmed);
    confirmed
}

/// Compares the money of both sides, given the number of acceptances.
fn have_money<R: Wait + Abort>(
    rt: &R,
    hub: &Hub,
    teller: &mut Teller,
    accepted: u16,
) -> Result<(), Fault>
    requires { IsTellerOf hub.now teller.old }
{
    let paid = u64::from(accepted) * 200;
    let left = FUNDS.saturating_sub(paid);
    let lines = [
        ScriptLine(
            0,
            Deed::Position,
            11_000,
            ExpectedCall::Money(left, 0, left),
        ),
        ScriptLine(
            1,
            Deed::Position,
            11_000,
            ExpectedCall::Money(paid, 0, paid),
        ),
    ];
    play(rt, hub, teller, &lines).map(|_| ())
}

/// Submits all transfers, lets the first two of three tellers race, and compares the results.
fn agree<R: Threads + Wait + Sync + Abort>(
    rt: &R,
    alloc: Global,
    hub: &Hub,
    tellers: &mut Vec<Teller>,
) -> Result<(), Fault>
    requires { AreOf hub.now tellers.old.items }
{
    let mut third = last(hub, tellers)?;
    submit_all(rt, alloc, hub, &mut third)?;
    let (mut first, mut second) = last_two(hub, tellers)?;
    let count = race(rt, alloc, hub, &mut first, &mut second)?;
    let all = u32::from(count.accepted) + u32::from(count.timed_out);
    same(rt, all, u32::from(TRANSFERS));
    have_money(rt, hub, &mut third, count.accepted)
}

// Both sides get the same outcome of each transfer, so their counts and the money agree.
#[test]
fn two_threads_agree(rt: HostRuntime) -> Result<(), Fault> {
    let alloc = rt.alloc();
    let (hub, mut tellers) = Hub::open(alloc, settings_with(alloc, TRANSFERS, 0)?, 3)?;
    agree(&rt, alloc, &hub, &mut tellers)
}
