//! One teller submits a transfer, and another confirms it.
ghost use Rattle.std.specs.Prelude.{IfOk};
ghost use Rattle.inst_hub.specs.Calls.{IsTellerOf, AreOf};

use crate::asking::{ACCEPTED, Deed, ExpectedCall, ScriptLine, play};
use crate::comparing::same;
use crate::hub::setting::submitted;
use crate::tellers::last_two;
use inst_base::Fault;
use inst_command::State;
use inst_fixtures::settings;
use inst_hub::{Hub, Teller};
use std::process::Abort;
use std::sync::Wait;

/// The confirmation by participant 1.
const CONFIRMED: [ScriptLine<'static>; 1] = [ScriptLine(
    1,
    Deed::Confirm("T1"),
    2_000,
    ExpectedCall::State(ACCEPTED, true),
)];

/// The money of participant 0 afterwards.
const PAID: [ScriptLine<'static>; 1] = [ScriptLine(
    0,
    Deed::Position,
    2_000,
    ExpectedCall::Money(30_000, 0, 30_000),
)];

/// Returns what both see: the first after it submitted, the second after it confirmed, and the
/// first before and after it meets the second.
fn see<R: Wait + Abort>(
    rt: &R,
    hub: &Hub,
    first: &mut Teller,
    second: &mut Teller,
) -> Result<[State; 4], Fault>
    requires { IsTellerOf hub.now first.old × IsTellerOf hub.now second.old }
    ensures { IfOk result (λ r. IsTellerOf hub.now second.new) }
{
    let ticket = submitted(rt, hub, first)?;
    let submitted = first.peek(&ticket);
    play(rt, hub, second, &CONFIRMED)?;
    let seen_second = second.peek(&ticket);
    let before_meeting = first.peek(&ticket);
    hub.meet(first, second);
    Ok([submitted, seen_second, before_meeting, first.peek(&ticket)])
}

/// Compares what both see, and the money of participant 0 afterwards.
fn both_see<R: Wait + Abort>(rt: &R, hub: &Hub, tellers: &mut Vec<Teller>) -> Result<(), Fault>
    requires { AreOf hub.now tellers.old.items }
{
    let (mut first, mut second) = last_two(hub, tellers)?;
    let expected = [State::Pending, ACCEPTED, ACCEPTED, ACCEPTED];
    same(rt, see(rt, hub, &mut first, &mut second)?, expected);
    play(rt, hub, &mut second, &PAID)?;
    Ok(())
}

/// A teller sees an outcome that another teller caused, before and after they meet.
#[test]
fn two_tellers(rt: HostRuntime) -> Result<(), Fault> {
    let (hub, mut tellers) = Hub::open(rt.alloc(), settings(rt.alloc())?, 2)?;
    both_see(&rt, &hub, &mut tellers)
}
