//! A crew keeps the states that it saw, and its sweeper sweeps.
ghost use Rattle.std.specs.Prelude.{◌≡◌, ◌<◌, IfOk, length};
ghost use Rattle.inst_desk.specs.Desk.{AreHandsOf};
ghost use Rattle.inst_hub.specs.Calls.{IsTellerOf, AreOf};
ghost use Rattle.inst_crew.specs.Crew.{MaySweep};

use crate::asking::{Deed, answer, asked};
use crate::comparing::same;
use crate::crew::setting::desk;
use crate::tellers::last;
use inst_base::{Fault, Moment};
use inst_command::{Outcome, State};
use inst_crew::{Crew, Sweep, Team, Workplace, run_crew};
use inst_desk::Desk;
use inst_fixtures::settings;
use inst_hub::{Hub, Teller, Ticket, Ungated};
use std::alloc::Global;
use std::process::Abort;
use std::sync::Wait;
use std::thread::Threads;

/// Makes a sweep of participant 0 at clock reading 11000.
fn sweep(hub: &Hub, teller: Teller) -> Result<Sweep, Fault>
    requires { IsTellerOf hub.now teller }
    ensures { IfOk result (MaySweep hub.now) }
{
    if !hub.settings().has_participant(0) {
        return Err(Fault::BadField);
    }
    Ok(Sweep {
        teller,
        who: 0,
        at: Moment::new(0, 11_000)?,
        after: 0,
    })
}

/// Returns the first ticket of a crew, and the state of its transfer.
fn first_seen(crew: &Crew) -> Result<(Ticket, State), Fault> {
    crew.states.first().copied().ok_or(Fault::UnknownTransfer)
}

/// Compares the state that the crew saw of its transfer, and the state that the sweeper's teller
/// sees after it swept during another crew.
fn swept<R: Threads + Wait + Sync + Abort>(
    rt: &R,
    alloc: Global,
    hub: &Hub,
    desk: &Desk,
    crew: Crew,
    sweep: Sweep,
) -> Result<(), Fault>
    requires some { 0 < length crew.hands.items }
    requires each { length crew.tellers.items ≡ length crew.hands.items }
    requires hands { AreHandsOf desk.now crew.hands.items }
    requires tellers { AreOf hub.now crew.tellers.items }
    requires sweep { MaySweep hub.now sweep }
{
    let (ticket, seen) = first_seen(&crew)?;
    same(rt, (crew.states.len(), seen), (1, State::Pending));
    let Crew { hands, tellers, .. } = crew;
    let place = Workplace {
        hub,
        desk,
        gate: &Ungated,
    };
    let team = Team {
        hands,
        tellers,
        sweep: Some(sweep),
    };
    let crew = run_crew(rt, alloc, &place, team)?;
    let mut tellers = crew.tellers;
    let Some(mut teller) = tellers.pop() else {
        return Err(Fault::BadSettings);
    };
    same(rt, teller.peek(&ticket), State::Decided(Outcome::TimedOut));
    Ok(())
}

/// Compares the same for a crew of one that submits one transfer.
fn submitted_and_swept<R: Threads + Wait + Sync + Abort>(
    rt: &R,
    alloc: Global,
    hub: &Hub,
    tellers: Vec<Teller>,
    second: Teller,
) -> Result<(), Fault>
    requires one { length tellers.items ≡ 1 }
    requires tellers { AreOf hub.now tellers.items }
    requires second { IsTellerOf hub.now second }
{
    let sweep = sweep(hub, second)?;
    let submission = asked(0, Deed::Submit("T1", 20_000, 1_000), 1_000)?;
    let (desk, hands) = desk(rt, alloc, &[submission], 1)?;
    let place = Workplace {
        hub,
        desk: &desk,
        gate: &Ungated,
    };
    let team = Team {
        hands,
        tellers,
        sweep: None,
    };
    let crew = run_crew(rt, alloc, &place, team)?;
    swept(rt, alloc, hub, &desk, crew, sweep)
}

/// Compares the same with two tellers, one of which funds the originator.
fn funded_and_swept<R: Threads + Wait + Sync + Abort>(
    rt: &R,
    alloc: Global,
    hub: &Hub,
    mut tellers: Vec<Teller>,
) -> Result<(), Fault>
    requires two { length tellers.items ≡ 2 }
    requires tellers { AreOf hub.now tellers.items }
{
    let mut second = last(hub, &mut tellers)?;
    answer(
        rt,
        hub,
        &mut second,
        0,
        Deed::Fund("F1", 50_000),
        0,
        &Ungated,
    )?;
    submitted_and_swept(rt, alloc, hub, tellers, second)
}

/// A crew sees its transfer pending, and after a sweep it has timed out.
#[test]
fn crew_with_a_sweeper(rt: HostRuntime) -> Result<(), Fault> {
    let (hub, tellers) = Hub::open(rt.alloc(), settings(rt.alloc())?, 2)?;
    funded_and_swept(&rt, rt.alloc(), &hub, tellers)
}
