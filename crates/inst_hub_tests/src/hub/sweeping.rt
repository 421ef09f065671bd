//! How many events sweeps store, and in which order they deliver.
ghost use Rattle.inst_hub.specs.Calls.{IsTellerOf, AreOf};

use crate::asking::{Deed, ExpectedCall, ScriptLine, answer, play};
use crate::comparing::same;
use crate::hub::setting::submitted;
use crate::hub::start::StartLine;
use crate::tellers::{last, last_two, played, with_teller};
use inst_base::Fault;
use inst_command::{Outcome, State};
use inst_fixtures::{settings, settings_with};
use inst_hub::{Gate, Hub, Teller};
use std::process::Abort;
use std::sync::Wait;
use std::thread::{Threads, join};

/// The outcome of a transfer that timed out.
const TIMED_OUT: State = State::Decided(Outcome::TimedOut);

/// Investigations before the deadline and at it, then sweeps of both sides.
const INVESTIGATED: [ScriptLine<'static>; 4] = [
    ScriptLine(
        0,
        Deed::Investigate("T1"),
        10_999,
        ExpectedCall::State(State::Pending, true),
    ),
    ScriptLine(
        0,
        Deed::Investigate("T1"),
        11_000,
        ExpectedCall::State(TIMED_OUT, true),
    ),
    ScriptLine(0, Deed::Sweep, 11_000, ExpectedCall::New(0)),
    ScriptLine(1, Deed::Sweep, 11_000, ExpectedCall::New(0)),
];

/// Compares their answers for a submitted transfer.
fn investigates<R: Wait + Abort>(rt: &R, hub: &Hub, teller: &mut Teller) -> Result<(), Fault>
    requires { IsTellerOf hub.now teller.old }
{
    submitted(rt, hub, teller)?;
    play(rt, hub, teller, &INVESTIGATED).map(|_| ())
}

// The beneficiary learns the outcome that an investigation finds, so a sweep finds nothing.
#[test]
fn what_an_investigation_finds_is_learnt(rt: HostRuntime) -> Result<(), Fault> {
    let alloc = rt.alloc();
    let (hub, mut teller) = with_teller(Hub::open(alloc, settings(alloc)?, 1)?)?;
    investigates(&rt, &hub, &mut teller)
}

/// A gate that waits inside the locks of two originators until a sweep has delivered what both
/// submitted.
#[derive(Drop)]
struct Holds {
    /// Both transfers are taken, and not yet delivered.
    held: StartLine,
    /// The sweep is done.
    done: StartLine,
}

impl Gate for Holds {
    fn pass(&self, _who: u8) {
        self.held.arrive();
        self.done.wait_for(1);
    }
}

/// A sweep of participant 1 while both transfers are held.
const BROUGHT: [ScriptLine<'static>; 1] = [ScriptLine(1, Deed::Sweep, 1_000, ExpectedCall::New(2))];

/// Another sweep of participant 1, and its inbox.
const FETCHED: [ScriptLine<'static>; 2] = [
    ScriptLine(1, Deed::Sweep, 1_000, ExpectedCall::New(0)),
    ScriptLine(1, Deed::Fetch, 1_000, ExpectedCall::Came(0, 2)),
];

/// Compares what a sweep of participant 1 stores while both transfers are held, what another one
/// stores, and the order of delivery.
fn brought<R: Wait + Abort>(
    rt: &R,
    hub: &Hub,
    teller: &mut Teller,
    gate: &Holds,
) -> Result<(), Fault>
    requires { IsTellerOf hub.now teller.old }
{
    gate.held.wait_for(2);
    let first = play(rt, hub, teller, &BROUGHT);
    gate.done.arrive();
    first.and(play(rt, hub, teller, &FETCHED)).map(|_| ())
}

/// Submits a transfer of the participant, which is not delivered by its call before the sweep is
/// done.
fn held<R: Wait>(rt: &R, hub: &Hub, teller: &mut Teller, who: u8, gate: &Holds) -> Result<(), Fault>
    requires { IsTellerOf hub.now teller.old }
{
    let deed = Deed::Submit("T1", 20_000, 1_000);
    answer(rt, hub, teller, who, deed, 1_000, gate)?;
    Ok(())
}

/// Submits for participants 2 and 0 in two threads.
fn both<R: Threads + Wait + Sync>(
    rt: &R,
    hub: &Hub,
    first: &mut Teller,
    second: &mut Teller,
    gate: &Holds,
) -> Result<(), Fault>
    requires { IsTellerOf hub.now first.old × IsTellerOf hub.now second.old }
{
    let (first, second) = join(
        rt,
        || held(rt, hub, first, 2, gate),
        || held(rt, hub, second, 0, gate),
    );
    first.and(second)
}

/// Participants 0 and 2 are funded.
const FUNDED: [ScriptLine<'static>; 2] = [
    ScriptLine(0, Deed::Fund("F1", 50_000), 0, ExpectedCall::Done),
    ScriptLine(2, Deed::Fund("F1", 50_000), 0, ExpectedCall::Done),
];

/// Compares what the sweeps of the last of three tellers store and deliver.
fn delivers<R: Threads + Wait + Sync + Abort>(
    rt: &R,
    hub: &Hub,
    tellers: &mut Vec<Teller>,
) -> Result<(), Fault>
    requires { AreOf hub.now tellers.old.items }
{
    let mut third = last(hub, tellers)?;
    play(rt, hub, &mut third, &FUNDED)?;
    let (mut first, mut second) = last_two(hub, tellers)?;
    let gate = Holds {
        held: StartLine::new(),
        done: StartLine::new(),
    };
    let (brought, submitted) = join(
        rt,
        || brought(rt, hub, &mut third, &gate),
        || -> Result<(), Fault>
            requires { IsTellerOf hub.now first × IsTellerOf hub.now second }
        { both(rt, hub, &mut first, &mut second, &gate) },
    );
    submitted.and(brought)
}

// A sweep delivers what is pending, by the originators' numbers, and the follow-up then finds
// nothing.
#[test]
fn sweep_delivers(rt: HostRuntime) -> Result<(), Fault> {
    let alloc = rt.alloc();
    let (hub, mut tellers) = Hub::open(alloc, settings(alloc)?, 3)?;
    delivers(&rt, &hub, &mut tellers)
}

/// Sweeps of participant 0 before the deadline and at it, of participant 1, and of participant 0
/// again.
const EXPIRED: [ScriptLine<'static>; 4] = [
    ScriptLine(0, Deed::Sweep, 10_999, ExpectedCall::New(0)),
    ScriptLine(0, Deed::Sweep, 11_000, ExpectedCall::New(1)),
    ScriptLine(1, Deed::Sweep, 11_000, ExpectedCall::New(1)),
    ScriptLine(0, Deed::Sweep, 11_000, ExpectedCall::New(0)),
];

/// Compares how many events they store, and the state of the transfer afterwards.
fn times_out<R: Wait + Abort>(rt: &R, hub: &Hub, teller: &mut Teller) -> Result<(), Fault>
    requires { IsTellerOf hub.now teller.old }
{
    let ticket = submitted(rt, hub, teller)?;
    play(rt, hub, teller, &EXPIRED)?;
    same(rt, teller.peek(&ticket), TIMED_OUT);
    Ok(())
}

/// A sweep of the originator times out a due transfer, and one of the beneficiary learns it.
#[test]
fn sweeps_time_out_and_learn(rt: HostRuntime) -> Result<(), Fault> {
    let alloc = rt.alloc();
    let (hub, mut teller) = with_teller(Hub::open(alloc, settings(alloc)?, 1)?)?;
    times_out(&rt, &hub, &mut teller)
}

/// Three transfers, the first of which has the last deadline, with sweeps of participant 0 before
/// that deadline and at it, and of participant 1.
const DUE: [ScriptLine<'static>; 7] = [
    ScriptLine(0, Deed::Fund("F1", 50_000), 0, ExpectedCall::Done),
    ScriptLine(
        0,
        Deed::Submit("T1", 100, 1_500),
        1_000,
        ExpectedCall::Taken(true),
    ),
    ScriptLine(
        0,
        Deed::Submit("T2", 100, 1_000),
        1_000,
        ExpectedCall::Taken(true),
    ),
    ScriptLine(
        0,
        Deed::Submit("T3", 100, 1_000),
        1_000,
        ExpectedCall::Taken(true),
    ),
    ScriptLine(0, Deed::Sweep, 11_499, ExpectedCall::New(2)),
    ScriptLine(0, Deed::Sweep, 11_500, ExpectedCall::New(1)),
    ScriptLine(1, Deed::Sweep, 11_500, ExpectedCall::New(3)),
];

/// A sweep times out exactly the transfers that are due, whatever their places.
#[test]
fn sweep_goes_by_deadline(rt: HostRuntime) -> Result<(), Fault> {
    let alloc = rt.alloc();
    played(&rt, Hub::open(alloc, settings_with(alloc, 3, 0)?, 1)?, &DUE)
}
