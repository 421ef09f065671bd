//! A call that has one participant's lock holds up other calls of that participant only.
ghost use Rattle.inst_hub.specs.Calls.{IsTellerOf, AreOf};

use crate::asking::{Deed, answer};
use crate::comparing::same;
use crate::hub::setting::submitted;
use crate::hub::start::StartLine;
use crate::tellers::last_two;
use inst_base::{Fault, mention};
use inst_command::{Outcome, State};
use inst_fixtures::settings;
use inst_hub::{Gate, Hub, Teller, Ticket, Ungated};
use std::process::Abort;
use std::sync::Wait;
use std::sync::atomic::{AtomicU32, Ordering};
use std::thread::{Threads, join, yield_now};

/// How many times the gate yields after all that can be done meanwhile is done.
const LINGERS: u32 = 1_000;

/// A gate that waits inside the lock of participant 0 until two others are done, and notes what it
/// saw.
#[derive(Drop)]
struct Waits {
    /// The gate and the three other threads have arrived.
    begun: StartLine,
    /// The two that aren't held up are done.
    done: StartLine,
    /// Another call of participant 0 was answered.
    queued: StartLine,
    /// How often the gate was passed.
    passes: AtomicU32,
    /// For whom it was passed last.
    who: AtomicU32,
    /// 1 if the two were done while the lock was held.
    through: AtomicU32,
    /// 1 if the other call of participant 0 was answered while the lock was held.
    overtaken: AtomicU32,
}

impl Waits {
    fn new() -> Waits {
        Waits {
            begun: StartLine::new(),
            done: StartLine::new(),
            queued: StartLine::new(),
            passes: AtomicU32::new(0),
            who: AtomicU32::new(u32::MAX),
            through: AtomicU32::new(0),
            overtaken: AtomicU32::new(0),
        }
    }

    /// Waits with the three others until all four have arrived.
    fn begin(&self) -> bool {
        self.begun.arrive();
        self.begun.wait_for(4)
    }

    /// Returns what the gate saw.
    fn seen(&self) -> Passed {
        Passed {
            passes: self.passes.load(Ordering::SeqCst),
            who: self.who.load(Ordering::SeqCst),
            through: self.through.load(Ordering::SeqCst) == 1,
            overtaken: self.overtaken.load(Ordering::SeqCst) == 1,
        }
    }
}

/// What the gate saw.
#[derive(Clone, Copy, Debug, PartialEq)]
struct Passed {
    passes: u32,
    who: u32,
    through: bool,
    overtaken: bool,
}

/// What it must see: it was passed once, and the others were answered meanwhile, except the one
/// that waits for its lock.
const PASSED: Passed = Passed {
    passes: 1,
    who: 0,
    through: true,
    overtaken: false,
};

impl Gate for Waits {
    fn pass(&self, who: u8) {
        self.passes.fetch_add(1, Ordering::SeqCst);
        self.who.store(u32::from(who), Ordering::SeqCst);
        let through = self.begin() && self.done.wait_for(2);
        self.through.store(u32::from(through), Ordering::SeqCst);
        for _ in 0..LINGERS {
            yield_now();
        }
        self.overtaken
            .store(u32::from(self.queued.has(1)), Ordering::SeqCst);
    }
}

/// Asks for the position of participant 0, with the gate passed inside its lock.
fn held<R: Wait>(rt: &R, hub: &Hub, teller: &mut Teller, gate: &Waits) -> Result<(), Fault>
    requires { IsTellerOf hub.now teller.old }
{
    answer(rt, hub, teller, 0, Deed::Position, 1_000, gate)?;
    Ok(())
}

/// Asks for the position of a participant meanwhile, and then notes that it was answered.
fn answered<R: Wait>(
    rt: &R,
    hub: &Hub,
    teller: &mut Teller,
    who: u8,
    gate: &Waits,
    done: &StartLine,
) -> Result<(), Fault>
    requires { IsTellerOf hub.now teller.old }
{
    gate.begin();
    answer(rt, hub, teller, who, Deed::Position, 1_000, &Ungated)?;
    done.arrive();
    Ok(())
}

/// Asks for the position of participant 2 while another thread peeks.
fn peeked(teller: &mut Teller, ticket: &Ticket, gate: &Waits) -> State {
    gate.begin();
    let state = teller.peek(ticket);
    gate.done.arrive();
    state
}

/// Returns what is seen of the transfer while the positions of participants 0 and 2 are asked for
/// in two other threads.
fn apart<R: Threads + Wait + Sync>(
    rt: &R,
    hub: &Hub,
    asker: &mut Teller,
    peeker: &mut Teller,
    ticket: &Ticket,
    gate: &Waits,
) -> Result<State, Fault>
    requires { IsTellerOf hub.now asker.old }
{
    let (answered, state) = join(
        rt,
        || answered(rt, hub, asker, 2, gate, &gate.done),
        || peeked(peeker, ticket, gate),
    );
    answered.map(|_| state)
}

/// Returns what is seen of the transfer while one thread asks for participant 0 and another for
/// participant 2.
fn meanwhile<R: Threads + Wait + Sync>(
    rt: &R,
    hub: &Hub,
    first: &mut Teller,
    second: &mut Teller,
    third: &mut Teller,
    ticket: &Ticket,
    gate: &Waits,
) -> Result<State, Fault>
    requires { IsTellerOf hub.now first.old × IsTellerOf hub.now second.old }
{
    let (queued, state) = join(
        rt,
        || answered(rt, hub, first, 0, gate, &gate.queued),
        || -> Result<State, Fault>
            requires { IsTellerOf hub.now second.now }
        { apart(rt, hub, second, third, ticket, gate) },
    );
    queued.and(state)
}

/// Compares what is seen of a transfer while one of four tellers holds the lock of participant 0,
/// and what its gate saw.
fn lets_through<R: Threads + Wait + Sync + Abort>(
    rt: &R,
    hub: &Hub,
    tellers: &mut Vec<Teller>,
) -> Result<(), Fault>
    requires { AreOf hub.now tellers.old.items }
{
    mention::<Outcome>();
    let (mut third, mut fourth) = last_two(hub, tellers)?;
    let ticket = submitted(rt, hub, &mut fourth)?;
    let (mut first, mut second) = last_two(hub, tellers)?;
    let gate = Waits::new();
    let (held, state) = join(
        rt,
        || held(rt, hub, &mut first, &gate),
        || -> Result<State, Fault>
            requires { IsTellerOf hub.now second × IsTellerOf hub.now third }
        {
            meanwhile(
                rt,
                hub,
                &mut second,
                &mut third,
                &mut fourth,
                &ticket,
                &gate,
            )
        },
    );
    same(
        rt,
        (held.and(state), gate.seen()),
        (Ok(State::Pending), PASSED),
    );
    Ok(())
}

/// While a call holds a lock, peeks and other participants' calls are answered, and no other call
/// of that participant is.
#[test]
fn gate_lets_others_through(rt: HostRuntime) -> Result<(), Fault> {
    let (hub, mut tellers) = Hub::open(rt.alloc(), settings(rt.alloc())?, 4)?;
    lets_through(&rt, &hub, &mut tellers)
}
