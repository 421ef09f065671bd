//! Two threads of a crew run at the same time: the one that has the lock of participant 0 waits
//! until the other has that of participant 2.
ghost use Rattle.std.specs.Prelude.{◌≡◌, length};
ghost use Rattle.inst_hub.specs.Calls.{AreOf};

use crate::asking::{Deed, asked};
use crate::comparing::same;
use crate::crew::setting::desk;
use inst_base::Fault;
use inst_command::Ask;
use inst_crew::{Team, Workplace, run_crew};
use inst_fixtures::settings;
use inst_hub::{Gate, Hub, Teller};
use std::alloc::Global;
use std::process::Abort;
use std::sync::Wait;
use std::sync::atomic::{AtomicU32, Ordering};
use std::thread::{Threads, yield_now};

/// How often the gate looks for the other thread before it gives up.
const TURNS: u32 = 1_000_000;

/// A gate that waits inside the lock of participant 0 until it is passed for participant 2.
#[derive(Drop)]
struct Waits {
    /// 1 once it was passed for participant 2.
    other: AtomicU32,
    /// 1 if that happened while it waited.
    met: AtomicU32,
}

impl Waits {
    fn new() -> Waits {
        Waits {
            other: AtomicU32::new(0),
            met: AtomicU32::new(0),
        }
    }

    /// Waits for the other thread. Returns `true` if it came.
    fn wait(&self) -> bool {
        for _ in 0..TURNS {
            if self.other.load(Ordering::SeqCst) == 1 {
                return true;
            }
            yield_now();
        }
        false
    }
}

impl Gate for Waits {
    fn pass(&self, who: u8) {
        if who == 2 {
            self.other.store(1, Ordering::SeqCst);
        }
        if who == 0 && self.wait() {
            self.met.store(1, Ordering::SeqCst);
        }
    }
}

/// Compares how many of these jobs a crew of two answers, and whether its threads met.
fn met<R: Threads + Wait + Sync + Abort>(
    rt: &R,
    alloc: Global,
    hub: &Hub,
    tellers: Vec<Teller>,
    asks: &[Ask],
) -> Result<(), Fault>
    requires two { length tellers.items ≡ 2 }
    requires of { AreOf hub.now tellers.items }
{
    let (desk, hands) = desk(rt, alloc, asks, 2)?;
    let gate = Waits::new();
    let place = Workplace {
        hub,
        desk: &desk,
        gate: &gate,
    };
    let team = Team {
        hands,
        tellers,
        sweep: None,
    };
    let crew = run_crew(rt, alloc, &place, team)?;
    same(rt, (crew.answered, gate.met.load(Ordering::SeqCst)), (2, 1));
    Ok(())
}

// Two threads of a crew are inside the locks of two participants at the same time.
#[test]
fn crew_of_two_threads(rt: HostRuntime) -> Result<(), Fault> {
    let first = asked(0, Deed::Position, 1_000)?;
    let second = asked(2, Deed::Position, 1_000)?;
    let (hub, tellers) = Hub::open(rt.alloc(), settings(rt.alloc())?, 2)?;
    met(&rt, rt.alloc(), &hub, tellers, &[first, second])
}
