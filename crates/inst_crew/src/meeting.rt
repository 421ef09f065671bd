//! The point at which the sweep and the workers' next jobs begin together.
use crate::sweep::Sweep;
use std::sync::atomic::{AtomicBool, AtomicU64, Ordering};
use std::thread::yield_now;

/// How often a thread looks for the others before it continues without them.
const TURNS: u32 = 1_000_000;

/// Makes the sweeper begin once enough jobs are answered, and the workers continue once it begins.
/// Each wait is bounded, since one thread may have to do the work of all.
#[derive(Drop)]
pub(crate) struct Meeting {
    /// How many jobs are answered before the sweep.
    before: u64,
    answered: AtomicU64,
    /// `true` if no worker has to wait for the sweeper.
    begun: AtomicBool,
}

impl Meeting {
    /// Makes a meeting. No worker has to wait if there is no sweep.
    pub(crate) fn new(sweep: &Option<Sweep>) -> Meeting {
        let (before, begun) = match sweep {
            Some(sweep) => (sweep.after, false),
            None => (0, true),
        };
        Meeting {
            before,
            answered: AtomicU64::new(0),
            begun: AtomicBool::new(begun),
        }
    }

    /// Returns `true` if as many jobs are answered as the sweeper waits for.
    fn is_time(&self) -> bool {
        self.answered.load(Ordering::SeqCst) >= self.before
    }

    /// Waits for the sweeper, if it is time for the sweep.
    pub(crate) fn come(&self) {
        if !self.is_time() {
            return;
        }
        for _ in 0..TURNS {
            if self.begun.load(Ordering::SeqCst) {
                return;
            }
            yield_now();
        }
        self.begun.store(true, Ordering::SeqCst);
    }

    /// Counts a job that was answered.
    pub(crate) fn count(&self) {
        self.answered.fetch_add(1, Ordering::SeqCst);
    }

    /// Waits until it is time for the sweep, and lets the workers continue.
    pub(crate) fn begin(&self) {
        for _ in 0..TURNS {
            if self.is_time() {
                break;
            }
            yield_now();
        }
        self.begun.store(true, Ordering::SeqCst);
    }
}
