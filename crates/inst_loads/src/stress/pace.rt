//! A barrier for the threads of a round.
use std::sync::atomic::{AtomicU32, Ordering};
use std::thread::yield_now;

/// The most times that a thread looks for the others before it continues without them, for example
/// after another thread failed.
const TURNS: u32 = 20_000;

/// A barrier: the threads of a round wait for one another, and then continue at the same time.
#[derive(Drop)]
pub(crate) struct Pace {
    arrived: AtomicU32,
}

impl Pace {
    pub(crate) fn new() -> Pace {
        Pace {
            arrived: AtomicU32::new(0),
        }
    }

    /// Arrives, and waits until there were `times` arrivals, counted from the beginning.
    pub(crate) fn wait(&self, times: u32) {
        self.arrived.fetch_add(1, Ordering::SeqCst);
        for _turn in 0..TURNS {
            if self.arrived.load(Ordering::SeqCst) >= times {
                return;
            }
            yield_now();
        }
    }
}
