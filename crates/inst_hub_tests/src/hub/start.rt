//! A point at which the threads of a test wait for each other, so that they continue at the same
//! time.
use std::sync::atomic::{AtomicU32, Ordering};
use std::thread::yield_now;

/// How often a thread looks for the others before it gives up.
const TURNS: u32 = 1_000_000;

#[derive(Drop)]
pub(crate) struct StartLine {
    arrived: AtomicU32,
}

impl StartLine {
    pub(crate) fn new() -> StartLine {
        StartLine {
            arrived: AtomicU32::new(0),
        }
    }

    /// Notes that this thread has arrived.
    pub(crate) fn arrive(&self) {
        self.arrived.fetch_add(1, Ordering::SeqCst);
    }

    /// Waits until so many have arrived, and yields meanwhile. Returns `true` if they came.
    pub(crate) fn wait_for(&self, threads: u32) -> bool {
        for _ in 0..TURNS {
            if self.arrived.load(Ordering::SeqCst) >= threads {
                return true;
            }
            yield_now();
        }
        false
    }

    /// Returns `true` if so many have arrived.
    pub(crate) fn has(&self, threads: u32) -> bool {
        self.arrived.load(Ordering::SeqCst) >= threads
    }
}
