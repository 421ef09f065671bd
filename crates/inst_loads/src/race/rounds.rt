//! A number of races, one after another.
use crate::race::race;
use std::alloc::Global;
use std::thread::Threads;

/// The margin of every other race, in milliseconds; the others have none.
const MARGIN: u32 = 2_000;

/// How many transfers of all races were accepted, and how many timed out.
#[derive(Clone, Copy)]
pub(crate) struct EndedRace {
    pub(crate) accepted: u64,
    pub(crate) timed_out: u64,
}

/// Runs `count` races, each at a new hub. Returns `None` if one failed or its result is wrong.
pub(crate) fn races<R: Threads + Sync>(rt: &R, alloc: Global, count: u32) -> Option<EndedRace> {
    let mut accepted = 0u64;
    let mut timed_out = 0u64;
    for round in 0..count {
        let margin = if round % 2 == 0 { 0 } else { MARGIN };
        let finish = race(rt, alloc, margin).ok()?;
        if !finish.is_whole() {
            return None;
        }
        accepted = accepted.saturating_add(u64::from(finish.accepted));
        timed_out = timed_out.saturating_add(u64::from(finish.timed_out));
    }
    Some(EndedRace {
        accepted,
        timed_out,
    })
}
