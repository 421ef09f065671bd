//! Worked rows with allocation failures. All memory but a little is taken before a call and freed
//! after it; the little grows until the call succeeds. Each answer must be the row's or `Memory`,
//! and a call that fails with `Memory` must have changed nothing.
mod asking;
mod closing;
mod hub_row;
mod rows;
mod same;
mod step_rows;
pub(crate) mod want;

use crate::flaw::Flaw;
use crate::hoard::Hoard;
use crate::scarce::closing::closings;
use crate::scarce::hub_row::two_tellers;
use crate::scarce::step_rows::step_rows;
use crate::scarce::want::{Tries, Want};
use std::alloc::Global;
use std::sync::Wait;
use std::thread::{Threads, join};

/// Runs all rows.
fn run<R: Wait>(rt: &R, alloc: Global, want: &mut Want) -> Result<(), Flaw> {
    step_rows(alloc, want)?;
    two_tellers(rt, alloc, want)?;
    closings(rt, alloc, want)
}

/// Runs all rows, and returns the first flaw and the counts of calls.
fn ended<R: Wait>(rt: &R, alloc: Global) -> (Option<Flaw>, Tries) {
    let tries = Tries::new();
    let Some(hoard) = Hoard::new(alloc) else {
        return (Some(Flaw::NoHoard), tries);
    };
    let mut want = Want { hoard, tries };
    let ended = run(rt, alloc, &mut want);
    (want.tries.flaw.or(ended.err()), want.tries)
}

/// Runs all rows in another thread, whose stack is allocated before all memory is taken. That of
/// the first thread couldn't grow then.
pub(crate) fn run_apart<R: Threads + Wait + Sync>(rt: &R, alloc: Global) -> (Option<Flaw>, Tries) {
    let (answer, ()) = join(rt, || ended(rt, alloc), || ());
    answer
}
