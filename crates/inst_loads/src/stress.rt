//! A stress of a small hub: threads race for the outcomes of transfers between 4 participants.
//! After each round their replies are compared with the books. In a round with allocation failures
//! each thread makes some calls with little memory left, and continues after a failure.
ghost use Rattle.std.specs.Prelude.{IfOk};
ghost use Rattle.inst_hub.specs.Calls.{IsTellerOf};
ghost use Rattle.inst_loads.specs.Jobs.{AreJobsOf, AreStill, IsStill};

mod accounts;
mod acting;
mod chooser;
mod generator;
mod inbox;
mod meeting;
mod pace;
mod running;
mod settling;
mod sights;
mod stress_round;
pub(crate) mod tally;
mod transfer;

use crate::flaw::{Failure, Flaw};
use crate::hub::asking::fund_all;
use crate::hub::closing::close_and_explain;
use crate::hub::job::{HubJob, jobs, last};
use crate::hub::opening::{Size, open};
use crate::load::threads_of;
use crate::stress::accounts::check_accounts;
use crate::stress::inbox::check_inbox;
use crate::stress::meeting::{agree, meet_all, peek_all};
use crate::stress::running::run;
use crate::stress::settling::{bring_all, fetch_all, settle, sweep_all};
use crate::stress::sights::{PLACES, Sights};
use crate::stress::stress_round::StressRound;
use crate::stress::tally::StressTally;
use crate::stress::transfer::{FUNDS, PARTICIPANTS};
use inst_hub::{Hub, Teller};
use std::alloc::Global;
use std::sync::Wait;
use std::thread::{Threads, join};

/// Checks that each transfer reached its beneficiary, and lets each be decided and booked.
fn settle_all<R: Wait>(
    rt: &R,
    hub: &Hub,
    teller: &mut Teller,
    round: StressRound,
    sights: &mut Sights,
) -> Result<(), Flaw>
    requires { IsTellerOf hub.now teller.old }
    ensures { IsStill hub.now teller.old teller.new }
{
    bring_all(rt, hub, teller, round)?;
    fetch_all(rt, hub, teller, sights)?;
    check_inbox(sights)?;
    settle(rt, hub, teller, sights)?;
    sweep_all(rt, hub, teller, round)
}

/// Checks that all tellers see the same, before the pending transfers are decided and after it.
fn end<R: Wait>(
    rt: &R,
    hub: &Hub,
    teller: &mut Teller,
    round: StressRound,
    jobs: &mut [HubJob],
    sights: &mut Sights,
) -> Result<(), Failure>
    requires { IsTellerOf hub.now teller.old × AreJobsOf hub.now jobs.old }
    ensures { IsStill hub.now teller.old teller.new × AreStill hub.now jobs.old jobs.new }
{
    // In the first pass the teller receives what each of the others knows; in the second it passes
    // all of it to each of them.
    meet_all(hub, teller, jobs);
    meet_all(hub, teller, jobs);
    peek_all(teller, sights)?;
    agree(jobs, sights)?;
    settle_all(rt, hub, teller, round, sights)?;
    agree(jobs, sights)
}

/// Compares all replies with the books, and returns how the transfers ended.
fn check<R: Wait>(
    rt: &R,
    hub: &Hub,
    teller: &mut Teller,
    sights: &Sights,
) -> Result<StressTally, Failure>
    requires { IsTellerOf hub.now teller.old }
    ensures { IsStill hub.now teller.old teller.new }
{
    let tally = StressTally::of(sights)?;
    check_accounts(rt, hub, teller, sights)?;
    Ok(tally)
}

/// Runs a round with these jobs, and returns how the transfers ended.
fn race<R: Threads + Wait + Sync>(
    rt: &R,
    alloc: Global,
    hub: &Hub,
    teller: &mut Teller,
    jobs: Vec<HubJob>,
    round: StressRound,
) -> Result<(StressTally, Vec<HubJob>), Failure>
    requires { IsTellerOf hub.now teller.old × AreJobsOf hub.now jobs.items }
    ensures { IfOk result (λ r. IsStill hub.now teller.old teller.new
        × AreStill hub.now jobs.items r.1.items) }
{
    fund_all(rt, hub, teller, PARTICIPANTS, FUNDS)?;
    let (mut jobs, mut sights) = run(rt, alloc, hub, round, jobs)?;
    end(rt, hub, teller, round, &mut jobs, &mut sights)?;
    let tally = check(rt, hub, teller, &sights)?;
    Ok((tally, jobs))
}

/// Runs a round at a new hub, closes it, and finds steps in one thread that leave its books.
fn round<R: Threads + Wait + Sync>(
    rt: &R,
    alloc: Global,
    round: StressRound,
) -> Result<StressTally, Failure> {
    let size = Size {
        participants: PARTICIPANTS,
        places: PLACES,
        margin: round.margin,
    };
    let (hub, mut tellers) = open(alloc, size, round.threads)?;
    let mut teller = last(&hub, &mut tellers)?;
    let jobs = jobs(alloc, &hub, tellers)?;
    let (tally, jobs) = race(rt, alloc, &hub, &mut teller, jobs, round)?;
    close_and_explain(alloc, hub, jobs, teller)?;
    Ok(tally)
}

/// The options of a stress.
#[derive(Clone, Copy)]
pub(crate) struct Stress {
    /// 1 to 15.
    threads: u8,
    rounds: u32,
    /// `true` if threads take memory before some calls.
    is_scarce: bool,
}

impl Stress {
    /// Returns the stress that these words ask for, or `None`.
    pub(crate) fn of(words: &[String]) -> Option<Stress> {
        let (threads, rounds) = threads_of(words)?;
        let is_scarce = match words.get(4) {
            None => false,
            Some(word) if word.as_str() == "scarce" => true,
            Some(_) => return None,
        };
        Some(Stress {
            threads,
            rounds,
            is_scarce,
        })
    }
}

/// Runs the rounds, and returns how the transfers ended, or the first failure.
fn play<R: Threads + Wait + Sync>(
    rt: &R,
    alloc: Global,
    stress: Stress,
) -> Result<StressTally, Failure> {
    let mut tally = StressTally::new();
    for number in 0..stress.rounds {
        let kind = StressRound::of(stress.threads, stress.is_scarce, number);
        match round(rt, alloc, kind) {
            Ok(ended) => tally = tally.plus(ended),
            Err(failure) => return Err(failure.in_round(number)),
        }
    }
    Ok(tally)
}

/// Runs the rounds in another thread: the first thread's stack can't grow while all memory is
/// taken.
pub(crate) fn play_apart<R: Threads + Wait + Sync>(
    rt: &R,
    alloc: Global,
    stress: Stress,
) -> Result<StressTally, Failure> {
    let (ended, ()) = join(rt, || play(rt, alloc, stress), || ());
    ended
}
