//! Rounds of a load, each at a new hub.
ghost use Rattle.std.specs.Prelude.{IfOk};
ghost use Rattle.inst_hub.specs.Calls.{IsTellerOf};
ghost use Rattle.inst_loads.specs.Done.{AllAreDone};
ghost use Rattle.inst_loads.specs.Jobs.{AreJobsOf, AreStill, IsStill};

use crate::flaw::{Failure, Flaw, check_sum};
use crate::hub::asking::{ask_money, fund_all, settle};
use crate::hub::closing::close_and_explain;
use crate::hub::done::{Done, gather};
use crate::hub::job::{HubJob, jobs, last};
use crate::hub::opening::{Size, open};
use crate::load::{FUNDS, Load, PARTICIPANTS, PLACES};
use inst_base::Fault;
use inst_hub::{Hub, Teller};
use std::alloc::{AllocError, Global};
use std::sync::Wait;
use std::thread::{self, Threads};

const SIZE: Size = Size {
    participants: PARTICIPANTS,
    places: PLACES,
    margin: 0,
};

/// Submits and confirms the thread's share, and counts the accepted transfers.
fn share<R: Wait>(
    rt: &R,
    alloc: Global,
    hub: &Hub,
    load: Load,
    job: HubJob,
) -> Result<Done<u32>, Failure>
    requires { IsTellerOf hub.now job.teller }
    ensures { IfOk result (λ done. IsStill hub.now job.teller done.job.teller) }
{
    let HubJob { mut teller, thread } = job;
    let mut settled = 0u32;
    for number in 0..load.share {
        let pair = load.pair(thread, number);
        match settle(rt, alloc, hub, &mut teller, pair, (thread, number)) {
            Ok(is_settled) => settled = settled.saturating_add(u32::from(is_settled)),
            Err(fault) => return Err(Flaw::Refused(fault).of(thread)),
        }
    }
    Ok(Done {
        job: HubJob { teller, thread },
        found: settled,
    })
}

/// Returns the sum of all positions, in cents.
fn sum<R: Wait>(rt: &R, hub: &Hub, teller: &mut Teller) -> Result<u64, Fault>
    requires { IsTellerOf hub.now teller.old }
    ensures { IsStill hub.now teller.old teller.new }
{
    let mut sum = 0u64;
    for who in 0..PARTICIPANTS {
        sum = sum.saturating_add(ask_money(rt, hub, teller, who as u8)?.position);
    }
    Ok(sum)
}

/// Does each job in its own thread.
fn share_all<R: Threads + Wait + Sync>(
    rt: &R,
    alloc: Global,
    hub: &Hub,
    load: Load,
    jobs: Vec<HubJob>,
) -> Result<Vec<Result<Done<u32>, Failure>>, AllocError>
    requires { AreJobsOf hub.now jobs.items }
    ensures { IfOk result (λ all. AllAreDone hub.now jobs.items all.items) }
{
    thread::map_vec(
        rt,
        jobs,
        &|job: HubJob| -> Result<Done<u32>, Failure>
            requires { IsTellerOf hub.now job.teller }
            ensures { IfOk result (λ done. IsStill hub.entry.now job.teller done.job.teller) }
        { share(rt, alloc, hub, load, job) },
    )
}

/// Runs the jobs, and returns how many transfers were accepted.
fn run<R: Threads + Wait + Sync>(
    rt: &R,
    alloc: Global,
    hub: &Hub,
    load: Load,
    jobs: Vec<HubJob>,
) -> Result<(u32, Vec<HubJob>), Failure>
    requires { AreJobsOf hub.now jobs.items }
    ensures { IfOk result (λ r. AreStill hub.now jobs.items r.1.items) }
{
    let results = share_all(rt, alloc, hub, load, jobs)?;
    let (jobs, counts) = gather(alloc, results)?;
    let mut settled = 0u32;
    for count in counts {
        settled = settled.saturating_add(count);
    }
    Ok((settled, jobs))
}

/// Checks that all transfers were accepted and the positions sum to the funding.
fn check_round<R: Wait>(
    rt: &R,
    hub: &Hub,
    teller: &mut Teller,
    load: Load,
    settled: u32,
) -> Result<(), Flaw>
    requires { IsTellerOf hub.now teller.old }
    ensures { IsStill hub.now teller.old teller.new }
{
    let transfers = load.transfers();
    if settled != transfers {
        return Err(Flaw::NotAllSettled { settled, transfers });
    }
    let positions = sum(rt, hub, teller)?;
    check_sum(positions, FUNDS * u64::from(PARTICIPANTS))
}

/// Runs a round with these jobs, and returns how many transfers were accepted.
fn settle_all<R: Threads + Wait + Sync>(
    rt: &R,
    alloc: Global,
    hub: &Hub,
    teller: &mut Teller,
    jobs: Vec<HubJob>,
    load: Load,
) -> Result<(u32, Vec<HubJob>), Failure>
    requires { IsTellerOf hub.now teller.old × AreJobsOf hub.now jobs.items }
    ensures { IfOk result (λ r. IsStill hub.now teller.old teller.new
        × AreStill hub.now jobs.items r.1.items) }
{
    fund_all(rt, hub, teller, PARTICIPANTS, FUNDS)?;
    let (settled, jobs) = run(rt, alloc, hub, load, jobs)?;
    check_round(rt, hub, teller, load, settled)?;
    Ok((settled, jobs))
}

/// Runs a round at a new hub, and returns how many transfers were accepted. Fails if not all were,
/// the positions don't sum to the funding, or no steps in one thread are found that leave the
/// books; the last isn't checked if the hub is left open.
fn round<R: Threads + Wait + Sync>(rt: &R, alloc: Global, load: Load) -> Result<u32, Failure> {
    let (hub, mut tellers) = open(alloc, SIZE, load.threads)?;
    let mut teller = last(&hub, &mut tellers)?;
    let jobs = jobs(alloc, &hub, tellers)?;
    let (settled, jobs) = settle_all(rt, alloc, &hub, &mut teller, jobs, load)?;
    if !load.is_left_open {
        close_and_explain(alloc, hub, jobs, teller)?;
    }
    Ok(settled)
}

/// Runs the rounds, and returns how many transfers were accepted, or the first failure.
pub(crate) fn rounds<R: Threads + Wait + Sync>(
    rt: &R,
    alloc: Global,
    load: Load,
    count: u32,
) -> Result<u64, Failure> {
    let mut settled = 0u64;
    for number in 0..count {
        match round(rt, alloc, load) {
            Ok(accepted) => settled = settled.saturating_add(u64::from(accepted)),
            Err(failure) => return Err(failure.in_round(number)),
        }
    }
    Ok(settled)
}
