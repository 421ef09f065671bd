//! The threads of a stress, each with one teller.
ghost use Rattle.std.specs.Prelude.{IfOk};
ghost use Rattle.inst_hub.specs.Calls.{IsTellerOf};
ghost use Rattle.inst_loads.specs.Done.{AllAreDone};
ghost use Rattle.inst_loads.specs.Jobs.{AreJobsOf, AreStill, IsStill};

use crate::flaw::{Failure, Flaw};
use crate::hoard::Hoard;
use crate::hub::done::{Done, gather};
use crate::hub::job::HubJob;
use crate::stress::acting::act_so;
use crate::stress::chooser::{Chooser, STEPS};
use crate::stress::pace::Pace;
use crate::stress::sights::Sights;
use crate::stress::stress_round::StressRound;
use inst_hub::{Hub, Teller};
use std::alloc::{AllocError, Global};
use std::sync::Wait;
use std::thread::{self, Threads};

/// What the teller of a thread noted.
#[derive(Drop)]
struct RaceReply {
    sights: Sights,
    /// Kept until all threads are done; other threads would take the memory if it were freed
    /// earlier.
    hoard: Option<Hoard>,
}

/// Waits for the other threads at the steps at which all threads wait.
fn keep_pace(chooser: &Chooser, pace: &Pace) {
    if let Some(arrivals) = chooser.arrivals() {
        pace.wait(arrivals);
    }
}

/// Makes the chosen call, with little memory left if that is chosen and there is a hoard.
fn take_step<R: Wait>(
    rt: &R,
    alloc: Global,
    hub: &Hub,
    teller: &mut Teller,
    chooser: &mut Chooser,
    hoard: &mut Option<Hoard>,
    sights: &mut Sights,
) -> Result<(), Flaw>
    requires { IsTellerOf hub.now teller.old }
    ensures { IsStill hub.now teller.old teller.new }
{
    let choice = chooser.choose(alloc)?;
    match (chooser.bytes_left(), hoard) {
        (Some(bytes), Some(hoard)) => {
            // If other threads have part of this memory, less is left.
            let _ = hoard.leave(bytes);
            let ended = act_so(rt, hub, teller, sights, &choice);
            hoard.give_back();
            ended
        }
        _ => act_so(rt, hub, teller, sights, &choice),
    }
}

/// Makes the chosen calls. In a round with allocation failures, a call that fails to allocate is
/// counted.
fn take_steps<R: Wait>(
    rt: &R,
    alloc: Global,
    hub: &Hub,
    teller: &mut Teller,
    chooser: Chooser,
    pace: &Pace,
) -> Result<RaceReply, Flaw>
    requires { IsTellerOf hub.now teller.old }
    ensures { IsStill hub.now teller.old teller.new }
{
    let mut chooser = chooser;
    let is_scarce = chooser.round.is_scarce;
    let mut sights = Sights::new(alloc)?;
    // Now all threads have their stacks, and one may take the memory.
    keep_pace(&chooser, pace);
    let mut hoard = if is_scarce { Hoard::new(alloc) } else { None };
    for _step in 0..STEPS {
        let ended = take_step(
            rt,
            alloc,
            hub,
            teller,
            &mut chooser,
            &mut hoard,
            &mut sights,
        );
        let ended = if is_scarce {
            sights.pass_refused(ended)
        } else {
            ended
        };
        ended?;
        keep_pace(&chooser, pace);
    }
    Ok(RaceReply { sights, hoard })
}

/// Does the job of a thread.
fn work<R: Wait>(
    rt: &R,
    alloc: Global,
    hub: &Hub,
    round: StressRound,
    pace: &Pace,
    job: HubJob,
) -> Result<Done<RaceReply>, Failure>
    requires { IsTellerOf hub.now job.teller }
    ensures { IfOk result (λ done. IsStill hub.now job.teller done.job.teller) }
{
    let HubJob { mut teller, thread } = job;
    let chooser = Chooser::new(round, thread);
    match take_steps(rt, alloc, hub, &mut teller, chooser, pace) {
        Ok(found) => Ok(Done {
            job: HubJob { teller, thread },
            found,
        }),
        Err(flaw) => Err(flaw.of(thread)),
    }
}

/// Does each job in its own thread.
fn work_all<R: Threads + Wait + Sync>(
    rt: &R,
    alloc: Global,
    hub: &Hub,
    round: StressRound,
    pace: &Pace,
    jobs: Vec<HubJob>,
) -> Result<Vec<Result<Done<RaceReply>, Failure>>, AllocError>
    requires { AreJobsOf hub.now jobs.items }
    ensures { IfOk result (λ all. AllAreDone hub.now jobs.items all.items) }
{
    thread::map_vec(
        rt,
        jobs,
        &|job: HubJob| -> Result<Done<RaceReply>, Failure>
            requires { IsTellerOf hub.now job.teller }
            ensures { IfOk result (λ done. IsStill hub.entry.now job.teller done.job.teller) }
        { work(rt, alloc, hub, round, pace, job) },
    )
}

/// Merges what all tellers noted.
fn add_all(alloc: Global, all: Vec<RaceReply>) -> Result<Sights, Flaw> {
    let mut sights = Sights::new(alloc)?;
    for told in all {
        sights.add(&told.sights)?;
    }
    Ok(sights)
}

/// Does the jobs, and merges what their tellers noted.
pub(crate) fn run<R: Threads + Wait + Sync>(
    rt: &R,
    alloc: Global,
    hub: &Hub,
    round: StressRound,
    jobs: Vec<HubJob>,
) -> Result<(Vec<HubJob>, Sights), Failure>
    requires { AreJobsOf hub.now jobs.items }
    ensures { IfOk result (λ r. AreStill hub.now jobs.items r.0.items) }
{
    let pace = Pace::new();
    let results = work_all(rt, alloc, hub, round, &pace, jobs)?;
    let (jobs, all) = gather(alloc, results)?;
    let sights = add_all(alloc, all)?;
    Ok((jobs, sights))
}
