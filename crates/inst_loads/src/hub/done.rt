//! The results of a round's threads.
ghost use Rattle.std.specs.Prelude.{List, IfOk};
ghost use Rattle.inst_hub.specs.declared.hub.Hub.{Hub};
ghost use Rattle.inst_loads.specs.declared.hub.job.HubJob.{HubJob};
ghost use Rattle.inst_loads.specs.Done.{AllAreDone};
ghost use Rattle.inst_loads.specs.Jobs.{AreStill};

use crate::flaw::Failure;
use crate::hub::job::HubJob;
use std::alloc::Global;

/// A job that is done, and what its thread found.
#[derive(Drop)]
pub(crate) struct Done<T: Drop> {
    pub(crate) job: HubJob,
    pub(crate) found: T,
}

/// Returns the jobs and what each thread found, or the first failure.
pub(crate) fn gather<T: Drop>(
    alloc: Global,
    results: Vec<Result<Done<T>, Failure>>,
) -> Result<(Vec<HubJob>, Vec<T>), Failure>
    ensures { IfOk result (λ r. (hub : Hub) (jobs : List HubJob) → AllAreDone hub jobs results.items →
        AreStill hub jobs r.0.items) }
{
    let mut jobs = Vec::new(alloc);
    let mut all = Vec::new(alloc);
    for result in results {
        let Done { job, found } = result?;
        jobs.push(job)?;
        all.push(found)?;
    }
    Ok((jobs, all))
}
