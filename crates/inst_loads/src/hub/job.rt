//! The jobs of a round's threads.
ghost use Rattle.std.specs.Prelude.{◌≡◌, ◌+◌, IfOk};
ghost use Rattle.inst_hub.specs.Calls.{IsTellerOf, AreOf};
ghost use Rattle.inst_hub.specs.Opening.{row_parts};
ghost use Rattle.inst_loads.specs.Jobs.{AreJobsOf, parts_of_jobs, parts_of_one};

use inst_base::Fault;
use inst_hub::{Hub, Teller};
use std::alloc::Global;

/// A thread's teller and number.
#[derive(Drop)]
pub(crate) struct HubJob {
    pub(crate) teller: Teller,
    pub(crate) thread: u8,
}

/// Takes the last teller out.
pub(crate) fn last(hub: &Hub, tellers: &mut Vec<Teller>) -> Result<Teller, Fault>
    requires { AreOf hub.now tellers.old.items }
    ensures last { IfOk result (λ teller. IsTellerOf hub.now teller) }
    ensures rest { AreOf hub.now tellers.new.items }
    ensures parts { IfOk result (λ teller.
        row_parts tellers.new.items + parts_of_one teller ≡ row_parts tellers.old.items) }
{
    match tellers.pop() {
        Some(teller) => Ok(teller),
        None => Err(Fault::BadSettings),
    }
}

/// Makes a job of each teller; the threads are numbered from 0.
pub(crate) fn jobs(alloc: Global, hub: &Hub, tellers: Vec<Teller>) -> Result<Vec<HubJob>, Fault>
    requires { AreOf hub.now tellers.items }
    ensures of { IfOk result (λ jobs. AreJobsOf hub.now jobs.items) }
    ensures parts { IfOk result (λ jobs. parts_of_jobs jobs.items ≡ row_parts tellers.items) }
{
    let mut jobs = Vec::new(alloc);
    let mut thread = 0u8;
    for teller in tellers {
        jobs.push(HubJob { teller, thread })?;
        thread = thread.saturating_add(1);
    }
    Ok(jobs)
}
