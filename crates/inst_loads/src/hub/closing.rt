//! Closes a hub and explains its books.
ghost use Rattle.std.specs.Prelude.{◌≡◌, ◌∷◌, [], ◌++◌, IfOk, map};
ghost use Rattle.inst_model.specs.Opening.{Opening};
ghost use Rattle.inst_hub.specs.Calls.{IsTellerOf};
ghost use Rattle.inst_close.specs.Closing.{IsOpenedSo};
ghost use Rattle.inst_loads.specs.Jobs.{AreJobsOf, HaveAll};

use crate::flaw::Flaw;
use crate::hub::job::HubJob;
use inst_base::Fault;
use inst_close::close;
use inst_hub::{Hub, Teller};
use std::alloc::{AllocFailed, Global};

/// Returns the jobs' tellers, followed by `teller`.
fn tellers_of(
    alloc: Global,
    jobs: Vec<HubJob>,
    teller: Teller,
) -> Result<Vec<Teller>, AllocFailed<Teller>>
    ensures { IfOk result (λ tellers.
        tellers.items ≡ map (λ job. job.teller) jobs.items ++ teller ∷ []) }
{
    let mut tellers = Vec::new(alloc);
    for job in jobs {
        tellers.push(job.teller)?;
    }
    tellers.push(teller)?;
    Ok(tellers)
}

/// Closes the hub, and looks for steps of a hub in one thread that leave the same books. Fails with
/// `NoInterleaving` if none are found.
pub(crate) fn close_and_explain(
    alloc: Global,
    hub: Hub,
    jobs: Vec<HubJob>,
    teller: Teller,
) -> Result<(), Flaw>
    requires of { IsTellerOf hub teller × AreJobsOf hub jobs.items }
    requires parts { HaveAll teller jobs.items }
    requires opened { (O : Opening) × IsOpenedSo O hub }
{
    let tellers = tellers_of(alloc, jobs, teller)?;
    match close(alloc, hub, tellers) {
        Ok(books) => match books.interleaving(alloc)? {
            Some(_) => Ok(()),
            None => Err(Flaw::NoInterleaving),
        },
        Err(_) => Err(Flaw::Refused(Fault::Memory)),
    }
}
