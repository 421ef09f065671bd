//! Meetings of the tellers, and what they see, after the threads have ended.
ghost use Rattle.inst_hub.specs.declared.hub.Hub.{Hub};
ghost use Rattle.inst_hub.specs.Calls.{IsTellerOf};
ghost use Rattle.inst_loads.specs.Jobs.{AreJobsOf, AreStill, IsStill};

use crate::flaw::{Failure, Flaw};
use crate::hub::job::HubJob;
use crate::stress::acting::peek_at;
use crate::stress::sights::{ALL_PLACES, Sights, ToldTransfer, place_of};
use inst_hub::{Hub, Teller};

/// Lets the teller meet each job's teller.
pub(crate) fn meet_all(hub: &Hub, teller: &mut Teller, jobs: &mut [HubJob])
    requires { IsTellerOf hub.now teller.old × AreJobsOf hub.now jobs.old }
    ensures { IsStill hub.now teller.old teller.new × AreStill hub.now jobs.old jobs.new }
{
    for job in jobs.iter_mut() {
        hub.meet(teller, &mut job.teller);
    }
}

/// Lets the teller peek at every noted transfer.
pub(crate) fn peek_all(teller: &mut Teller, sights: &mut Sights) -> Result<(), Flaw>
    ensures { (hub : Hub) → IsTellerOf hub teller.old → IsStill hub teller.old teller.new }
{
    for number in 0..ALL_PLACES {
        peek_at(teller, sights, place_of(number))?;
    }
    Ok(())
}

/// Returns `true` if the teller sees the noted state.
fn sees_so(teller: &mut Teller, slot: &Option<ToldTransfer>) -> bool
    ensures { (hub : Hub) → IsTellerOf hub teller.old → IsStill hub teller.old teller.new }
{
    match slot {
        Some(sight) => teller.peek(&sight.ticket) == sight.state,
        None => true,
    }
}

/// Returns `true` if the teller sees the noted state of each transfer.
fn sees_all_so(teller: &mut Teller, sights: &Sights) -> bool
    ensures { (hub : Hub) → IsTellerOf hub teller.old → IsStill hub teller.old teller.new }
{
    for slot in sights.places() {
        if !sees_so(teller, slot) {
            return false;
        }
    }
    true
}

/// Checks that each job's teller sees the noted state of each transfer.
pub(crate) fn agree(jobs: &mut [HubJob], sights: &Sights) -> Result<(), Failure>
    ensures { (hub : Hub) → AreJobsOf hub jobs.old → AreStill hub jobs.old jobs.new }
{
    for job in jobs.iter_mut() {
        if !sees_all_so(&mut job.teller, sights) {
            return Err(Flaw::TellersDiffer.of(job.thread));
        }
    }
    Ok(())
}
