//! Running a crew in threads.
ghost use Rattle.std.specs.Prelude.{◌≡◌, ◌++◌, IfOk, IfSome, option_to_list};
ghost use Rattle.inst_crew.specs.Crew.{MaySweep, IsSwept, IsTeamOf, HasWorked, AreBack};
ghost use Rattle.inst_crew.specs.inner.Workers.{HasHandAndTeller, AreReady, HasEndedShift, AllWork};

use crate::crew::Crew;
use crate::gathering::gather;
use crate::meeting::Meeting;
use crate::shift::{Shift, work};
use crate::sweep::sweep_if;
use crate::team::Team;
use crate::worker::{Roster, Worker, workers};
use crate::workplace::Workplace;
use inst_hub::{Gate, Teller};
use std::alloc::{AllocError, Global};
use std::sync::Wait;
use std::thread::{self, Threads};

/// Runs the workers, each in a thread.
fn work_all<R: Threads + Wait + Sync, G: Gate + Sync>(
    rt: &R,
    alloc: Global,
    place: &Workplace<G>,
    meeting: &Meeting,
    workers: Vec<Worker>,
) -> Result<Vec<Result<Shift, AllocError>>, AllocError>
    requires { AreReady place.now.hub.now place.now.desk.now workers.items }
    ensures all { IfOk result (λ all.
        AllWork place.now.hub.now place.now.desk.now workers.items all.items) }
{
    thread::map_vec(
        rt,
        workers,
        &|worker: Worker| -> Result<Shift, AllocError>
            requires { HasHandAndTeller place.now.hub.now place.now.desk.now worker }
            ensures { IfOk result
                (HasEndedShift place.entry.now.hub.now place.entry.now.desk.now worker) }
        { work(rt, alloc, place, meeting, worker) },
    )
}

/// Runs the workers, and the sweeper in addition.
fn start<R: Threads + Wait + Sync, G: Gate + Sync>(
    rt: &R,
    alloc: Global,
    place: &Workplace<G>,
    meeting: &Meeting,
    roster: Roster,
) -> (
    Result<Vec<Result<Shift, AllocError>>, AllocError>,
    Result<Option<Teller>, AllocError>,
)
    requires ready { AreReady place.now.hub.now place.now.desk.now roster.workers.items }
    requires sweep { IfSome roster.sweep (MaySweep place.now.hub.now) }
    ensures worked { IfOk result.0 (λ all.
        AllWork place.now.hub.now place.now.desk.now roster.workers.items all.items) }
    ensures swept { IfOk result.1 (IsSwept place.now.hub.now roster.sweep) }
{
    let Roster { workers, sweep } = roster;
    let hub = place.hub;
    let desk = place.desk;
    let gate = place.gate;
    thread::join(
        rt,
        move || -> Result<Vec<Result<Shift, AllocError>>, AllocError>
            requires { AreReady hub.now desk.now workers.items }
            ensures all { IfOk result (λ all.
                AllWork hub.entry.now desk.entry.now workers.items all.items) }
        {
            let place = Workplace { hub, desk, gate };
            work_all(rt, alloc, &place, meeting, workers)
        },
        move || -> Result<Option<Teller>, AllocError>
            requires { IfSome sweep (MaySweep hub.now) }
            ensures { IfOk result (IsSwept hub.entry.now sweep) }
        { sweep_if(rt, hub, meeting, sweep) },
    )
}

/// Appends the sweeper's teller to the crew's, if there is one.
fn with_sweeper(crew: Crew, teller: Option<Teller>) -> Result<Crew, AllocError>
    ensures tellers { IfOk result (λ all.
        all.tellers.items ≡ crew.tellers.items ++ option_to_list teller) }
    ensures hands { IfOk result (λ all. all.hands.items ≡ crew.hands.items) }
    ensures answered { IfOk result (λ all. all.answered ≡ crew.answered) }
    ensures states { IfOk result (λ all. all.states.items ≡ crew.states.items) }
{
    let mut crew = crew;
    if let Some(teller) = teller {
        crew.tellers.push(teller)?;
    }
    Ok(crew)
}

/// Runs a crew: a thread for each hand, with the teller at the same position, and one for the
/// sweep, if there is one. Returns when all have ended.
///
/// Each thread takes jobs and puts their asks to the hub until the desk is empty. A job whose ask
/// doesn't fit the hub is taken and skipped. After each answer with a ticket the thread peeks and
/// keeps the state. If a thread can't be started, a running one does its work.
///
/// Blocks until all threads have ended; they wait for locks.
///
/// # Errors
///
/// [`AllocError`] if a call or a list fails to allocate. The hands and tellers are dropped, so the
/// hub can't be closed; what was done before is kept in it.
pub fn run_crew<R: Threads + Wait + Sync, G: Gate + Sync>(
    rt: &R,
    alloc: Global,
    place: &Workplace<G>,
    team: Team,
) -> Result<Crew, AllocError>
    requires { IsTeamOf place.now.hub.now place.now.desk.now team }
    ensures worked { IfOk result (HasWorked place.now.hub.now place.now.desk.now team) }
    ensures back { IfOk result (AreBack place.now.hub.now place.now.desk.now team) }
{
    let Team {
        hands,
        tellers,
        sweep,
    } = team;
    let workers = workers(alloc, hands, tellers)?;
    let meeting = Meeting::new(&sweep);
    let roster = Roster { workers, sweep };
    let (worked, swept) = start(rt, alloc, place, &meeting, roster);
    let results = worked?;
    let crew = gather(alloc, results)?;
    let sweeper = swept?;
    let crew = with_sweeper(crew, sweeper)?;
    Ok(crew)
}
