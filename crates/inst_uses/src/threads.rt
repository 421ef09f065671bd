//! The hub for many threads, with its desk, crew, closing and drill.
ghost use Rattle.std.specs.Prelude.{◌≡◌, ◌<◌, true, length};
ghost use Rattle.inst_command.specs.Ask.{ask_fits};
ghost use Rattle.inst_model.specs.Opening.{Opening};
ghost use Rattle.inst_cell.specs.Held.{AtOneTable};
ghost use Rattle.inst_cell.specs.Seen.{board_of_sight};
ghost use Rattle.inst_participant.specs.LockLaw.{IsReady};
ghost use Rattle.inst_participant.specs.Apart.{IsPartsOf};
ghost use Rattle.inst_hub.specs.Calls.{IsTellerOf, AreOf};
ghost use Rattle.inst_hub.specs.Opening.{HaveAllParts};
ghost use Rattle.inst_close.specs.Closing.{IsOpenedSo};
ghost use Rattle.inst_desk.specs.Desk.{IsHandOf, AreHandsOf};

use inst_base::Fault;
use inst_cell::Sight;
use inst_close::{Books, CloseFault, close};
use inst_command::{Ask, Reply, State};
use inst_crew::{Crew, Team, Workplace, run_crew};
use inst_desk::{Desk, Hand, Job};
use inst_drill::{DrillError, DrillRequest, DrillResult, drill};
use inst_hub::{Hub, Participant, Teller, Ungated};
use inst_participant::Parts;
use inst_settings::Settings;
use std::alloc::{AllocError, Global};
use std::io::Write;
use std::sync::Wait;
use std::thread::Threads;

/// Answers an ask, and returns the state of its transfer.
pub fn hub<R: Wait>(
    rt: &R,
    hub: &Hub,
    teller: &mut Teller,
    ask: &Ask,
) -> Result<(Reply, Option<State>), AllocError>
    requires of { IsTellerOf hub.now teller.old }
    requires fits { ask_fits hub.now.settings ask.now ≡ true }
{
    let (reply, ticket) = hub.call(rt, teller, ask)?; // may wait for two locks, one after the other
    let Some(ticket) = ticket else {
        return Ok((reply, None)); // the reply concerns no live transfer
    };
    let state = teller.peek(&ticket); // takes no lock
    Ok((reply, Some(state)))
}

/// Answers an ask behind one lock, and sweeps.
pub fn participant(
    participant: &mut Participant,
    sight: &mut Sight,
    ask: &Ask,
) -> Result<(Reply, u32), AllocError>
    requires ready { IsReady participant.old }
    requires own { ask.now.who ≡ participant.old.slot.who }
    requires fits { ask_fits participant.old.slot.settings ask.now ≡ true }
    requires one { AtOneTable participant.old.board (board_of_sight sight.old) }
{
    let (reply, _ticket) = participant.serve(sight, ask)?; // the slot's reply
    let news = participant.sweep(ask.at)?; // how many events were stored
    Ok((reply, news))
}

/// Settles the parts of a hub, so that its books can be closed.
pub fn parts(parts: &mut Parts) -> Result<(), AllocError>
    requires { (O : Opening) × IsPartsOf O parts.old }
{
    parts.settle_all()?; // now the books are closed
    Ok(())
}

/// Closes a hub; returns its books and the sum of all positions.
pub fn closed(alloc: Global, hub: Hub, tellers: Vec<Teller>) -> Result<(Books, u128), CloseFault>
    requires of { AreOf hub tellers.items }
    requires parts { HaveAllParts tellers.items }
    requires opened { (O : Opening) × IsOpenedSo O hub }
{
    let books = close(alloc, hub, tellers)?; // an error has what is left, to be closed again
    let sum = books.sum(); // the net funding of all participants
    Ok((books, sum))
}

/// Opens a hub for the next opening, with four tellers.
pub fn opened_again(alloc: Global, books: &Books) -> Result<(Hub, Vec<Teller>), Fault> {
    books.open_next(alloc, 4)
}

/// Puts a job on a desk and takes one.
pub fn desk<R: Wait>(rt: &R, desk: &Desk, hand: &mut Hand, job: Job) -> Option<Job>
    requires { IsHandOf desk.now hand.old }
{
    match desk.put(rt, hand, job) {
        Ok(()) => desk.take(rt, hand), // the oldest job
        Err(job) => Some(job), // the desk is full: the same job is returned
    }
}

/// Runs a crew until a desk is empty.
pub fn crew<R: Threads + Wait + Sync>(
    rt: &R,
    alloc: Global,
    hub: &Hub,
    desk: &Desk,
    hands: Vec<Hand>,
    tellers: Vec<Teller>,
) -> Result<Crew, AllocError>
    requires some { 0 < length hands.items }
    requires each { length tellers.items ≡ length hands.items }
    requires hands { AreHandsOf desk.now hands.items }
    requires tellers { AreOf hub.now tellers.items }
{
    let place = Workplace {
        hub,
        desk,
        gate: &Ungated, // no callback inside the locks
    };
    // One thread for each hand and teller, and no sweeper.
    let team = Team {
        hands,
        tellers,
        sweep: None,
    };
    let crew = run_crew(rt, alloc, &place, team)?;
    Ok(crew) // the answered jobs, what was seen, the hands and the tellers
}

/// Drills a hub in two openings of 200 transfers each.
pub fn drilled<R: Threads + Wait + Sync, W: Write>(
    rt: &R,
    alloc: Global,
    settings: Settings,
    writer: &mut W,
) -> Result<DrillResult, DrillError> {
    let request = DrillRequest {
        settings,
        transfers: 200,
        openings: 2,
        gate: &Ungated, // no callback inside the locks
        is_watched: false,
    };
    let mut told = Vec::new(alloc); // gets the counts of accepted and timed-out transfers
    drill(rt, alloc, &request, writer, &mut told) // the writer gets eight lines
}
