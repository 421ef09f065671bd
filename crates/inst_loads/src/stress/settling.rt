//! Calls after the threads have ended: everything is fetched, and every transfer is decided.
ghost use Rattle.inst_hub.specs.Calls.{IsTellerOf};
ghost use Rattle.inst_loads.specs.Jobs.{IsStill};

use crate::flaw::Flaw;
use crate::stress::acting::{ask_so, sweep};
use crate::stress::sights::{ALL_PLACES, Sights, place_of};
use crate::stress::stress_round::StressRound;
use crate::stress::transfer::PARTICIPANTS;
use inst_base::{Fault, Moment};
use inst_command::{Ask, Command, Place, State};
use inst_hub::{Hub, Teller};
use std::sync::Wait;

/// A clock reading after all deadlines, in milliseconds.
const LATE: u64 = 1_000_000;

/// The number of fetches that return all that a participant can have received.
const FETCHES: u16 = 2;

fn late(who: u8, command: Command) -> Result<Ask, Fault> {
    Ok(Ask {
        who,
        command,
        at: Moment::new(0, LATE)?,
    })
}

/// Returns the originator's investigation of the place's transfer, if it is pending.
fn question(sights: &Sights, place: Place) -> Result<Option<Ask>, Fault> {
    match sights.at(place) {
        Some(sight) if sight.state == State::Pending => {
            Ok(Some(late(place.owner, Command::Investigate { id: sight.id })?))
        }
        _ => Ok(None),
    }
}

/// Lets the originator of each pending transfer investigate it after the deadline, so that it times
/// out and both sides learn it.
pub(crate) fn settle<R: Wait>(
    rt: &R,
    hub: &Hub,
    teller: &mut Teller,
    sights: &mut Sights,
) -> Result<(), Flaw>
    requires { IsTellerOf hub.now teller.old }
    ensures { IsStill hub.now teller.old teller.new }
{
    for number in 0..ALL_PLACES {
        if let Some(ask) = question(sights, place_of(number))? {
            ask_so(rt, hub, teller, sights, &ask)?;
        }
    }
    Ok(())
}

/// Sweeps each participant at this clock reading in milliseconds, and returns how many events were
/// stored.
fn sweep_each<R: Wait>(rt: &R, hub: &Hub, teller: &mut Teller, at: u64) -> Result<u32, Flaw>
    requires { IsTellerOf hub.now teller.old }
    ensures { IsStill hub.now teller.old teller.new }
{
    let mut count = 0u32;
    for who in 0..PARTICIPANTS {
        let new = sweep(rt, hub, teller, who as u8, Moment::new(0, at)?)?;
        count = count.saturating_add(new);
    }
    Ok(count)
}

/// In a round with allocation failures, sweeps each participant at clock reading 0, at which
/// nothing is due. This makes up for the follow-ups that failed to allocate.
pub(crate) fn bring_all<R: Wait>(
    rt: &R,
    hub: &Hub,
    teller: &mut Teller,
    round: StressRound,
) -> Result<(), Flaw>
    requires { IsTellerOf hub.now teller.old }
    ensures { IsStill hub.now teller.old teller.new }
{
    if round.is_scarce {
        sweep_each(rt, hub, teller, 0)?;
    }
    Ok(())
}

/// Sweeps each participant twice; the second time finds nothing new. A call does the follow-up at
/// the other side, a sweep doesn't. So in a round without sweeps and allocation failures the first
/// time finds nothing new either.
pub(crate) fn sweep_all<R: Wait>(
    rt: &R,
    hub: &Hub,
    teller: &mut Teller,
    round: StressRound,
) -> Result<(), Flaw>
    requires { IsTellerOf hub.now teller.old }
    ensures { IsStill hub.now teller.old teller.new }
{
    let untold = sweep_each(rt, hub, teller, LATE)?;
    if !round.sweeps && !round.is_scarce && untold != 0 {
        return Err(Flaw::NotTold);
    }
    if sweep_each(rt, hub, teller, LATE)? != 0 {
        return Err(Flaw::StillNew);
    }
    Ok(())
}

/// Lets each participant fetch all that it hasn't fetched yet.
pub(crate) fn fetch_all<R: Wait>(
    rt: &R,
    hub: &Hub,
    teller: &mut Teller,
    sights: &mut Sights,
) -> Result<(), Flaw>
    requires { IsTellerOf hub.now teller.old }
    ensures { IsStill hub.now teller.old teller.new }
{
    for number in 0..PARTICIPANTS * FETCHES {
        let who = (number / FETCHES) as u8;
        let ask = late(who, Command::Fetch { max: 100 })?;
        ask_so(rt, hub, teller, sights, &ask)?;
    }
    Ok(())
}
