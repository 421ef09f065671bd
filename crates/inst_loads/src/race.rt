//! Two participants, each in its own thread, race for the outcomes of the same transfers.
mod acts;
mod explaining;
mod opening;
mod participant;
pub(crate) mod rounds;
pub(crate) mod rows;

use crate::race::explaining::are_explained;
use crate::race::opening::open;
use crate::race::participant::Racer;
use inst_base::{Cents, Fault, Ident, Moment};
use inst_command::{Command, Funding, Outcome, Place, Submission};
use std::alloc::Global;
use std::thread::{Threads, join_mut};

/// The number of transfers.
const TRANSFERS: u16 = 200;

/// The amount of each transfer, in cents.
const CENTS: u64 = 100;

/// The funding of the originator, in cents.
const FUNDS: u64 = 20_000;

/// The time stamp of all transfers, and the clock reading of their submission, in milliseconds.
const STAMP: u64 = 1_000;

/// The deadline of all transfers, in milliseconds.
const DEADLINE: u64 = 11_000;

/// The result of a race.
#[derive(Clone, Copy)]
pub(crate) struct Finish {
    /// How many outcomes the originator's expiries booked.
    expired: u16,
    /// How many transfers are accepted in both books.
    pub(crate) accepted: u16,
    /// How many transfers timed out in both books.
    pub(crate) timed_out: u16,
    /// The sum of both positions, in cents.
    sum: u128,
    /// `true` if steps in one thread were found that leave the books.
    is_explained: bool,
}

impl Finish {
    /// Returns the result of the race between the first two participants, given how many expiries
    /// booked an outcome.
    fn of(alloc: Global, hub: &[Racer], expired: u16) -> Result<Finish, Fault> {
        let [first, second, ..] = hub else {
            return Err(Fault::BadSettings);
        };
        let (accepted, timed_out) = outcomes(alloc, first, second)?;
        Ok(Finish {
            expired,
            accepted,
            timed_out,
            sum: sum(first, second),
            is_explained: are_explained(alloc, hub)?,
        })
    }

    /// Returns `true` if each expiry booked an outcome, both books have the same outcome of each
    /// transfer, the positions sum to the funding, and the books are explained.
    pub(crate) fn is_whole(&self) -> bool {
        self.expired == TRANSFERS
            && self.accepted.checked_add(self.timed_out) == Some(TRANSFERS)
            && self.sum == u128::from(FUNDS)
            && self.is_explained
    }
}

/// Returns the identifier of the transfer with this index.
fn name(alloc: Global, index: u16) -> Result<Ident, Fault> {
    let text = format!(in alloc; "T{index}")?;
    Ident::new(text.as_str())
}

/// Funds the originator, submits all transfers and delivers each.
fn submit_all(alloc: Global, first: &mut Racer, second: &mut Racer) -> Result<(), Fault> {
    let at = Moment::new(0, STAMP)?;
    let fund = Command::Fund(Funding {
        reference: Ident::new("F1")?,
        cents: Cents::new(FUNDS)?,
    });
    first.does(fund, at)?;
    for index in 0..TRANSFERS {
        let submission = Submission {
            id: name(alloc, index)?,
            to: 1,
            cents: Cents::new(CENTS)?,
            stamp: at,
        };
        first.does(Command::Submit(submission), at)?;
        second.deliver(Place { owner: 0, index })?;
    }
    Ok(())
}

/// Lets the beneficiary confirm all transfers.
fn confirm_all(alloc: Global, second: &mut Racer, at: Moment) -> Result<(), Fault> {
    for index in 0..TRANSFERS {
        let id = name(alloc, index)?;
        second.does(Command::Confirm { from: 0, id }, at)?;
    }
    Ok(())
}

/// Lets the originator expire all transfers, and counts the booked outcomes.
fn expire_all(first: &mut Racer, at: Moment) -> Result<u16, Fault> {
    let mut expired = 0;
    for index in 0..TRANSFERS {
        if first.expire(index, at)? {
            expired += 1;
        }
    }
    Ok(expired)
}

/// Counts the transfers that are accepted in both books, and those that timed out in both.
fn outcomes(alloc: Global, first: &Racer, second: &Racer) -> Result<(u16, u16), Fault> {
    let mut accepted = 0u16;
    let mut timed_out = 0u16;
    for index in 0..TRANSFERS {
        let id = name(alloc, index)?;
        let booked = first.journal().booked(0, &id);
        if booked == second.journal().booked(0, &id) {
            match booked {
                Some(Outcome::Accepted) => accepted = accepted.saturating_add(1),
                Some(Outcome::TimedOut) => timed_out = timed_out.saturating_add(1),
                _ => {}
            }
        }
    }
    Ok((accepted, timed_out))
}

/// Returns the sum of both positions, in cents.
fn sum(first: &Racer, second: &Racer) -> u128 {
    let first = first.journal().position();
    first.saturating_add(second.journal().position())
}

/// Runs the race for pending transfers, and returns how many expiries booked an outcome.
fn run<R: Threads + Sync>(
    rt: &R,
    alloc: Global,
    first: &mut Racer,
    second: &mut Racer,
    margin: u32,
) -> Result<u16, Fault> {
    let deadline = Moment::new(0, DEADLINE)?;
    let last = Moment::new(0, DEADLINE.saturating_sub(u64::from(margin) + 1))?;
    let (expired, confirmed) = join_mut(
        rt,
        &mut || expire_all(first, deadline),
        &mut || confirm_all(alloc, second, last),
    );
    confirmed?;
    expired
}

/// Runs a race: the beneficiary confirms all transfers at the last moment in time, while the
/// originator lets them expire at their deadline. The last moment is `margin` + 1 milliseconds
/// before the deadline.
pub(crate) fn race<R: Threads + Sync>(rt: &R, alloc: Global, margin: u32) -> Result<Finish, Fault> {
    let mut hub = open(alloc, 256, margin)?;
    let [first, second, ..] = hub.as_mut_slice() else {
        return Err(Fault::BadSettings);
    };
    submit_all(alloc, first, second)?;
    let expired = run(rt, alloc, first, second, margin)?;
    Finish::of(alloc, &hub, expired)
}
