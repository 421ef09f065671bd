//! Compares each participant's position with the outcomes of the transfers and with its statement.
ghost use Rattle.inst_hub.specs.Calls.{IsTellerOf};
ghost use Rattle.inst_loads.specs.Jobs.{IsStill};

use crate::flaw::{Flaw, check_sum};
use crate::hub::asking::{ask, ask_money};
use crate::stress::sights::{Sights, ToldTransfer};
use crate::stress::transfer::{FUNDS, PARTICIPANTS};
use inst_command::{Command, Line, LineKind, Outcome, Query, Reply, State};
use inst_hub::{Hub, Teller};
use std::sync::Wait;

/// The number of pages that have all lines of a participant: one line for its funding, and at most
/// one for each transfer of the hub.
const PAGES: u16 = 3;

/// The most lines of a page.
const PAGE: u32 = 100;

/// The amounts that a participant received and paid, in cents.
#[derive(Clone, Copy)]
struct Turnover {
    received: u64,
    paid: u64,
}

impl Turnover {
    /// Adds this transfer, if it was accepted. Fails with `NoTicket` if no teller knows its amount.
    fn with(self, who: u8, sight: &ToldTransfer) -> Result<Turnover, Flaw> {
        if sight.state != State::Decided(Outcome::Accepted) {
            return Ok(self);
        }
        let (to, cents) = sight.contents.ok_or(Flaw::NoTicket)?;
        let mut turnover = self;
        if to == who {
            turnover.received = turnover.received.saturating_add(cents);
        }
        if sight.ticket.place().owner == who {
            turnover.paid = turnover.paid.saturating_add(cents);
        }
        Ok(turnover)
    }
}

/// Returns the participant's funding, with what it received and less what it paid.
fn expected(who: u8, sights: &Sights) -> Result<u64, Flaw> {
    let mut turnover = Turnover {
        received: 0,
        paid: 0,
    };
    for slot in sights.places() {
        if let Some(sight) = slot {
            turnover = turnover.with(who, sight)?;
        }
    }
    let credit = FUNDS.saturating_add(turnover.received);
    Ok(credit.saturating_sub(turnover.paid))
}

/// The balance after some lines of a statement.
#[derive(Clone, Copy)]
struct RunningBalance {
    /// The number of these lines.
    lines: u32,
    position: u64,
}

impl RunningBalance {
    /// Returns the balance after one more line, which must have the next number and the right
    /// position.
    fn after_line(self, line: &Line) -> Result<RunningBalance, Flaw> {
        let cents = line.cents.get();
        let position = match line.kind {
            LineKind::Funded | LineKind::Received => self.position.checked_add(cents),
            LineKind::Defunded | LineKind::Paid => self.position.checked_sub(cents),
        };
        let lines = self.lines.saturating_add(1);
        if position != Some(line.position) || line.number != lines {
            return Err(Flaw::OtherStatement);
        }
        Ok(RunningBalance {
            lines,
            position: line.position,
        })
    }

    fn after_reply(self, reply: &Reply) -> Result<RunningBalance, Flaw> {
        let Reply::Statement { lines } = reply else {
            return Err(Flaw::OtherStatement);
        };
        let mut balance = self;
        for line in lines.as_slice() {
            balance = balance.after_line(line)?;
        }
        Ok(balance)
    }
}

/// Reads the participant's statement, and returns its last position.
fn statement<R: Wait>(rt: &R, hub: &Hub, teller: &mut Teller, who: u8) -> Result<u64, Flaw>
    requires { IsTellerOf hub.now teller.old }
    ensures { IsStill hub.now teller.old teller.new }
{
    let mut balance = RunningBalance {
        lines: 0,
        position: 0,
    };
    for _page in 0..PAGES {
        let command = Command::Query(Query::Statement {
            skip: u64::from(balance.lines),
            count: PAGE,
        });
        let reply = ask(rt, hub, teller, who, command, 0)?;
        balance = balance.after_reply(&reply)?;
    }
    Ok(balance.position)
}

/// Returns a participant's position. Fails if something is reserved, or if the position isn't that
/// of the outcomes and of the statement.
fn check_account<R: Wait>(
    rt: &R,
    hub: &Hub,
    teller: &mut Teller,
    sights: &Sights,
    who: u8,
) -> Result<u64, Flaw>
    requires { IsTellerOf hub.now teller.old }
    ensures { IsStill hub.now teller.old teller.new }
{
    let money = ask_money(rt, hub, teller, who)?;
    if money.reserved != 0 {
        return Err(Flaw::StillReserved);
    }
    if money.available != money.position {
        return Err(Flaw::Unbalanced);
    }
    if expected(who, sights)? != money.position {
        return Err(Flaw::OtherPosition);
    }
    if statement(rt, hub, teller, who)? != money.position {
        return Err(Flaw::OtherStatement);
    }
    Ok(money.position)
}

/// Checks each account, and that the positions sum to the funding.
pub(crate) fn check_accounts<R: Wait>(
    rt: &R,
    hub: &Hub,
    teller: &mut Teller,
    sights: &Sights,
) -> Result<(), Flaw>
    requires { IsTellerOf hub.now teller.old }
    ensures { IsStill hub.now teller.old teller.new }
{
    let mut positions = 0u64;
    for who in 0..PARTICIPANTS {
        positions = positions.saturating_add(check_account(rt, hub, teller, sights, who as u8)?);
    }
    check_sum(positions, FUNDS * u64::from(PARTICIPANTS))
}
