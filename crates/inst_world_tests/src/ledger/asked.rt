//! Commands, as short texts and plain numbers.
use inst_base::{Cents, Fault, Ident, Moment, Reason};
use inst_command::{Command, Funding, Outcome, Query, Submission};
use inst_fixtures::End;

/// A command.
#[derive(Clone, Copy)]
pub(crate) enum ShortAsk {
    Fund(&'static str, u64),
    Defund(&'static str, u64),
    /// The identifier, the beneficiary, the amount in cents and the time stamp.
    Submit(&'static str, u8, u64, u64),
    Confirm(u8, &'static str),
    Reject(u8, &'static str, &'static str),
    Investigate(&'static str),
    Fetch(u32),
    Position,
    /// The number of lines to skip, and the most to return.
    Statement(u64, u32),
}

fn submit(id: &str, to: u8, cents: u64, stamp: u64) -> Result<Command, Fault> {
    Ok(Command::Submit(Submission {
        id: Ident::new(id)?,
        to,
        cents: Cents::new(cents)?,
        stamp: Moment::new(0, stamp)?,
    }))
}

pub(crate) fn command(asks: &ShortAsk) -> Result<Command, Fault> {
    Ok(match *asks {
        ShortAsk::Fund(reference, cents) => Command::Fund(Funding {
            reference: Ident::new(reference)?,
            cents: Cents::new(cents)?,
        }),
        ShortAsk::Defund(reference, cents) => Command::Defund(Funding {
            reference: Ident::new(reference)?,
            cents: Cents::new(cents)?,
        }),
        ShortAsk::Submit(id, to, cents, stamp) => submit(id, to, cents, stamp)?,
        ShortAsk::Confirm(from, id) => Command::Confirm {
            from,
            id: Ident::new(id)?,
        },
        ShortAsk::Reject(from, id, reason) => Command::Reject {
            from,
            id: Ident::new(id)?,
            reason: Reason::new(reason)?,
        },
        ShortAsk::Investigate(id) => Command::Investigate {
            id: Ident::new(id)?,
        },
        ShortAsk::Fetch(max) => Command::Fetch { max },
        ShortAsk::Position => Command::Query(Query::Position),
        ShortAsk::Statement(skip, count) => Command::Query(Query::Statement { skip, count }),
    })
}

pub(crate) fn outcome(end: &End) -> Result<Outcome, Fault> {
    Ok(match *end {
        End::Accepted => Outcome::Accepted,
        End::Rejected(reason) => Outcome::Rejected(Reason::new(reason)?),
        End::TimedOut => Outcome::TimedOut,
    })
}
