//! Expected answers, as short texts and plain numbers.
use inst_base::Ident;
use inst_command::{Answer, Outcome, Reply, State};

/// An expected answer.
#[derive(Clone, Copy)]
pub(crate) enum RaceReply {
    Done(&'static str),
    /// The identifier, and the deadline in milliseconds.
    Taken(&'static str, u64),
    Accepted(u8, &'static str),
    TimedOut(u8, &'static str),
    /// Position, reserved and available, in cents.
    Position(u64, u64, u64),
    New(bool),
}

fn is_state(told: RaceReply, from: u8, id: &Ident, state: State) -> bool {
    match told {
        RaceReply::Accepted(owner, wanted) => {
            from == owner && id.text() == wanted && state == State::Decided(Outcome::Accepted)
        }
        RaceReply::TimedOut(owner, wanted) => {
            from == owner && id.text() == wanted && state == State::Decided(Outcome::TimedOut)
        }
        _ => false,
    }
}

/// Returns `true` if the reply is the expected one.
pub(crate) fn is_reply(reply: &Reply, told: RaceReply) -> bool {
    match reply {
        Reply::Done { reference } => match told {
            RaceReply::Done(wanted) => reference.text() == wanted,
            _ => false,
        },
        Reply::Taken { id, deadline } => match told {
            RaceReply::Taken(wanted, end) => id.text() == wanted && deadline.past_base() == end,
            _ => false,
        },
        Reply::State { from, id, state } => is_state(told, *from, id, *state),
        Reply::Position {
            position,
            reserved,
            available,
        } => match told {
            RaceReply::Position(all, held, free) => {
                *position == all && *reserved == held && *available == free
            }
            _ => false,
        },
        _ => false,
    }
}

/// Returns `true` if the answer is the expected one.
pub(crate) fn tells(answer: &Answer, told: RaceReply) -> bool {
    match answer {
        Answer::Reply(reply) => is_reply(reply, told),
        Answer::New(is_new) => match told {
            RaceReply::New(wanted) => *is_new == wanted,
            _ => false,
        },
    }
}
