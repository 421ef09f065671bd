//! Expected replies, as short texts and plain numbers.
use inst_base::{Fault, Ident};
use inst_command::{Reply, State};
use inst_fixtures::{Came, End, Shown, are_entries, are_lines, is_end};

#[derive(Clone, Copy)]
pub(crate) enum ExpectedReply {
    Done(&'static str),
    Taken(&'static str, u64),
    Pending(u8, &'static str),
    Decided(u8, &'static str, End),
    /// Position, reserved and available, in cents.
    Position(u64, u64, u64),
    Inbox(&'static [Came]),
    Lines(&'static [Shown]),
    Refused(Fault),
}

fn is_state(from: u8, id: &Ident, state: &State, told: &ExpectedReply) -> bool {
    match (state, told) {
        (State::Pending, ExpectedReply::Pending(originator, name)) => {
            from == *originator && id.text() == *name
        }
        (State::Decided(outcome), ExpectedReply::Decided(originator, name, end)) => {
            from == *originator && id.text() == *name && is_end(outcome, end)
        }
        _ => false,
    }
}

/// Returns `true` if the reply is the expected one.
pub(crate) fn is_reply(reply: &Reply, told: &ExpectedReply) -> bool {
    match (reply, told) {
        (Reply::Done { reference }, ExpectedReply::Done(name)) => reference.text() == *name,
        (Reply::Taken { id, deadline }, ExpectedReply::Taken(name, end)) => {
            id.text() == *name && deadline.past_base() == *end
        }
        (Reply::State { from, id, state }, told) => is_state(*from, id, state, told),
        (
            Reply::Position {
                position,
                reserved,
                available,
            },
            ExpectedReply::Position(all, held, free),
        ) => position == all && reserved == held && available == free,
        (Reply::Inbox { entries }, ExpectedReply::Inbox(wanted)) => are_entries(
            entries.as_slice(),
            wanted,
        ),
        (Reply::Statement { lines }, ExpectedReply::Lines(wanted)) => are_lines(
            lines.as_slice(),
            wanted,
        ),
        _ => false,
    }
}

/// Returns `true` if this refusal is expected.
pub(crate) fn is_refused(fault: Fault, told: &ExpectedReply) -> bool {
    match told {
        ExpectedReply::Refused(wanted) => fault == *wanted,
        _ => false,
    }
}
