//! Comparison of answers.
use inst_base::mention;
use inst_command::{Answer, Entry, Line, Outcome, Reply};

/// Returns `true` if the answers are equal.
pub(crate) fn is_same(one: &Answer, other: &Answer) -> bool {
    match (one, other) {
        (Answer::Reply(one), Answer::Reply(other)) => is_same_reply(one, other),
        (Answer::New(one), Answer::New(other)) => one == other,
        _ => false,
    }
}

fn is_same_reply(one: &Reply, other: &Reply) -> bool {
    mention::<(Entry, Line, Outcome)>();
    match (one, other) {
        (Reply::Done { reference }, Reply::Done { reference: other }) => reference == other,
        (
            Reply::Taken { id, deadline },
            Reply::Taken {
                id: other,
                deadline: end,
            },
        ) => id == other && deadline == end,
        (
            Reply::State { from, id, state },
            Reply::State {
                from: owner,
                id: other,
                state: known,
            },
        ) => from == owner && id == other && state == known,
        (Reply::Inbox { entries }, Reply::Inbox { entries: other }) => {
            entries.as_slice() == other.as_slice()
        }
        (
            Reply::Position {
                position,
                reserved,
                available,
            },
            Reply::Position {
                position: sum,
                reserved: held,
                available: free,
            },
        ) => position == sum && reserved == held && available == free,
        (Reply::Statement { lines }, Reply::Statement { lines: other }) => {
            lines.as_slice() == other.as_slice()
        }
        (Reply::Refused(fault), Reply::Refused(other)) => fault == other,
        _ => false,
    }
}
