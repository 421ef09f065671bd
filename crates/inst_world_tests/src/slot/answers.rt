//! Expected answers, as short texts and plain numbers.
use inst_base::Fault;
use inst_command::{Answer, Entry, Line, LineKind, Reply, State};
use inst_fixtures::{End, is_end};

/// An expected answer. Of inbox entries it has the identifiers; of statement lines the numbers, the
/// kinds and the positions after them.
#[derive(Clone, Copy)]
pub(crate) enum ExpectedResult {
    Done,
    Taken(u64),
    Pending,
    Decided(End),
    Position(u64, u64, u64),
    Inbox(&'static [&'static str]),
    Lines(&'static [(u32, LineKind, u64)]),
    New(bool),
    Refused(Fault),
}

fn is_state(state: &State, told: &ExpectedResult) -> bool {
    match (state, told) {
        (State::Pending, ExpectedResult::Pending) => true,
        (State::Decided(outcome), ExpectedResult::Decided(end)) => is_end(outcome, end),
        _ => false,
    }
}

fn have_ids(entries: &[Entry], ids: &[&str]) -> bool {
    for (entry, id) in entries.iter().zip(ids) {
        if entry.id.text() != *id {
            return false;
        }
    }
    entries.len() == ids.len()
}

fn have_positions(lines: &[Line], wanted: &[(u32, LineKind, u64)]) -> bool {
    for (line, (number, kind, position)) in lines.iter().zip(wanted) {
        if line.number != *number || line.kind != *kind || line.position != *position {
            return false;
        }
    }
    lines.len() == wanted.len()
}

/// Returns `true` if the reply is the expected one.
fn is_reply(reply: &Reply, told: &ExpectedResult) -> bool {
    match (reply, told) {
        (Reply::Done { .. }, ExpectedResult::Done) => true,
        (Reply::Taken { deadline, .. }, ExpectedResult::Taken(end)) => deadline.past_base() == *end,
        (Reply::State { state, .. }, told) => is_state(state, told),
        (
            Reply::Position {
                position,
                reserved,
                available,
            },
            ExpectedResult::Position(all, held, free),
        ) => position == all && reserved == held && available == free,
        (Reply::Inbox { entries }, ExpectedResult::Inbox(ids)) => have_ids(entries.as_slice(), ids),
        (Reply::Statement { lines }, ExpectedResult::Lines(wanted)) => have_positions(
            lines.as_slice(),
            wanted,
        ),
        _ => false,
    }
}

/// Returns `true` if the answer is the expected one.
pub(crate) fn tells(answer: &Result<Answer, Fault>, told: &ExpectedResult) -> bool {
    match (answer, told) {
        (Ok(Answer::Reply(reply)), told) => is_reply(reply, told),
        (Ok(Answer::New(is_new)), ExpectedResult::New(wanted)) => is_new == wanted,
        (Err(fault), ExpectedResult::Refused(wanted)) => fault == wanted,
        _ => false,
    }
}
