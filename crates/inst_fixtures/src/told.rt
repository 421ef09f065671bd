//! Expected outcomes, inbox entries and statement lines, as short texts and plain numbers.
use inst_command::{Entry, Line, LineKind, Outcome};

/// An expected outcome.
#[derive(Clone, Copy)]
pub enum End {
    Accepted,
    Rejected(&'static str),
    TimedOut,
}

/// An expected inbox entry: the originator, the identifier, the amount in cents, and the deadline
/// in milliseconds since base.
pub type Came = (u8, &'static str, u64, u64);

/// An expected statement line: the number, the kind, the other side, the identifier, the amount,
/// and the position, both in cents.
pub type Shown = (u32, LineKind, Option<u8>, &'static str, u64, u64);

/// Returns `true` if the outcome is the expected one.
pub fn is_end(outcome: &Outcome, end: &End) -> bool {
    match (outcome, end) {
        (Outcome::Accepted, End::Accepted) => true,
        (Outcome::TimedOut, End::TimedOut) => true,
        (Outcome::Rejected(reason), End::Rejected(wanted)) => reason.text() == *wanted,
        _ => false,
    }
}

fn is_entry(entry: &Entry, came: &Came) -> bool {
    let (from, id, cents, deadline) = *came;
    entry.from == from
        && entry.id.text() == id
        && entry.cents.get() == cents
        && entry.deadline.past_base() == deadline
}

/// Returns `true` if these are the expected entries, in this order.
pub fn are_entries(entries: &[Entry], wanted: &[Came]) -> bool {
    for (entry, came) in entries.iter().zip(wanted) {
        if !is_entry(entry, came) {
            return false;
        }
    }
    entries.len() == wanted.len()
}

fn is_line(line: &Line, shown: &Shown) -> bool {
    let (number, kind, other, id, cents, position) = *shown;
    line.number == number
        && line.kind == kind
        && line.other == other
        && line.id.text() == id
        && line.cents.get() == cents
        && line.position == position
}

/// Returns `true` if these are the expected lines, in this order.
pub fn are_lines(lines: &[Line], wanted: &[Shown]) -> bool {
    for (line, shown) in lines.iter().zip(wanted) {
        if !is_line(line, shown) {
            return false;
        }
    }
    lines.len() == wanted.len()
}
