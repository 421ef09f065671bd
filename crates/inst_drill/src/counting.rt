//! Counting how the transfers of an opening ended, and outcomes that the books don't have.
ghost use Rattle.std.specs.Prelude.{◌≡◌, ◌+◌, ◌<◌, ◌≤◌, true, false, length};
ghost use Rattle.inst_command.specs.declared.outcome.Outcome.TheVariants.{Accepted, TimedOut};
ghost use Rattle.inst_participant.specs.Together.{histories};
ghost use Rattle.inst_journal.specs.Opened.{is_opening};
ghost use Rattle.inst_drill.specs.Report.{books_end, ended, is_same_end};
ghost use Rattle.inst_drill.specs.inner.Report.{Contradicts, NoneContradicts, counted_after};

use inst_close::Books;
use inst_command::{Outcome, State};
use inst_hub::Ticket;
use inst_journal::Event;

/// Returns `true` if the event is an opening.
fn is_opening(event: &Event) -> bool
    ensures { result ≡ is_opening event.now }
{
    matches!(event, Event::Opened)
}

/// Returns `true` if both outcomes are acceptances, or both are time-outs.
fn is_same_end(one: Outcome, other: Outcome) -> bool
    ensures { result ≡ is_same_end one other }
{
    match (one, other) {
        (Outcome::Accepted, Outcome::Accepted) => true,
        (Outcome::TimedOut, Outcome::TimedOut) => true,
        _ => false,
    }
}

/// Returns `true` if the event books such an outcome.
fn books_end(outcome: Outcome, event: &Event) -> bool
    ensures { result ≡ books_end outcome event.now }
{
    match event {
        Event::Booked { outcome: other, .. } => is_same_end(outcome, *other),
        _ => false,
    }
}

/// Returns the two counts after one more event.
fn counted_after(event: &Event, accepted: u64, timed_out: u64) -> (u64, u64)
    requires { accepted + timed_out < u64.MAX }
    ensures { (result.0, result.1) ≡ counted_after event.now accepted timed_out }
{
    if is_opening(event) {
        return (0, 0);
    }
    if books_end(Outcome::Accepted, event) {
        return (accepted + 1, timed_out);
    }
    if books_end(Outcome::TimedOut, event) {
        return (accepted, timed_out + 1);
    }
    (accepted, timed_out)
}

/// Returns how many transfers these events book accepted since the last opening, and how many timed
/// out.
pub(crate) fn ends(events: &[Event]) -> (u64, u64)
    ensures accepted { result.0 ≡ ended Accepted events.now }
    ensures timed_out { result.1 ≡ ended TimedOut events.now }
    ensures enough { result.0 + result.1 ≤ length events.now }
{
    let mut counts = (0u64, 0u64);
    for event in events {
        counts = counted_after(event, counts.0, counts.1);
    }
    counts
}

/// Returns `true` if this state is an outcome that the books don't have.
fn contradicts(books: &Books, ticket: &Ticket, seen: State) -> bool
    ensures yes { result ≡ true → Contradicts (histories books.now.books) (ticket.now, seen) }
    ensures no { result ≡ false → ¬ Contradicts (histories books.now.books) (ticket.now, seen) }
{
    match seen {
        State::Decided(outcome) => books.told(ticket) != State::Decided(outcome),
        _ => false,
    }
}

/// Counts the outcomes in these states that the books don't have.
pub(crate) fn contradicted(books: &Books, states: &[(Ticket, State)]) -> u64
    ensures { NoneContradicts (histories books.now.books) states.now → result ≡ 0 }
{
    let mut count = 0u64;
    for (ticket, seen) in states {
        if contradicts(books, ticket, *seen) {
            count = count.saturating_add(1);
        }
    }
    count
}
