//! The transfers that a history has taken, forwarded and booked.
ghost use Rattle.std.specs.Prelude.{◌≡◌, ◌&&◌, not};
ghost use Rattle.inst_settings.specs.Settings.{same_text};
ghost use Rattle.inst_journal.specs.Booked.{is_taken, is_forwarded, books, booked, books_own};
ghost use Rattle.inst_journal.specs.Booked.{own_booked};
ghost use Rattle.inst_journal.specs.Opened.{takes_live, live_submissions};

use crate::Event;
use crate::opened::carried;
use inst_base::Ident;
use inst_command::Outcome;

/// Returns `true` if the participant has submitted a transfer with this identifier.
pub(crate) fn is_taken(events: &[Event], id: &Ident) -> bool
    ensures { result ≡ is_taken id.now events.now }
{
    events.iter().any(|event| matches!(event, Event::Taken { id: other, .. } if other == id))
}

/// Returns `true` if this transfer was forwarded to the participant.
pub(crate) fn is_forwarded(events: &[Event], from: u8, id: &Ident) -> bool
    ensures { result ≡ is_forwarded from id.now events.now }
{
    events.iter().any(
        |event| matches!(event, Event::Forwarded { from: originator, id: other, .. } if *originator == from && other == id),
    )
}

/// Returns the outcome that the event books for this transfer.
fn books(event: &Event, from: u8, id: &Ident) -> Option<Outcome>
    ensures { result ≡ books from id.now event.now }
{
    match event {
        Event::Booked {
            from: originator,
            id: other,
            outcome,
        } if *originator == from && other == id => Some(*outcome),
        _ => None,
    }
}

/// Returns the outcome that the participant has booked for this transfer.
pub(crate) fn booked(events: &[Event], from: u8, id: &Ident) -> Option<Outcome>
    ensures { result ≡ booked from id.now events.now }
{
    for event in events {
        let outcome = books(event, from, id);
        if outcome.is_some() {
            return outcome;
        }
    }
    None
}

/// Returns `true` if a booked transfer is the participant's own with this identifier.
fn is_own(events: &[Event], from: u8, other: &Ident, id: &Ident) -> bool
    ensures { result ≡ (same_text other.now id.now
        && not (is_forwarded from other.now events.now)) }
{
    other == id && !is_forwarded(events, from, other)
}

/// Returns the outcome that the event books for a transfer of the participant's own.
fn books_own(events: &[Event], event: &Event, id: &Ident) -> Option<Outcome>
    ensures { result ≡ books_own events.now id.now event.now }
{
    match event {
        Event::Booked {
            from,
            id: other,
            outcome,
        } => is_own(events, *from, other, id).then_some(*outcome),
        _ => None,
    }
}

/// Returns the outcome that the participant has booked for its own transfer with this identifier.
pub(crate) fn own_booked(events: &[Event], id: &Ident) -> Option<Outcome>
    ensures { result ≡ own_booked id.now events.now }
{
    for event in events {
        let outcome = books_own(events, event, id);
        if outcome.is_some() {
            return outcome;
        }
    }
    None
}

/// Returns `true` if the event takes a transfer that the events `booking` haven't booked.
fn takes_live(event: &Event, who: u8, booking: &[Event]) -> bool
    ensures { result ≡ takes_live who booking.now event.now }
{
    match event {
        Event::Taken { id, .. } => booked(booking, who, id).is_none(),
        _ => false,
    }
}

/// Returns the number of the participant's own live transfers.
pub(crate) fn live_submissions(events: &[Event], who: u8) -> usize
    ensures { result ≡ live_submissions who events.now }
{
    let booking = carried(events);
    events
        .iter()
        .filter(|event| takes_live(event, who, booking))
        .count()
}
