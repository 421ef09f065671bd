//! Expected events of a history, as short texts and plain numbers.
use inst_fixtures::{End, is_end};
use inst_journal::Event;
use std::process::Abort;

#[derive(Clone, Copy)]
pub(crate) enum ShortEvent {
    Funded(&'static str, u64),
    Taken(&'static str, u8, u64, u64),
    Forwarded(u8, &'static str, u64, u64),
    Booked(u8, &'static str, End),
    Fetched(u32),
    Opened,
}

fn is_kept(event: &Event, kept: &ShortEvent) -> bool {
    match (event, kept) {
        (Event::Funded(funding), ShortEvent::Funded(text, amount)) => {
            funding.reference.text() == *text && funding.cents.get() == *amount
        }
        (
            Event::Taken {
                id,
                to,
                cents,
                stamp,
            },
            ShortEvent::Taken(text, beneficiary, amount, at),
        ) => {
            id.text() == *text
                && to == beneficiary
                && cents.get() == *amount
                && stamp.past_base() == *at
        }
        (
            Event::Forwarded {
                from,
                id,
                cents,
                deadline,
            },
            ShortEvent::Forwarded(originator, text, amount, end),
        ) => {
            from == originator
                && id.text() == *text
                && cents.get() == *amount
                && deadline.past_base() == *end
        }
        (Event::Booked { from, id, outcome }, ShortEvent::Booked(originator, text, end)) => {
            from == originator && id.text() == *text && is_end(outcome, end)
        }
        (Event::Fetched { count }, ShortEvent::Fetched(wanted)) => count == wanted,
        (Event::Opened, ShortEvent::Opened) => true,
        _ => false,
    }
}

/// Returns the index of the first event that differs, if there is one.
fn first_other(events: &[Event], wanted: &[ShortEvent]) -> Option<usize> {
    for (nth, (event, kept)) in events.iter().zip(wanted).enumerate() {
        if !is_kept(event, kept) {
            return Some(nth);
        }
    }
    None
}

/// Compares a history, event by event.
pub(crate) fn keeps(rt: &impl Abort, events: &[Event], wanted: &[ShortEvent]) {
    let found = (events.len(), first_other(events, wanted));
    assert_eq!(rt; found, (wanted.len(), None));
}

/// Returns the number of events, and copies of the first 16.
pub(crate) fn copied(events: &[Event]) -> (usize, [Option<Event>; 16]) {
    let mut copies = [None; 16];
    for (copy, event) in copies.iter_mut().zip(events) {
        *copy = Some(*event);
    }
    (events.len(), copies)
}

/// Returns `true` if there are as many events and the first 16 are the same.
pub(crate) fn are_copied(events: &[Event], copies: &(usize, [Option<Event>; 16])) -> bool {
    copied(events) == *copies
}
