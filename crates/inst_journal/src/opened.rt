//! The part of a history that is carried over an opening from the books.
ghost use Rattle.std.specs.Prelude.{◌≡◌, ◌≤◌, true, false, length, take, drop};
ghost use Rattle.inst_journal.specs.Opened.{is_opening, carried, current, openings};
ghost use Rattle.inst_journal.specs.Opened.{HasOpeningsLeft};

use crate::{Event, Journal};

/// The most openings from books that a history can have.
pub const MOST_OPENINGS: usize = 500;

/// Returns `true` if the event is an opening.
fn is_opening(event: &Event) -> bool
    ensures { result ≡ is_opening event.now }
{
    matches!(event, Event::Opened)
}

/// Returns the number of events up to and including the last opening.
pub(crate) fn carried_length(events: &[Event]) -> usize
    ensures within { result ≤ length events.now }
    ensures carried { take result events.now ≡ carried events.now }
    ensures current { drop result events.now ≡ current events.now }
{
    let mut carried = 0;
    for (index, event) in events.iter().enumerate() {
        if is_opening(event) {
            carried = index + 1;
        }
    }
    carried
}

/// Returns the events up to and including the last opening.
pub(crate) fn carried(events: &[Event]) -> &[Event]
    ensures { result.now ≡ carried events.now }
{
    &events[..carried_length(events)]
}

/// Returns the events after the last opening.
pub(crate) fn current(events: &[Event]) -> &[Event]
    ensures { result.now ≡ current events.now }
{
    &events[carried_length(events)..]
}

impl Journal {
    /// Returns how often the hub was opened from these books. Cost: linear in the events.
    pub fn openings(&self) -> usize
        ensures { result ≡ openings self.now.events }
    {
        self.events()
            .iter()
            .filter(|event| is_opening(event))
            .count()
    }

    /// Returns `true` if the hub can be opened from these books once more. Cost: linear in the
    /// events.
    pub fn has_openings_left(&self) -> bool
        ensures left { result ≡ true → HasOpeningsLeft self.now.events }
        ensures none { result ≡ false → ¬ HasOpeningsLeft self.now.events }
    {
        self.openings() < MOST_OPENINGS
    }
}
