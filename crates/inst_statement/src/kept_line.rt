//! Stored lines of a statement.
ghost use Rattle.std.specs.Prelude.{◌≡◌, IsSome, IsTrue};
ghost use Rattle.std.specs.Int.{abs_diff};
ghost use Rattle.inst_base.specs.Cents.{is_amount};
ghost use Rattle.inst_statement.specs.KeptLine.{line_name, name_at, line_at};

use inst_base::{Cents, Ident};
use inst_command::{Line, LineKind};
use inst_journal::Event;

/// A stored statement line. Its number is its index plus 1, its name is that of its event, and its
/// amount is the difference between its position and the one before.
#[derive(Clone, Copy)]
pub(crate) struct KeptLine {
    /// The index of its event in the participant's journal.
    pub(crate) event: u32,
    pub(crate) kind: LineKind,
    /// The other participant's number, for a transfer.
    pub(crate) other: Option<u8>,
    /// The position after the line, in cents.
    pub(crate) position: u64,
}

impl KeptLine {
    /// Makes the line with this number, after the position `before`, from the events of the
    /// journal.
    pub(crate) fn line(&self, events: &[Event], number: u32, before: u64) -> Line
        requires named { IsSome (name_at events.now self.now.event) }
        requires amount { IsTrue (is_amount (abs_diff self.now.position before)) }
        ensures { result ≡ line_at events.now number before self.now }
    {
        let event = &events[self.event as usize];
        Line {
            number,
            kind: self.kind,
            other: self.other,
            id: name_of(event).unwrap(),
            cents: Cents::new(self.position.abs_diff(before)).unwrap(),
            position: self.position,
        }
    }
}

/// Returns the name in the line of an event that may have one.
fn name_of(event: &Event) -> Option<Ident>
    ensures { result ≡ line_name event.now }
{
    match event {
        Event::Funded(funding) | Event::Defunded(funding) => Some(funding.reference),
        Event::Booked { id, .. } => Some(*id),
        _ => None,
    }
}
