//! A participant's statement, from the prefixes of its history.
ghost use Rattle.std.specs.Prelude.{◌≡◌, None, IfOk};
ghost use Rattle.inst_base.specs.Fault.{IsUnlessMemory};
ghost use Rattle.inst_settings.specs.Lawful.{IsSettings};
ghost use Rattle.inst_journal.specs.Booked.{first_some};
ghost use Rattle.inst_journal.specs.Money.{position};
ghost use Rattle.inst_journal.specs.Reply.{reply_without_event};
ghost use Rattle.inst_journal.specs.Sound.{IsSound};
ghost use Rattle.inst_journal.specs.Statement.{received, paid, line_of_accepted, line_of};
ghost use Rattle.inst_journal.specs.Statement.{statement};
ghost use Rattle.inst_journal.specs.Statement.{statement_part};

use crate::booked::is_forwarded;
use crate::handle::Handled;
use crate::opened::carried_length;
use crate::{Event, sums};
use inst_base::{Fault, Ident};
use inst_command::{Funding, Line, LineKind, Lines, Outcome, Reply};
use inst_settings::Settings;
use std::alloc::{AllocError, Global};

/// Returns the line of this forwarded transfer, from the event that forwards it.
fn received(number: u32, position: u64, from: u8, id: &Ident, event: &Event) -> Option<Line>
    ensures { result ≡ received number position from id.now event.now }
{
    match event {
        Event::Forwarded {
            from: originator,
            id: other,
            cents,
            ..
        } if *originator == from && other == id => Some(Line {
            number,
            kind: LineKind::Received,
            other: Some(from),
            id: *id,
            cents: *cents,
            position,
        }),
        _ => None,
    }
}

/// Returns the line of the taken transfer with this identifier, from the event that takes it.
fn paid(number: u32, position: u64, id: &Ident, event: &Event) -> Option<Line>
    ensures { result ≡ paid number position id.now event.now }
{
    match event {
        Event::Taken {
            id: other,
            to,
            cents,
            ..
        } if other == id => Some(Line {
            number,
            kind: LineKind::Paid,
            other: Some(*to),
            id: *id,
            cents: *cents,
            position,
        }),
        _ => None,
    }
}

/// Returns the line of this forwarded transfer.
fn line_received(events: &[Event], number: u32, position: u64, from: u8, id: &Ident) -> Option<Line>
    ensures { result ≡ first_some (received number position from id.now) events.now }
{
    for event in events {
        let line = received(number, position, from, id, event);
        if line.is_some() {
            return line;
        }
    }
    None
}

/// Returns the line of the taken transfer with this identifier.
fn line_paid(events: &[Event], number: u32, position: u64, id: &Ident) -> Option<Line>
    ensures { result ≡ first_some (paid number position id.now) events.now }
{
    for event in events {
        let line = paid(number, position, id, event);
        if line.is_some() {
            return line;
        }
    }
    None
}

/// Returns the line of an accepted transfer of the history.
fn accepted(events: &[Event], number: u32, position: u64, from: u8, id: &Ident) -> Option<Line>
    ensures { result ≡ line_of_accepted events.now number position from id.now }
{
    if is_forwarded(events, from, id) {
        line_received(events, number, position, from, id)
    } else {
        line_paid(events, number, position, id)
    }
}

/// Returns the line of a booked transfer of the history, if it was accepted.
fn booked_line(
    events: &[Event],
    number: u32,
    position: u64,
    from: u8,
    id: &Ident,
    outcome: &Outcome,
) -> Option<Line>
    ensures { result ≡ line_of events.now number position (Event.Booked from id.now outcome.now) }
{
    match outcome {
        Outcome::Accepted => accepted(events, number, position, from, id),
        _ => None,
    }
}

/// Returns the line of an event of the history, if it has one.
fn line_of(events: &[Event], number: u32, position: u64, event: &Event) -> Option<Line>
    ensures { result ≡ line_of events.now number position event.now }
{
    match event {
        Event::Funded(funding) => {
            Some(funding_line(number, LineKind::Funded, funding, position))
        }
        Event::Defunded(funding) => {
            Some(funding_line(number, LineKind::Defunded, funding, position))
        }
        Event::Booked { from, id, outcome } => {
            booked_line(events, number, position, *from, id, outcome)
        }
        _ => None,
    }
}

/// Returns the line of a funding or a defunding.
fn funding_line(number: u32, kind: LineKind, funding: &Funding, position: u64) -> Line
    ensures { result ≡ record {
      number = number;
      kind = kind;
      other = None;
      id = funding.now.reference;
      cents = funding.now.cents;
      position = position;
    } }
{
    Line {
        number,
        kind,
        other: None,
        id: funding.reference,
        cents: funding.cents,
        position,
    }
}

/// Returns the position after a prefix of the history.
fn position_after(settings: &Settings, who: u8, front: &[Event]) -> u64
    requires lawful { IsSettings settings.now }
    requires sound { IsSound settings.now who front.now }
    ensures { result ≡ position front.now }
{
    sums::position(front) as u64
}

/// Returns all lines since the last opening, numbered from 1.
fn all_lines(
    alloc: Global,
    settings: &Settings,
    who: u8,
    events: &[Event],
) -> Result<Vec<Line>, AllocError>
    requires lawful { IsSettings settings.now }
    requires sound { IsSound settings.now who events.now }
    ensures { IfOk result (λ lines. lines.items ≡ statement events.now) }
{
    let mut lines = Vec::new(alloc);
    for index in carried_length(events)..events.len() {
        let event = &events[index];
        let position = position_after(settings, who, &events[..index + 1]);
        let number = lines.len() as u32 + 1;
        if let Some(line) = line_of(events, number, position, event) {
            lines.push(line)?;
        }
    }
    Ok(lines)
}

/// Returns at most `count` lines after the first `skip`.
fn lines_part(
    alloc: Global,
    settings: &Settings,
    who: u8,
    events: &[Event],
    skip: u64,
    count: u32,
) -> Result<Vec<Line>, AllocError>
    requires lawful { IsSettings settings.now }
    requires sound { IsSound settings.now who events.now }
    ensures { IfOk result (λ lines. lines.items ≡ statement_part events.now skip count) }
{
    let all = all_lines(alloc, settings, who, events)?;
    if skip >= all.len() as u64 {
        return Ok(Vec::new(alloc));
    }
    let rest = &all[skip as usize..];
    rest[..rest.len().min(count as usize)].to_vec(alloc)
}

/// Replies at most `count` statement lines after the first `skip`.
pub(crate) fn statement(
    alloc: Global,
    settings: &Settings,
    who: u8,
    events: &[Event],
    skip: u64,
    count: u32,
) -> Result<Handled, Fault>
    requires lawful { IsSettings settings.now }
    requires sound { IsSound settings.now who events.now }
    ensures { IsUnlessMemory result
        (reply_without_event (Reply.Statement (statement_part events.now skip count))) }
{
    let lines = lines_part(alloc, settings, who, events, skip, count)?;
    let reply = Reply::Statement {
        lines: Lines::new(lines),
    };
    Ok(Handled { reply, kept: None })
}
