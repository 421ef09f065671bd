//! Reading the event of a line.
ghost use Rattle.std.specs.Prelude.{◌≡◌, true, IfOk};
ghost use Rattle.serde_json.specs.View.{view};
ghost use Rattle.inst_base.specs.Fault.{IsUnlessMemory as IsUnlessNoMemory};
ghost use Rattle.inst_settings.specs.Settings.{HubSettings, is_participant};
ghost use Rattle.inst_json.specs.LineFields.{fields_told};
ghost use Rattle.inst_json.specs.Lines.{json_of};
ghost use Rattle.inst_json.specs.inner.Refusals.{GivesUnlessMemory};
ghost use Rattle.inst_books.specs.Events.{event_can_be_written};
ghost use Rattle.inst_books.specs.Reading.{event_of_line, entry_of_line, entry_in, event_named};
ghost use Rattle.inst_books.specs.Reading.{IsBookUnlessMemory};
ghost use Rattle.inst_books.specs.Reading.{funded_in, defunded_in, taken_in, forwarded_in};
ghost use Rattle.inst_books.specs.Reading.{booked_in, fetched_in};

use crate::BookFault;
use crate::fields::{amount, identifier, moment, outcome, participant_at};
use inst_base::Fault;
use inst_command::Funding;
use inst_journal::Event;
use inst_json::fields::{count, text};
use inst_json::{Fields, Form, fields_of, scan_line};
use inst_settings::Settings;
use serde_json::Value;
use std::alloc::Global;

/// Returns the event of a line, and the number of the participant whose book it is in.
///
/// `line` is without its newline. Members may be in any order, and those that the event doesn't
/// have are ignored. If one is given twice, the last one counts. A plain line, as every line of
/// written books is, is read in one pass; any other is read as a JSON value.
///
/// # Errors
///
/// - [`BookFault::BadLine`] if the line isn't an event.
/// - [`BookFault::Memory`] on allocation failure.
pub fn read_event(alloc: Global, settings: &Settings, line: &[u8]) -> Result<(u8, Event), BookFault>
    ensures value { IsBookUnlessMemory result (event_of_line settings.now line.now) }
    ensures book { IfOk result (λ entry. is_participant settings.now entry.0 ≡ true) }
    ensures writable { IfOk result (λ entry. event_can_be_written settings.now entry.1 ≡ true) }
{
    match entry_of_line(alloc, settings, line) {
        Ok(entry) => Ok(entry),
        Err(Fault::Memory) => Err(BookFault::Memory),
        Err(_) => Err(BookFault::BadLine),
    }
}

/// Returns the event of a line and its participant, or the fault of the line.
#[tactic(auto, unfolding(crate::specs::Reading::entry_of_line))]
fn entry_of_line(alloc: Global, settings: &Settings, line: &[u8]) -> Result<(u8, Event), Fault>
    ensures value { IsUnlessNoMemory result (entry_of_line settings.now line.now) }
    ensures book { IfOk result (λ entry. is_participant settings.now entry.0 ≡ true) }
    ensures writable { IfOk result (λ entry. event_can_be_written settings.now entry.1 ≡ true) }
{
    let mut fields = Fields::new();
    match scan_line(line, &mut fields) {
        Form::Plain => entry(settings, &fields),
        Form::Broken => Err(Fault::NotJson),
        Form::Other => {
            let value = value_of_line(alloc, line)?;
            entry(settings, &fields_of(&value))
        }
    }
}

/// Returns the JSON value of a line, or `NotJson`.
fn value_of_line(alloc: Global, line: &[u8]) -> Result<Value, Fault>
    ensures { GivesUnlessMemory view result (json_of line.now) }
{
    match Value::from_slice(alloc, line) {
        Ok(value) => Ok(value),
        Err(error) if error.is_memory() => Err(Fault::Memory),
        Err(_) => Err(Fault::NotJson),
    }
}

/// Returns the event of a line's fields and its participant, or the first refusal.
#[tactic(auto, unfolding(crate::specs::Reading::entry_in))]
fn entry(settings: &Settings, line: &Fields<'_>) -> Result<(u8, Event), Fault>
    ensures value { result ≡ entry_in settings.now (fields_told line.now) }
    ensures book { IfOk result (λ entry. is_participant settings.now entry.0 ≡ true) }
    ensures writable { IfOk result (λ entry. event_can_be_written settings.now entry.1 ≡ true) }
{
    let who = participant_at(settings, line.book)?;
    let name = text(line.event)?;
    let event = event_named(settings, line, name)?;
    Ok((who, event))
}

/// Returns the event of this name.
fn event_named(settings: &Settings, line: &Fields<'_>, name: &str) -> Result<Event, Fault>
    ensures value { result ≡ event_named settings.now (fields_told line.now) name.now }
    ensures writable { IfOk result (λ event. event_can_be_written settings.now event ≡ true) }
{
    match name {
        "funded" => funded(line),
        "defunded" => defunded(line),
        "taken" => taken(settings, line),
        "forwarded" => forwarded(settings, line),
        "booked" => booked(settings, line),
        "fetched" => fetched(line),
        "opened" => Ok(Event::Opened),
        _ => Err(Fault::BadField),
    }
}

#[tactic(auto, unfolding(crate::specs::Reading::funded_in))]
fn funded(line: &Fields<'_>) -> Result<Event, Fault>
    ensures value { result ≡ funded_in (fields_told line.now) }
    ensures writable { IfOk result (λ event. (s : HubSettings) →
        event_can_be_written s event ≡ true) }
{
    let reference = identifier(line.reference)?;
    let cents = amount(line.cents)?;
    Ok(Event::Funded(Funding { reference, cents }))
}

#[tactic(auto, unfolding(crate::specs::Reading::defunded_in))]
fn defunded(line: &Fields<'_>) -> Result<Event, Fault>
    ensures value { result ≡ defunded_in (fields_told line.now) }
    ensures writable { IfOk result (λ event. (s : HubSettings) →
        event_can_be_written s event ≡ true) }
{
    let reference = identifier(line.reference)?;
    let cents = amount(line.cents)?;
    Ok(Event::Defunded(Funding { reference, cents }))
}

#[tactic(auto, unfolding(crate::specs::Reading::taken_in))]
fn taken(settings: &Settings, line: &Fields<'_>) -> Result<Event, Fault>
    ensures value { result ≡ taken_in settings.now (fields_told line.now) }
    ensures writable { IfOk result (λ event. event_can_be_written settings.now event ≡ true) }
{
    let id = identifier(line.id)?;
    let to = participant_at(settings, line.to)?;
    let cents = amount(line.cents)?;
    let stamp = moment(settings, line.stamp)?;
    Ok(Event::Taken {
        id,
        to,
        cents,
        stamp,
    })
}

#[tactic(auto, unfolding(crate::specs::Reading::forwarded_in))]
fn forwarded(settings: &Settings, line: &Fields<'_>) -> Result<Event, Fault>
    ensures value { result ≡ forwarded_in settings.now (fields_told line.now) }
    ensures writable { IfOk result (λ event. event_can_be_written settings.now event ≡ true) }
{
    let from = participant_at(settings, line.from)?;
    let id = identifier(line.id)?;
    let cents = amount(line.cents)?;
    let deadline = moment(settings, line.deadline)?;
    Ok(Event::Forwarded {
        from,
        id,
        cents,
        deadline,
    })
}

#[tactic(auto, unfolding(crate::specs::Reading::booked_in))]
fn booked(settings: &Settings, line: &Fields<'_>) -> Result<Event, Fault>
    ensures value { result ≡ booked_in settings.now (fields_told line.now) }
    ensures writable { IfOk result (λ event. event_can_be_written settings.now event ≡ true) }
{
    let from = participant_at(settings, line.from)?;
    let id = identifier(line.id)?;
    let outcome = outcome(line)?;
    Ok(Event::Booked { from, id, outcome })
}

#[tactic(auto, unfolding(crate::specs::Reading::fetched_in))]
fn fetched(line: &Fields<'_>) -> Result<Event, Fault>
    ensures value { result ≡ fetched_in (fields_told line.now) }
    ensures writable { IfOk result (λ event. (s : HubSettings) →
        event_can_be_written s event ≡ true) }
{
    let count = count(line.count)?;
    Ok(Event::Fetched { count })
}
