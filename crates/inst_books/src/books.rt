//! The books of all participants as text, and read from text.
ghost use Rattle.std.specs.Prelude.{◌≡◌, ◌<◌, ◌++◌, true, length, map, IfOk, OnOk};
ghost use Rattle.std.specs.List.{list_all};
ghost use Rattle.inst_base.specs.Text.{is_code};
ghost use Rattle.inst_settings.specs.Settings.{participants, is_participant};
ghost use Rattle.inst_settings.specs.Lawful.{IsSettings};
ghost use Rattle.inst_command.specs.LineText.{code_numbered};
ghost use Rattle.inst_log.specs.Layout.{blocks};
ghost use Rattle.inst_books.specs.Events.{event_line, event_can_be_written};
ghost use Rattle.inst_books.specs.Laws.{event_has_form, AreBooksOf};
ghost use Rattle.inst_books.specs.Reading.{GivesBookUnlessMemory, event_of_line};
ghost use Rattle.inst_books.specs.Books.{all_events, books_text, books_of_text, no_books};
ghost use Rattle.inst_books.specs.Books.{books_with_event};
ghost use Rattle.inst_books.specs.Books.{AreWritable};
ghost use Rattle.inst_books.specs.inner.Books.{KeepsEvent};

use crate::write::append_event;
use crate::{BookFault, read_event};
use inst_base::mention;
use inst_command::Outcome;
use inst_journal::{Event, Journal};
use inst_json::code_text;
use inst_log::{first_line, whole_lines};
use inst_settings::Settings;
use std::alloc::{AllocError, Global};

/// Appends the lines of all books to `out`: one journal for each participant, in the order of their
/// numbers.
///
/// Each line has one event and ends with a newline.
///
/// # Errors
///
/// [`AllocError`] if `out` can't grow; it may end in a part of the text.
#[tactic(auto, unfolding(crate::specs::Books::books_text))]
pub fn append_books(
    settings: &Settings,
    journals: &[Journal],
    out: &mut Vec<u8>,
) -> Result<(), AllocError>
    requires one_each { length journals.now ≡ participants settings.now }
    requires writable { AreWritable settings.now (all_events journals.now) }
    ensures text { OnOk result (out.new.items
        ≡ out.old.items ++ books_text settings.now (all_events journals.now)) }

    // So the text is read as the books.
    ensures books { OnOk result (IsSettings settings.now →
        AreBooksOf settings.now (all_events journals.now)) }
{
    for who in 0..settings.participants() {
        append_book(
            settings,
            who as u8,
            journals[usize::from(who)].events(),
            out,
        )?;
    }
    Ok(())
}

/// Appends the lines of one participant's book.
#[tactic(auto, unfolding(crate::specs::Events::event_line))]
fn append_book(
    settings: &Settings,
    who: u8,
    events: &[Event],
    out: &mut Vec<u8>,
) -> Result<(), AllocError>
    requires book { is_participant settings.now who ≡ true }
    requires writable { list_all (event_can_be_written settings.now) events.now ≡ true }
    ensures text { OnOk result (out.new.items
        ≡ out.old.items ++ blocks (map (event_line settings.now who) events.now)) }
    ensures form { OnOk result (list_all event_has_form events.now ≡ true) }
    ensures code { is_code (code_numbered settings.now who) ≡ true }
{
    let book = code_text(settings, who);
    for event in events {
        append_event(settings, book, event, out)?;
        out.push(b'\n')?;
    }
    Ok(())
}

/// Returns the journals in a text, one for each participant in the order of their numbers.
///
/// The events of a book are in the order of its lines; lines of other books may be between them.
/// The result may be no books of a hub: ask [`can_open`](crate::can_open). Scans the text twice.
///
/// # Errors
///
/// - [`BookFault::BadLine`] if a line is no event or doesn't begin with a brace, or the last line
///   lacks its newline.
/// - [`BookFault::Memory`] on allocation failure.
#[tactic(auto, unfolding(crate::specs::Books::books_of_text))]
pub fn read_books(
    alloc: Global,
    settings: &Settings,
    text: &[u8],
) -> Result<Vec<Journal>, BookFault>
    ensures value { GivesBookUnlessMemory (λ journals. all_events journals.items) result
        (books_of_text settings.now text.now) }

    // So they can be written again.
    ensures one_each { IfOk result (λ journals. length journals.items ≡ participants settings.now) }
    ensures writable { IfOk result (λ journals.
        AreWritable settings.now (all_events journals.items)) }
{
    if whole_lines(text).len() != text.len() {
        return Err(BookFault::BadLine);
    }
    let mut journals = no_journals(alloc, settings)?;
    let mut rest = text;
    while let Some(len) = first_line(rest) {
        read_line(alloc, settings, &rest[..len - 1], &mut journals)?;
        rest = &rest[len..];
    }
    Ok(journals)
}

/// Appends the event of a line to its journal.
fn read_line(
    alloc: Global,
    settings: &Settings,
    line: &[u8],
    journals: &mut [Journal],
) -> Result<(), BookFault>
    requires one_each { length journals.old ≡ participants settings.now }
    requires writable { AreWritable settings.now (all_events journals.old) }
    ensures kept { KeepsEvent (event_of_line settings.now line.now) result
        (all_events journals.old) (all_events journals.new) }
    ensures writable { OnOk result (AreWritable settings.now (all_events journals.new)) }
{
    mention::<Outcome>();
    let (who, event) = read_event(alloc, settings, line)?;
    keep(journals, who, event)?;
    Ok(())
}

/// Returns journals without events, one for each participant.
fn no_journals(alloc: Global, settings: &Settings) -> Result<Vec<Journal>, AllocError>
    ensures { IfOk result (λ journals. all_events journals.items ≡ no_books settings.now) }
{
    let mut journals = Vec::new(alloc);
    for _ in 0..settings.participants() {
        journals.push(Journal::new(alloc))?;
    }
    Ok(journals)
}

/// Appends an event to the participant's journal.
fn keep(journals: &mut [Journal], who: u8, event: Event) -> Result<(), AllocError>
    requires { who < length journals.old }
    ensures { OnOk result (all_events journals.new
        ≡ books_with_event who event (all_events journals.old)) }
{
    journals[usize::from(who)].push(event)?;
    Ok(())
}
