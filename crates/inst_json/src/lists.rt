//! Replies that are lists: the entries of an inbox and the lines of a statement.
ghost use Rattle.std.specs.Prelude.{◌≡◌, ◌++◌, ◌+◌, ◌-◌, ◌≤◌, true, length, nat_lt, decimal, OnOk};
ghost use Rattle.std.specs.List.{list_all};
ghost use Rattle.serde_json.specs.Data.{string};
ghost use Rattle.serde_json.specs.Written.{compact_text, comma_if};
ghost use Rattle.inst_settings.specs.Settings.{is_participant};
ghost use Rattle.inst_command.specs.LineText.{line_fits, line_text};
ghost use Rattle.inst_json.specs.Laws.{entry_has_words};
ghost use Rattle.inst_json.specs.inner.Row.{row_with_text};
ghost use Rattle.inst_json.specs.Replies.{entry_data, inbox_data, statement_data};

use crate::piece::{push_number, push_text};
use crate::reply::code_text;
use inst_command::{Entry, Line, kind_name, other_code};
use inst_settings::Settings;
use itoa::write_digits;
use std::alloc::AllocError;

/// Appends an inbox reply.
pub(crate) fn append_inbox(
    out: &mut Vec<u8>,
    settings: &Settings,
    entries: &[Entry],
) -> Result<(), AllocError>
    requires { list_all (λ entry. is_participant settings.now entry.from) entries.now ≡ true }
    ensures text { OnOk result (out.new.items
        ≡ out.old.items ++ compact_text (inbox_data settings.now entries.now)) }
    ensures words { OnOk result (list_all (entry_has_words settings.now) entries.now ≡ true) }
{
    push_text(out, "{\"entries\":[")?;
    for (index, entry) in entries.iter().enumerate() {
        append_comma(out, index)?;
        append_entry(out, settings, entry)?;
    }
    push_text(out, "],\"reply\":\"inbox\"}")
}

/// Appends the comma before the item with this index; none before the first.
fn append_comma(out: &mut Vec<u8>, index: usize) -> Result<(), AllocError>
    ensures { OnOk result (out.new.items ≡ out.old.items ++ comma_if (nat_lt 0 index)) }
{
    if index > 0 {
        push_text(out, ",")?;
    }
    Ok(())
}

/// Appends an entry of an inbox.
fn append_entry<'a>(
    out: &mut Vec<u8>,
    settings: &'a Settings,
    entry: &'a Entry,
) -> Result<(), AllocError>
    requires { is_participant settings.now entry.now.from ≡ true }
    ensures text { OnOk result (out.new.items
        ≡ out.old.items ++ compact_text (entry_data settings.now entry.now)) }
    ensures words { OnOk result (entry_has_words settings.now entry.now ≡ true) }
{
    let cents = entry.cents.get();
    let deadline = entry.deadline.millis(settings.base());
    let from = code_text(settings, entry.from);
    let id = entry.id.text();
    push_text(out, "{\"cents\":")?;
    push_number(out, cents)?;
    push_text(out, ",\"deadline\":")?;
    push_number(out, deadline)?;
    push_text(out, ",\"from\":\"")?;
    push_text(out, from)?;
    push_text(out, "\",\"id\":\"")?;
    push_text(out, id)?;
    push_text(out, "\"}")
}

/// Appends a statement reply.
pub(crate) fn append_statement(
    out: &mut Vec<u8>,
    settings: &Settings,
    lines: &[Line],
) -> Result<(), AllocError>
    requires { list_all (line_fits settings.now) lines.now ≡ true }
    ensures { OnOk result (out.new.items
        ≡ out.old.items ++ compact_text (statement_data settings.now lines.now)) }
{
    push_text(out, "{\"lines\":[")?;
    for (index, line) in lines.iter().enumerate() {
        append_comma(out, index)?;
        append_line(out, settings, line)?;
    }
    push_text(out, "],\"reply\":\"statement\"}")
}

/// Appends a statement line as a JSON string: its columns between quotation marks.
fn append_line(out: &mut Vec<u8>, settings: &Settings, line: &Line) -> Result<(), AllocError>
    requires { line_fits settings.now line.now ≡ true }
    ensures { OnOk result (out.new.items
        ≡ out.old.items ++ compact_text (string (line_text settings.now line.now))) }
{
    let mut row = [b' '; 93];
    row[0] = b'"';
    row[92] = b'"';
    put_number(&mut row, 7, u64::from(line.number));
    put_text(&mut row, 8, kind_name(line.kind));
    put_text(&mut row, 12, other_code(settings, line.other));
    put_text(&mut row, 24, line.id.text());
    put_number(&mut row, 71, line.cents.get());
    put_number(&mut row, 92, line.position);
    out.extend_from_slice(&row)
}

/// Writes a text into the row from this column on.
#[inline(always)]
fn put_text(row: &mut [u8; 93], column: usize, text: &str)
    requires { column + length text.now ≤ 93 }
    ensures { row.new ≡ row_with_text row.old column text.now }
{
    row[column..column + text.len()].copy_from_slice(text.as_bytes());
}

/// Writes the digits of a number into the row so that they end before this column.
#[inline(always)]
fn put_number(row: &mut [u8; 93], end: usize, number: u64)
    requires { (length (decimal number) ≤ end) × (end ≤ 93) }
    ensures { row.new ≡ row_with_text row.old (end - length (decimal number)) (decimal number) }
{
    write_digits(number, row, end);
}
