//! Checking lines without a hub.
ghost use Rattle.std.specs.Prelude.{◌≡◌, ◌⊎◌, ◌++◌, OnOk, IfOk, IfErr, IfSome, OnErr};
ghost use Rattle.std.specs.Io.KnownBytes.{Appends, IsAtEnd};
ghost use Rattle.inst_lines.specs.Check.{refusal_of, refusal_text, field_text, told_line};
ghost use Rattle.inst_lines.specs.Check.{check_report};
ghost use Rattle.inst_lines.specs.Check.{TellsPart};

use crate::limits::MOST_LINE_BYTES;
use crate::replies::ReplyBuffer;
use inst_base::{Fault, find_newline};
use inst_json::piece::{push_number, push_text};
use inst_json::{LineReader, Name, Refusal};
use inst_settings::Settings;
use std::alloc::{AllocError, Global};
use std::io::{ErrorKind, Read, Write};

/// Writes a report of the command lines that no hub with these settings accepts, whatever its
/// books.
///
/// Each such line gets one line: its number from 1, the fault, and the field that is missing or
/// wrong, as in `line 3: fault 4 BadAmount in "cents"`. Refusals that depend on a hub's books
/// aren't reported. The whole input is read and held in memory before anything is written. Blocks
/// while the reader or writer does.
///
/// # Errors
///
/// - `ReadFault` if a read fails, `Memory` on allocation failure: nothing was written.
/// - `WriteFault` if a write fails or takes no byte: a prefix of the report was written.
pub fn check_lines<R: Read, W: Write>(
    alloc: Global,
    settings: &Settings,
    reader: &mut R,
    writer: &mut W,
) -> Result<(), Fault>
    ensures end { OnOk result (IsAtEnd (R.remaining reader.new)) }
    ensures told { OnOk result (IfSome (R.remaining reader.old) (λ bytes.
        Appends (W.contents writer.old) (W.contents writer.new)
        (check_report settings.now bytes))) }
    ensures err { OnErr result (IfSome (R.remaining reader.old) (λ bytes.
        TellsPart settings.now bytes (W.contents writer.old) (W.contents writer.new))) }
    ensures only { IfErr result (λ fault. (fault ≡ Fault.Memory)
        ⊎ ((fault ≡ Fault.ReadFault) ⊎ (fault ≡ Fault.WriteFault))) }
{
    let mut input = Vec::new(alloc);
    read_all(reader, &mut input)?;
    let mut replies = ReplyBuffer::new(alloc);
    tell_lines(alloc, settings, &input, &mut replies.bytes)?;
    replies.deliver(writer)
}

/// Reads all that a reader has; `Memory` on allocation failure, `ReadFault` if a read fails.
fn read_all<R: Read>(reader: &mut R, input: &mut Vec<u8>) -> Result<(), Fault>
    ensures end { OnOk result (IsAtEnd (R.remaining reader.new)) }
    ensures bytes { OnOk result (IfSome (R.remaining reader.old) (λ bytes.
        input.new.items ≡ input.old.items ++ bytes)) }
    ensures only { IfErr result (λ fault. (fault ≡ Fault.Memory) ⊎ (fault ≡ Fault.ReadFault)) }
{
    match reader.read_to_end(input) {
        Ok(_) => Ok(()),
        Err(error) if error.kind() == ErrorKind::OutOfMemory => Err(Fault::Memory),
        Err(_) => Err(Fault::ReadFault),
    }
}

/// Appends the report of an input's lines.
fn tell_lines(
    alloc: Global,
    settings: &Settings,
    input: &[u8],
    out: &mut Vec<u8>,
) -> Result<(), AllocError>
    ensures { OnOk result (out.new.items ≡ out.old.items ++ check_report settings.now input.now) }
{
    let mut reader = LineReader::new(alloc);
    let mut number = 0;
    let mut rest = input;
    while let Some(len) = find_newline(rest) {
        number += 1;
        tell_line(&mut reader, settings, number, &rest[..len], out)?;
        rest = &rest[len + 1..];
    }
    if rest.is_empty() {
        return Ok(());
    }
    tell_line(&mut reader, settings, number + 1, rest, out)
}

/// Appends the report of one line, if it is refused.
fn tell_line(
    reader: &mut LineReader,
    settings: &Settings,
    number: usize,
    line: &[u8],
    out: &mut Vec<u8>,
) -> Result<(), AllocError>
    ensures { OnOk result (out.new.items
        ≡ out.old.items ++ told_line settings.now number line.now) }
{
    match refusal_of(reader, settings, line)? {
        Some(refusal) => push_refusal(number, refusal, out),
        None => Ok(()),
    }
}

/// Returns the refusal of a command line, whatever a hub's books are.
fn refusal_of(
    reader: &mut LineReader,
    settings: &Settings,
    line: &[u8],
) -> Result<Option<Refusal>, AllocError>
    ensures { IfOk result (λ refusal. refusal ≡ refusal_of settings.now line.now) }
{
    if line.len() > MOST_LINE_BYTES {
        return Ok(Some(Refusal::from(Fault::LineTooLong)));
    }
    match reader.read_blamed_command(settings, line) {
        Ok(_) => Ok(None),
        Err(refusal) if refusal.fault == Fault::Memory => Err(AllocError),
        Err(refusal) => Ok(Some(refusal)),
    }
}

/// Appends the report of a refusal.
fn push_refusal(number: usize, refusal: Refusal, out: &mut Vec<u8>) -> Result<(), AllocError>
    ensures { OnOk result (out.new.items ≡ out.old.items ++ refusal_text number refusal) }
{
    push_text(out, "line ")?;
    push_number(out, number as u64)?;
    push_text(out, ": fault ")?;
    push_number(out, u64::from(refusal.fault.number()))?;
    push_text(out, " ")?;
    push_text(out, refusal.fault.name())?;
    push_field(refusal.field, out)?;
    push_text(out, "\n")
}

/// Appends the name of the refused field, if there is one.
fn push_field(field: Option<Name>, out: &mut Vec<u8>) -> Result<(), AllocError>
    ensures { OnOk result (out.new.items ≡ out.old.items ++ field_text field) }
{
    let Some(field) = field else {
        return Ok(());
    };
    push_text(out, " in \"")?;
    push_text(out, field.as_str())?;
    push_text(out, "\"")
}
