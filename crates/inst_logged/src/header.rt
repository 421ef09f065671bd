//! The first lines of a log: its settings, and the books that its hub opened from.
ghost use Rattle.std.specs.Prelude.{◌≡◌, ◌<◌, ◌++◌, ◌∷◌, length, [], true, false, nat_lt, IfOk};
ghost use Rattle.std.specs.Prelude.{OnOk, IfSome, string_bytes};
ghost use Rattle.inst_settings.specs.Settings.{is_participant};
ghost use Rattle.inst_settings.specs.Lawful.{IsSettings};
ghost use Rattle.inst_command.specs.LineText.{code_numbered};
ghost use Rattle.inst_log.specs.Layout.{recovered_lines, at_rest, IsBatch, AreWholeLines};
ghost use Rattle.inst_log.specs.Escape.{raw_of};
ghost use Rattle.inst_world.specs.NextOpening.{CanOpenFrom};
ghost use Rattle.inst_chain.specs.Chain.{HasNoMark, IsHexadecimal};
ghost use Rattle.inst_logged.specs.Marking.{BeginsWithMarker};
ghost use Rattle.inst_logged.specs.Header.{lines_and_mark, header, header_from, CanBeginFrom};
ghost use Rattle.inst_logged.specs.Header.{header_line, first_origin, previous_field};
ghost use Rattle.inst_logged.specs.Header.{books_field, header_field, mode_field};
ghost use Rattle.inst_logged.specs.Header.{participants_field, mode_word, version_word};
ghost use Rattle.inst_logged.specs.Header.{quoted_codes, comma_if, quoted};

use crate::Version;
use inst_base::find_newline;
use inst_books::append_books;
use inst_chain::{Digest, Marker, has_mark, mark_lines};
use inst_journal::Journal;
use inst_json::code_text;
use inst_lines::Mode;
use inst_log::{close_batch, count_lines, push_line, whole_lines};
use inst_settings::Settings;
use std::alloc::{AllocError, Global};

/// The first lines of a log, with the marker for what follows.
#[derive(Drop)]
pub struct Heading {
    /// The first lines, with their mark if the log has marks, as a batch.
    pub batch: Vec<u8>,
    /// The marker that makes the next mark.
    pub marker: Marker,
}

/// The books that a hub opens from.
#[derive(Clone, Copy)]
pub struct OpeningBooks<'a> {
    /// The journals, one for each participant by number.
    pub journals: &'a [Journal],
    /// The last digest of the log before, if the log is to carry it.
    pub previous: Option<Digest>,
}

/// The members of a log's first line that depend on the books that its hub opened from.
#[derive(Clone, Copy)]
pub struct Origin {
    /// The number of lines of books that follow; `None` if the hub opened for the first time.
    pub books: Option<u64>,
    /// The last digest of the log before, if the line has one.
    pub previous: Option<Digest>,
}

impl Origin {
    /// Returns the members of a hub that opens for the first time: none.
    pub(crate) fn first() -> Origin
        ensures { result ≡ first_origin }
    {
        Origin {
            books: None,
            previous: None,
        }
    }
}

/// Returns the first lines of the log of a hub that opens for the first time: one line with the
/// version, the mode and the settings.
///
/// # Errors
///
/// [`AllocError`] if the lines can't be allocated.
pub fn first_batch(
    alloc: Global,
    version: Version,
    mode: Mode,
    settings: &Settings,
) -> Result<Heading, AllocError>
    ensures batch { IfOk result (λ heading. IsBatch heading.batch.items) }
    ensures items { IfOk result (λ heading.
        heading.batch.items ≡ header version mode settings.now) }
    ensures marker { IfOk result (λ heading.
        BeginsWithMarker version heading.batch.items heading.marker) }
{
    let lines = settings_line(alloc, version, mode, settings, Origin::first())?;
    close_heading(version, lines)
}

/// Returns the first lines of the log of a hub that opens from these books: the settings line, and
/// one line for each event of the books.
///
/// Requires journals from which a hub with these settings can open (`CanOpenFrom`), and a digest of
/// lower-case hexadecimal digits if there is one ([`Digest::is_hexadecimal`]).
///
/// # Errors
///
/// [`AllocError`] if the lines can't be allocated.
pub fn first_batch_from(
    alloc: Global,
    version: Version,
    mode: Mode,
    settings: &Settings,
    books: OpeningBooks<'_>,
) -> Result<Heading, AllocError>
    requires journals { CanOpenFrom settings.now books.journals.now }
    requires digest { IfSome books.previous IsHexadecimal }
    ensures batch { IfOk result (λ heading. IsBatch heading.batch.items) }
    ensures items { IfOk result (λ heading.
        heading.batch.items
        ≡ header_from version mode settings.now books.entry.journals.now books.entry.previous) }
    ensures marker { IfOk result (λ heading.
        BeginsWithMarker version heading.batch.items heading.marker) }
    // Then a start finds the log by these lines.
    ensures again { IfOk result (λ _. IsSettings settings.now →
        CanBeginFrom settings.now books.entry.journals.now) }
{
    let OpeningBooks { journals, previous } = books;
    let mut text = Vec::new(alloc);
    append_books(settings, journals, &mut text)?;
    let origin = Origin {
        books: Some(count_lines(&text) as u64),
        previous,
    };
    let mut lines = settings_line(alloc, version, mode, settings, origin)?;
    lines.extend_from_slice(whole_lines(&text))?;
    close_heading(version, lines)
}

/// Appends their mark, if the log has marks, and the closed byte to the first lines of a log.
fn close_heading(version: Version, mut lines: Vec<u8>) -> Result<Heading, AllocError>
    requires whole { AreWholeLines lines.items }
    requires some { 0 < length (recovered_lines lines.items) }
    ensures batch { IfOk result (λ heading. IsBatch heading.batch.items) }
    ensures items { IfOk result (λ heading.
        heading.batch.items ≡ at_rest (lines_and_mark version (recovered_lines lines.items))) }
    ensures marker { IfOk result (λ heading.
        BeginsWithMarker version heading.batch.items heading.marker) }
{
    // Never true: no line of settings or books is a mark.
    if has_mark(&lines) {
        return Err(AllocError);
    }
    let marker = mark_heading(version, &mut lines)?;
    close_batch(&mut lines)?;
    Ok(Heading {
        batch: lines,
        marker,
    })
}

/// Appends their mark to the first lines of a log, if it has marks. Returns the marker for the next
/// one.
fn mark_heading(version: Version, lines: &mut Vec<u8>) -> Result<Marker, AllocError>
    requires whole { AreWholeLines lines.old.items }
    requires plain { HasNoMark (recovered_lines lines.old.items) }
    ensures whole { OnOk result (AreWholeLines lines.new.items) }
    ensures lines { OnOk result (recovered_lines lines.new.items
        ≡ lines_and_mark version (recovered_lines lines.old.items)) }
    ensures marker { IfOk result (λ marker. BeginsWithMarker version lines.new.items marker) }
{
    let mut marker = Marker::new();
    match version {
        Version::One => Ok(marker),
        Version::Two => {
            mark_lines(&mut marker, lines)?;
            Ok(marker)
        }
    }
}

/// Returns the settings line with its newline, as a batch without a closed byte.
fn settings_line(
    alloc: Global,
    version: Version,
    mode: Mode,
    settings: &Settings,
    origin: Origin,
) -> Result<Vec<u8>, AllocError>
    ensures whole { IfOk result (λ batch. AreWholeLines batch.items) }
    ensures lines { IfOk result (λ batch.
        recovered_lines batch.items ≡ raw_of (header_line version mode settings.now origin) ∷ []) }
{
    let line = header_line(alloc, version, mode, settings, origin)?;
    batch_of(alloc, line.as_bytes())
}

/// Returns a batch of one line without a closed byte.
fn batch_of(alloc: Global, line: &[u8]) -> Result<Vec<u8>, AllocError>
    ensures whole { IfOk result (λ batch. AreWholeLines batch.items) }
    ensures lines { IfOk result (λ batch. recovered_lines batch.items ≡ raw_of line.now ∷ []) }
{
    // Never true: no name, number, code or digest has a newline.
    if find_newline(line).is_some() {
        return Err(AllocError);
    }
    let mut batch = Vec::new(alloc);
    push_line(&mut batch, line)?;
    Ok(batch)
}

/// Returns the settings line, compact JSON with the version, the mode, the settings and, after an
/// opening from books, the number of their lines and the last digest of the log before.
pub(crate) fn header_line(
    alloc: Global,
    version: Version,
    mode: Mode,
    settings: &Settings,
    origin: Origin,
) -> Result<String, AllocError>
    ensures { IfOk result (λ text.
        string_bytes text ≡ header_line version mode settings.now origin) }
{
    let mut text = String::new(alloc);
    push_header(&mut text, version, mode, settings, origin)?;
    Ok(text)
}

/// Appends the settings line to an empty text.
fn push_header(
    text: &mut String,
    version: Version,
    mode: Mode,
    settings: &Settings,
    origin: Origin,
) -> Result<(), AllocError>
    requires { string_bytes text.old ≡ [] }
    ensures { OnOk result (string_bytes text.new ≡ header_line version mode settings.now origin) }
{
    push_field(text, "{\"ahead\":", u64::from(settings.ahead()))?;
    push_field(text, ",\"base\":", settings.base())?;
    push_books(text, origin.books)?;
    push_field(text, ",\"ceiling\":", settings.ceiling())?;
    push_field(text, ",\"fundings\":", u64::from(settings.fundings()))?;
    push_field(text, ",\"limit\":", u64::from(settings.limit()))?;
    push_mode(text, mode)?;
    push_field(text, ",\"margin\":", u64::from(settings.margin()))?;
    push_participants(text, settings)?;
    push_field(text, ",\"places\":", u64::from(settings.places()))?;
    push_previous(text, origin.previous)?;
    text.push_str(",")?;
    text.push_str(version_word(version))
}

/// Appends a name and a number.
fn push_field(text: &mut String, name: &str, number: u64) -> Result<(), AllocError>
    ensures { OnOk result
        (string_bytes text.new ≡ string_bytes text.old ++ header_field name.now number) }
{
    text.push_str(name)?;
    let digits = number.to_string(*text.allocator())?;
    text.push_str(&digits)
}

/// Appends the number of lines of books, if there are books.
fn push_books(text: &mut String, books: Option<u64>) -> Result<(), AllocError>
    ensures { OnOk result (string_bytes text.new ≡ string_bytes text.old ++ books_field books) }
{
    match books {
        Some(count) => push_field(text, ",\"books\":", count),
        None => Ok(()),
    }
}

/// Appends the last digest of the log before, if there is one.
fn push_previous(text: &mut String, previous: Option<Digest>) -> Result<(), AllocError>
    ensures { OnOk result
        (string_bytes text.new ≡ string_bytes text.old ++ previous_field previous) }
{
    let Some(digest) = previous else {
        return Ok(());
    };
    // Never true: hexadecimal digits are UTF-8.
    let Ok(digits) = str::from_utf8(&digest.text) else {
        return Err(AllocError);
    };
    text.push_str(",\"previous\":\"")?;
    text.push_str(digits)?;
    text.push_str("\"")
}

fn push_mode(text: &mut String, mode: Mode) -> Result<(), AllocError>
    ensures { OnOk result (string_bytes text.new ≡ string_bytes text.old ++ mode_field mode) }
{
    text.push_str(",\"log\":\"")?;
    text.push_str(mode_word(mode))?;
    text.push_str("\"")
}

fn version_word(version: Version) -> &'static str
    ensures { result.now ≡ version_word version }
{
    match version {
        Version::One => "\"version\":1}",
        Version::Two => "\"version\":2}",
    }
}

fn mode_word(mode: Mode) -> &'static str
    ensures { result.now ≡ mode_word mode }
{
    match mode {
        Mode::Run => "run",
        Mode::Play => "play",
    }
}

fn push_participants(text: &mut String, settings: &Settings) -> Result<(), AllocError>
    ensures { OnOk result (string_bytes text.new
        ≡ string_bytes text.old ++ participants_field settings.now.codes) }
{
    text.push_str(",\"participants\":[")?;
    push_codes(text, settings)?;
    text.push_str("]")
}

/// Appends the codes of the participants, each in quotes, separated by commas.
fn push_codes(text: &mut String, settings: &Settings) -> Result<(), AllocError>
    ensures { OnOk result (string_bytes text.new
        ≡ string_bytes text.old ++ quoted_codes false settings.now.codes) }
{
    for number in 0..settings.participants() {
        push_code(text, settings, number as u8)?;
    }
    Ok(())
}

/// Appends a participant's code in quotes, with a comma before it unless it is the first.
fn push_code(text: &mut String, settings: &Settings, number: u8) -> Result<(), AllocError>
    requires { is_participant settings.now number ≡ true }
    ensures { OnOk result (string_bytes text.new
        ≡ string_bytes text.old
        ++ (comma_if (nat_lt 0 number) ++ quoted (code_numbered settings.now number))) }
{
    let code = code_text(settings, number);
    push_comma(text, number)?;
    text.push_str("\"")?;
    text.push_str(code)?;
    text.push_str("\"")
}

fn push_comma(text: &mut String, number: u8) -> Result<(), AllocError>
    ensures { OnOk result (string_bytes text.new
        ≡ string_bytes text.old ++ comma_if (nat_lt 0 number)) }
{
    if number > 0 {
        text.push_str(",")?;
    }
    Ok(())
}
