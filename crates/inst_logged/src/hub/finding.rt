//! Finding the hub of a log from its first lines.
ghost use Rattle.std.specs.Prelude.{◌≡◌, ◌≤◌, ◌++◌, List, [], ℕ, length, take, true, IsTrue, IfErr};
ghost use Rattle.std.specs.Prelude.{IfOk, IfSome, None, Some, option_map};
ghost use Rattle.inst_journal.specs.History.{History};
ghost use Rattle.inst_log.specs.Layout.{recovered_lines};
ghost use Rattle.inst_world.specs.NextOpening.{CanOpenFrom};
ghost use Rattle.inst_books.specs.Books.{all_events, books_text};
ghost use Rattle.inst_books.specs.declared.fault.BookFault.TheVariants.{Memory};
ghost use Rattle.inst_chain.specs.Chain.{mark_of, IsHexadecimal};
ghost use Rattle.inst_logged.specs.Header.{header, lines_of_books, CanBeginFrom};
ghost use Rattle.inst_logged.specs.Finding.{FindsLog, Unrefused};
ghost use Rattle.inst_logged.specs.Logged.{IsUnbegun, HasBegun};
ghost use Rattle.inst_logged.specs.Refused.{IsRefused};
ghost use Rattle.inst_log.specs.Disks.{HasKeptFaith, IsOnlyRead};
ghost use Rattle.inst_logged.specs.inner.Books.{HasBooks, FindsBooks};
ghost use Rattle.inst_logged.specs.declared.error.LoggedError.TheVariants.{Books};
ghost use Rattle.inst_logged.specs.declared.version.Version.TheVariants.{Two};

use super::NewHub;
use crate::log_header::{known_origin, version_of};
use crate::{LoggedError, OpeningBooks, Version};
use inst_books::{BookFault, can_open, read_books};
use inst_chain::{Digest, Marker, Prefix};
use inst_journal::Journal;
use inst_lines::Mode;
use inst_log::{LogError, count_lines, lines_len, read_lines};
use inst_settings::Settings;
use sqlite_disk::Disk;
use std::alloc::Global;

impl NewHub {
    /// Returns the hub of the log on this disk: one that opens from the books after the log's
    /// settings, or for the first time if there are none. The version is the one in the log's first
    /// line.
    ///
    /// Reads the log's first lines, with its books, and writes nothing. Requires a disk without a
    /// failed sync.
    ///
    /// # Errors
    ///
    /// - `Log(NoLog)` if the first line is JSON that has neither `log` nor `version`, so the file
    ///   can't be a log.
    /// - `Books` if the lines after the settings aren't books from which a hub of these settings
    ///   can open; `Damaged` instead if the mark after them is missing or wrong. The mark of other
    ///   books is verified when the log is opened.
    /// - `Log(Disk)` if the disk fails, `Log(Memory)` if an allocation fails.
    pub fn of_log<D: Disk>(
        alloc: Global,
        mode: Mode,
        settings: &Settings,
        disk: &mut D,
    ) -> Result<NewHub, LoggedError>
        requires usable { IsTrue (D.Disk.is_usable disk.old) }
        ensures begun { IfOk result (λ hub.
            HasBegun hub.version mode settings.now hub.heading.batch.items hub.answers
            × IsUnbegun hub.version hub.heading.batch.items hub.heading.marker hub.intake) }
        // A log without a line gets marks and no books.
        ensures first { IfOk result (λ hub. HasKeptFaith D.Disk disk.new →
            recovered_lines (D.Disk.seen disk.old) ≡ []
            → (hub.version ≡ Two) × (hub.heading.batch.items ≡ header Two mode settings.now)) }
        ensures found { HasKeptFaith D.Disk disk.new →
            FindsLog mode settings.now (D.Disk.seen disk.old) result }
        ensures new { HasKeptFaith D.Disk disk.new → recovered_lines (D.Disk.seen disk.old) ≡ [] →
            IfErr result (λ error. ¬ IsRefused error) }
        ensures read { IsOnlyRead D.Disk disk.old disk.new }
    {
        let first = read_lines(alloc, disk, 1)?;
        let Some(version) = version_of(alloc, &first)? else {
            return Err(LoggedError::Log(LogError::NoLog));
        };
        let head = LogHead {
            version,
            line: &first,
        };
        match books_on(alloc, mode, settings, head, disk)? {
            Some(found) => {
                let books = OpeningBooks {
                    journals: &found.journals,
                    previous: found.previous,
                };
                Ok(NewHub::open_from(alloc, version, mode, settings, books)?)
            }
            None => Ok(NewHub::open(alloc, version, mode, settings)?),
        }
    }
}

/// The first line of a log, and its version.
#[derive(Clone, Copy)]
struct LogHead<'a> {
    version: Version,
    line: &'a [u8],
}

/// The books after a log's first line, with the digest in it.
#[derive(Drop)]
struct LogBooks {
    journals: Vec<Journal>,
    previous: Option<Digest>,
}

/// Returns the books after the log's first line, if there are any.
fn books_on<D: Disk>(
    alloc: Global,
    mode: Mode,
    settings: &Settings,
    head: LogHead<'_>,
    disk: &mut D,
) -> Result<Option<LogBooks>, LoggedError>
    requires usable { IsTrue (D.Disk.is_usable disk.old) }
    ensures books { IfOk result (λ found. IfSome found (λ books.
        CanOpenFrom settings.now books.journals.items × IfSome books.previous IsHexadecimal)) }
    ensures none { head.entry.line.now ≡ [] → Unrefused (λ books. books ≡ None) result }
    ensures found { HasKeptFaith D.Disk disk.new →
        FindsBooks (λ books. (all_events books.journals.items, books.previous)) head.entry.version
        mode settings.now head.entry.line.now (D.Disk.seen disk.old) result }
    ensures read { IsOnlyRead D.Disk disk.old disk.new }
{
    let LogHead { version, line } = head;
    let origin = known_origin(alloc, version, mode, settings, line)?;
    let Some(count) = origin.books else {
        return Ok(None);
    };
    let text = read_lines(alloc, disk, count.saturating_add(2))?;
    match journals_in(alloc, version, settings, &text, count)? {
        Some(journals) => Ok(Some(LogBooks {
            journals,
            previous: origin.previous,
        })),
        None => Ok(None),
    }
}

/// Returns the journals of the `count` lines of books after the first line of this text; none if
/// the text has fewer lines.
///
/// # Errors
///
/// `Books`, or `Damaged` if the mark of the lines doesn't follow them in a log with marks.
fn journals_in(
    alloc: Global,
    version: Version,
    settings: &Settings,
    text: &[u8],
    count: u64,
) -> Result<Option<Vec<Journal>>, LoggedError>
    ensures journals { IfOk result (λ books.
        IfSome books (λ journals. CanOpenFrom settings.now journals.items)) }
    ensures found { (journals : List History) → CanBeginFrom settings.now journals →
        HasBooks version settings.now journals text.now
        → count ≡ length (lines_of_books settings.now journals)
        → Unrefused (λ found.
        option_map (λ books. all_events books.items) found ≡ Some (all_events journals)) result }
{
    let begin = lines_len(text, 1);
    let books = &text[begin..];
    let end = lines_len(books, count);
    if (count_lines(&books[..end]) as u64) < count {
        return Ok(None);
    }
    match journals_of(alloc, settings, &books[..end]) {
        Ok(journals) => Ok(Some(journals)),
        Err(LoggedError::Books) => Err(bad_books(version, text, begin + end)),
        Err(error) => Err(error),
    }
}

/// Returns the error for a text that isn't valid books: `Damaged` if the log has marks and the mark
/// of the first `end` bytes doesn't follow them, else `Books`.
fn bad_books(version: Version, text: &[u8], end: usize) -> LoggedError
    requires { end ≤ length text.now }
    ensures { (rest : List ℕ) →
        text.now ≡ take end text.now ++ (mark_of (take end text.now) ++ rest) → result ≡ Books }
{
    if version == Version::Two && !has_mark_at(text, end) {
        return LoggedError::Damaged(Prefix { lines: 0, bytes: 0 });
    }
    LoggedError::Books
}

/// Returns `true` if the mark of the first `end` bytes follows them.
fn has_mark_at(text: &[u8], end: usize) -> bool
    requires { end ≤ length text.now }
    ensures { (rest : List ℕ) →
        text.now ≡ take end text.now ++ (mark_of (take end text.now) ++ rest) → result ≡ true }
{
    let mut marker = Marker::new();
    marker.add(&text[..end]);
    let mark = marker.mark();
    text[end..].starts_with(&mark)
}

/// Returns the journals in the text of books, if a hub can open from them.
fn journals_of(alloc: Global, settings: &Settings, text: &[u8]) -> Result<Vec<Journal>, LoggedError>
    ensures journals { IfOk result (λ journals. CanOpenFrom settings.now journals.items) }
    ensures found { (journals : List History) → CanBeginFrom settings.now journals →
        text.now ≡ books_text settings.now (all_events journals)
        → Unrefused (λ found. all_events found.items ≡ all_events journals) result }
{
    let journals = read_books(alloc, settings, text).map_err(unread)?;
    if !can_open(alloc, settings, &journals)? {
        return Err(LoggedError::Books);
    }
    Ok(journals)
}

/// Returns the error for books that couldn't be read.
fn unread(fault: BookFault) -> LoggedError
    ensures { fault ≡ Memory → ¬ IsRefused result }
{
    match fault {
        BookFault::BadLine => LoggedError::Books,
        BookFault::Memory => LoggedError::Log(LogError::Memory),
    }
}
