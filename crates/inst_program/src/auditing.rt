//! The task `audit`: logs that follow one another.
ghost use Rattle.std.specs.Prelude.{◌≡◌, ◌++◌, List, ℕ, IfErr, IfOk, IfSome, IsTrue, None, OnOk, map, string_bytes, []};
ghost use Rattle.sqlite_disk.specs.Memory.{memory_bytes, memory_is_usable};
ghost use Rattle.inst_world.specs.HasRun.{world_settings};
ghost use Rattle.inst_world.specs.NextOpening.{AreClosedBooks, CanOpenFrom};
ghost use Rattle.inst_log.specs.Disks.{IsJustOpened};
ghost use Rattle.inst_logged.specs.Refused.{IsLogTaken};
ghost use Rattle.inst_logged.specs.declared.version.Version.TheVariants.{Two};
ghost use Rattle.inst_program.specs.Files.{IfKept, IsUntouched};
ghost use Rattle.inst_program.specs.Auditing.{AreAudited, HasAuditedAll, IsClosedAs, IsNextLog};
ghost use Rattle.inst_program.specs.Auditing.{audit_line, digest_part};
ghost use Rattle.inst_program.specs.inner.Auditing.{HasClosedBooks, IsAudited};
ghost use Rattle.inst_program.specs.Keeping.{lines_of_next};
ghost use Rattle.inst_program.specs.inner.Changing.{hub_closed, hub_opening};
ghost use Rattle.inst_program.specs.inner.ExitReason.{status_of_ending};

use crate::carrying::{beginning_of, close_on, succeed};
use crate::changing::{Closed, Opening};
use crate::exit_reason::{ExitReason, told_ending};
use crate::logs::Logs;
use crate::showing::{LogContents, contents_of, is_hexadecimal};
use inst_base::Fault;
use inst_chain::Digest;
use inst_log::LogError;
use inst_logged::{LoggedError, NewHub, OpeningBooks, Version};
use inst_options::{LogFault, SettingChanges};
use inst_settings::Settings;
use sqlite_disk::{Disk, Memory};
use std::alloc::{AllocError, Global};
use std::io::{self, Read, Write};

/// A log that was audited: its contents, and its hub, closed after its lines.
#[derive(Drop)]
struct AuditedLog {
    contents: LogContents,
    closed: Closed,
}

/// Audits the logs of these names, the oldest first, and prints one line for each: each has right
/// marks and the replies of a hub, and each but the first begins as `next` begins one from the log
/// before it. Only reads the logs, each into memory. Prints on `errors` which one is refused.
///
/// # Errors
///
/// Those of a start with a log; `BrokenChain` if a log doesn't begin so. Nothing is written to
/// `writer`, unless it fails.
pub(crate) fn audit<L: Logs, W: Write, E: Write>(
    logs: &mut L,
    alloc: Global,
    paths: &[&str],
    writer: &mut W,
    errors: &mut E,
) -> Result<(), ExitReason>
    ensures ok { OnOk result (IfKept (L.files logs.new)
        (HasAuditedAll (L.files logs.old).bytes (map (λ path. path.now) paths.now)
        (W.contents writer.old) (W.contents writer.new))) }
    ensures err { IfErr result (λ ending. status_of_ending ending ≡ 2 → writer.new ≡ writer.old) }
    ensures untouched { IsUntouched (L.files logs.old) (L.files logs.new) }
{
    let text = audited(logs, alloc, paths, errors)?;
    match write!(writer, "{text}") {
        Ok(()) => Ok(()),
        Err(_) => Err(ExitReason::Fault(Fault::WriteFault)),
    }
}

/// Returns the lines of the audit.
fn audited<L: Logs, E: Write>(
    logs: &mut L,
    alloc: Global,
    paths: &[&str],
    errors: &mut E,
) -> Result<String, ExitReason>
    ensures audited { IfOk result (λ text. IfKept (L.files logs.new)
        (AreAudited (L.files logs.old).bytes (map (λ path. path.now) paths.now)
        (string_bytes text))) }
    ensures untouched { IsUntouched (L.files logs.old) (L.files logs.new) }
{
    let mut text = String::new(alloc);
    let mut before = None;
    for path in paths {
        let log = audit_log(logs, alloc, path, before, errors)?;
        push_line(&mut text, path, &log.contents)?;
        before = Some(log);
    }
    Ok(text)
}

/// Appends the line of a log.
fn push_line(text: &mut String, path: &str, contents: &LogContents) -> Result<(), AllocError>
    ensures { OnOk result (string_bytes text.new
        ≡ string_bytes text.old ++ audit_line path.now contents.now.lines contents.now.digest) }
{
    let lines = contents.lines.to_string(*text.allocator())?;
    text.push_str(path)?;
    text.push_str(": lines ")?;
    text.push_str(&lines)?;
    push_digest(text, contents.digest)?;
    text.push_str("\n")
}

/// Appends a digest, if there is one.
fn push_digest(text: &mut String, digest: Option<Digest>) -> Result<(), AllocError>
    ensures { OnOk result (string_bytes text.new ≡ string_bytes text.old ++ digest_part digest) }
{
    if let Some(digest) = digest {
        let digits = String::from_utf8_lossy(*text.allocator(), &digest.text)?;
        text.push_str(", digest ")?;
        text.push_str(&digits)?;
    }
    Ok(())
}

/// Audits the log of this name, which follows the one before it, if there is one.
fn audit_log<L: Logs, E: Write>(
    logs: &mut L,
    alloc: Global,
    path: &str,
    before: Option<AuditedLog>,
    errors: &mut E,
) -> Result<AuditedLog, ExitReason>
    requires books { IfSome before HasClosedBooks }
    ensures books { IfOk result HasClosedBooks }
    ensures audited { IfOk result (λ log. IfKept (L.files logs.new)
        (IsAudited ((L.files logs.old).bytes path.now) log)) }
    ensures follows { IfOk result (λ log. IfKept (L.files logs.new)
        (IfSome before (λ one. (file : List ℕ) → IsAudited file one →
        IsNextLog file ((L.files logs.old).bytes path.now)))) }
    ensures untouched { IsUntouched (L.files logs.old) (L.files logs.new) }
{
    let contents = contents_of(logs, alloc, path, errors)?;
    let disk = disk_of(logs, alloc, path)?;
    match close_log(alloc, before, disk, errors) {
        Ok(closed) => Ok(AuditedLog { contents, closed }),
        Err(ending) => {
            let _ = writeln!(errors, "the log {path} is refused");
            Err(ending)
        }
    }
}

/// Closes the hub of the log on this disk, which follows the one before it, if there is one.
fn close_log<E: Write>(
    alloc: Global,
    before: Option<AuditedLog>,
    disk: Memory,
    errors: &mut E,
) -> Result<Closed, ExitReason>
    requires before { IfSome before HasClosedBooks }
    requires opened { IsJustOpened ⟦<Memory as Disk>⟧ disk }
    ensures closed { IfOk result (λ closed. IsClosedAs (memory_bytes disk) (hub_closed closed)) }
    ensures books { IfOk result (λ closed.
        AreClosedBooks (world_settings closed.runner.world) closed.journals.items) }
    ensures follows { IfOk result (λ _. IfSome before (λ one. (file : List ℕ) →
        IsAudited file one → IsNextLog file (memory_bytes disk))) }
{
    match before {
        None => close_on(alloc, None, disk, errors).0,
        Some(before) => close_next(alloc, before, disk, errors),
    }
}

/// Returns a disk in memory with the bytes of the log of this name.
fn disk_of<L: Logs>(logs: &mut L, alloc: Global, path: &str) -> Result<Memory, ExitReason>
    ensures bytes { IfOk result (λ disk. IfKept (L.files logs.new)
        (memory_bytes disk ≡ (L.files logs.old).bytes path.now)) }
    ensures opened { IfOk result (λ disk. IsJustOpened ⟦<Memory as Disk>⟧ disk) }
    ensures untouched { IsUntouched (L.files logs.old) (L.files logs.new) }
{
    let mut reader = logs.read(path)?;
    let mut bytes = Vec::new(alloc);
    let mut disk = Memory::new(alloc);
    let read = reader.read_to_end(&mut bytes);
    if read.is_err() || put(&mut disk, &bytes).is_err() {
        return Err(ExitReason::Log(LogFault::DiskFault));
    }
    Ok(disk)
}

/// Writes these bytes to an empty disk, and syncs it.
fn put(disk: &mut Memory, bytes: &[u8]) -> io::Result<()>
    requires empty { memory_bytes disk.old ≡ [] }
    requires usable { IsTrue (memory_is_usable disk.old) }
    ensures same { OnOk result (memory_bytes disk.new ≡ bytes.now) }
    ensures opened { OnOk result (IsJustOpened ⟦<Memory as Disk>⟧ disk.new) }
{
    disk.write_at(0, bytes)?;
    disk.sync()?;
    Ok(())
}

/// Closes the hub of the log on this disk, if the log begins as `next` begins one from the log
/// before it, under its own settings.
///
/// # Errors
///
/// `BrokenChain` if it doesn't; others as for a start with a log.
fn close_next<E: Write>(
    alloc: Global,
    before: AuditedLog,
    mut disk: Memory,
    errors: &mut E,
) -> Result<Closed, ExitReason>
    requires before { HasClosedBooks before }
    requires opened { IsJustOpened ⟦<Memory as Disk>⟧ disk }
    ensures closed { IfOk result (λ closed. IsClosedAs (memory_bytes disk) (hub_closed closed)) }
    ensures books { IfOk result (λ closed.
        AreClosedBooks (world_settings closed.runner.world) closed.journals.items) }
    ensures follows { IfOk result (λ _. (file : List ℕ) → IsAudited file before →
        IsNextLog file (memory_bytes disk)) }
{
    let AuditedLog { contents, closed } = before;
    let Some(header) = beginning_of(alloc, &mut disk)? else {
        return Err(ExitReason::Log(LogFault::NoLog));
    };
    let positions = header.previous.is_some();
    let previous = if positions { contents.digest } else { None };
    let codes = codes_text(alloc, &header.settings)?;
    let changes = all_changes(&header.settings, &codes);
    match succeed(alloc, closed, positions, &changes, errors) {
        Ok(next) => close_as(alloc, &next, previous, disk, errors),
        Err(ExitReason::Fault(Fault::Memory)) => Err(ExitReason::Fault(Fault::Memory)),
        Err(_) => Err(ExitReason::BrokenChain),
    }
}

/// Closes the hub of the log on this disk as one that opens from these books; its first line has the
/// digest of the log before, if one is given.
fn close_as<E: Write>(
    alloc: Global,
    next: &Opening,
    previous: Option<Digest>,
    disk: Memory,
    errors: &mut E,
) -> Result<Closed, ExitReason>
    requires can { CanOpenFrom next.now.settings next.now.journals.items }
    requires opened { IsJustOpened ⟦<Memory as Disk>⟧ disk }
    ensures closed { IfOk result (λ closed. IsClosedAs (memory_bytes disk) (hub_closed closed)) }
    ensures books { IfOk result (λ closed.
        AreClosedBooks (world_settings closed.runner.world) closed.journals.items) }
    ensures taken { IfOk result (λ _. IsLogTaken Two
        (lines_of_next (hub_opening next.now) previous) None None (memory_bytes disk)) }
{
    if !is_hexadecimal(previous) {
        return Err(ExitReason::BrokenChain);
    }
    let mode = next.mode;
    let books = OpeningBooks {
        journals: &next.journals,
        previous,
    };
    let hub = NewHub::open_from(alloc, Version::Two, mode, &next.settings, books)?;
    let mut hub = hub.with_disk(alloc, disk);
    let books = hub.close(None);
    let (runner, _) = hub.into_parts();
    match books {
        Ok(journals) => Ok(Closed {
            mode,
            runner,
            journals,
        }),
        Err(LoggedError::Log(LogError::OtherSettings)) => Err(ExitReason::BrokenChain),
        Err(error) => Err(told_ending(error, errors)),
    }
}

/// Returns these settings as changes.
fn all_changes<'a>(settings: &Settings, codes: &'a str) -> SettingChanges<'a> {
    SettingChanges {
        participants: Some(codes),
        places: Some(u64::from(settings.places())),
        fundings: Some(u64::from(settings.fundings())),
        limit: Some(u64::from(settings.limit())),
        margin: Some(u64::from(settings.margin())),
        ahead: Some(u64::from(settings.ahead())),
        ceiling: Some(settings.ceiling()),
        base: Some(settings.base()),
    }
}

/// Returns the codes of the participants with commas between them.
fn codes_text(alloc: Global, settings: &Settings) -> Result<String, AllocError> {
    let mut text = String::new(alloc);
    for code in settings.codes() {
        if !text.is_empty() {
            text.push_str(",")?;
        }
        text.push_str(code.text())?;
    }
    Ok(text)
}
