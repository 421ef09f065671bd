//! The tasks `run` and `play` with a log.
ghost use Rattle.std.specs.Prelude.{◌≡◌, ◌<◌, [], true, length, option_map, IsTrue, IfOk, OnOk};
ghost use Rattle.std.specs.Prelude.{IfErr, MatchBool};
ghost use Rattle.inst_log.specs.Layout.{recovered_lines};
ghost use Rattle.inst_logged.specs.Header.{header};
ghost use Rattle.inst_logged.specs.Logged.{HasBegun, IsUnbegun};
ghost use Rattle.inst_logged.specs.Refused.{IsRefused};
ghost use Rattle.inst_log.specs.Disks.{HasKeptFaith, IsJustOpened, HasSameFile, IsOnlyRead};
ghost use Rattle.inst_logged.specs.Streams.{streams};
ghost use Rattle.inst_logged.specs.declared.version.Version.TheVariants.{Two};
ghost use Rattle.inst_program.specs.Files.{AllAreIn, IfKept, IsUntouched, OthersStay, change_of};
ghost use Rattle.inst_program.specs.Files.{change_on};
ghost use Rattle.inst_program.specs.Logs.{IsLogsError};
ghost use Rattle.inst_program.specs.Keeping.{AsksFor, KeepsLines, kept_run};
ghost use Rattle.inst_program.specs.inner.ExitReason.{status_of_ending, IsUnkept};
ghost use Rattle.inst_program.specs.inner.Finding.{FindsGood};

use crate::console::Console;
use crate::exit_reason::{ExitReason, told_ending};
use crate::logs::{Logs, LogsError};
use crate::summary::sum_up;
use inst_agenda::Runner;
use inst_chain::Digest;
use inst_lines::Mode;
use inst_log::{LogError, lines_len, read_lines};
use inst_logged::{LoggedError, NewHub, Version, first_batch, read_beginning, version_of};
use inst_options::{LogFault, LogOptions, excerpt};
use inst_settings::Settings;
use sqlite_disk::Disk;
use std::alloc::{AllocError, Global};
use std::io::{Read, Write};

/// A run or a play: the mode, the settings of the hub, and whether a summary is printed.
#[derive(Drop)]
pub(crate) struct LineTask {
    pub(crate) mode: Mode,
    pub(crate) settings: Settings,
    pub(crate) sums: bool,
}

/// The options of a log, and the digest that it must contain.
#[derive(Drop)]
struct WantedLog<'a> {
    options: LogOptions<'a>,
    digest: Option<Digest>,
}

/// Answers the lines of the console, each after it is synced to the log, and prints a summary if
/// the task asks for one. If the log has other settings, prints both on `errors`; if it is damaged,
/// how far it is right.
///
/// # Errors
/// `NoLog` if the log must exist and there is no file of that name, or one without a line; no file
/// is made. Others as of `LoggedHub::run`.
pub(crate) fn keep<L: Logs, R: Read + Drop, W: Write + Drop, E: Write + Drop>(
    logs: &mut L,
    alloc: Global,
    task: &LineTask,
    log: LogOptions<'_>,
    console: &mut Console<R, W, E>,
) -> Result<(), ExitReason>
    requires none_out { AllAreIn (L.files logs.old) }
    ensures ok { OnOk result (KeepsLines (kept_run task.now.mode task.now.settings log.entry)
        (streams R.Read W.Write console.old.reader console.new.reader console.old.writer
        console.new.writer)
        (IsTrue (L.files logs.new).is_clean)
        (change_of (L.files logs.old) (L.files logs.new) log.entry.path.now)) }
    ensures err { IfErr result (λ ending. IsUnkept
        (kept_run task.now.mode task.now.settings log.entry)
        (streams R.Read W.Write console.old.reader console.new.reader console.old.writer
        console.new.writer)
        (L.files logs.old).mixes
        ((L.files logs.new).in_use log.entry.path.now) (IsTrue (L.files logs.new).is_clean)
        (change_of (L.files logs.old) (L.files logs.new) log.entry.path.now)
        (status_of_ending ending)) }
    ensures others { OthersStay (L.files logs.old) (L.files logs.new) log.entry.path.now }
    ensures all_in { AllAreIn (L.files logs.new) }
{
    if is_missing(logs, log)? {
        return Err(ExitReason::Log(LogFault::NoLog));
    }
    let wanted = wanted_of(log.digest)?;
    let disk = logs.open(log.path)?;
    let wanted = WantedLog {
        options: log,
        digest: wanted,
    };
    let (outcome, disk) = keep_on(alloc, task, wanted, disk, console);
    logs.close(disk);
    let mut runner = outcome?;
    sum_up(task, &mut runner, None, &mut console.errors);
    Ok(())
}

/// Returns `true` if the log must exist and there is no file of its name.
fn is_missing<L: Logs>(logs: &mut L, log: LogOptions<'_>) -> Result<bool, LogsError>
    ensures missing { IfOk result (λ missing. missing ≡ true → (log.entry.resume ≡ true)
        × IfKept (L.files logs.new) ((L.files logs.new).bytes log.entry.path.now ≡ [])) }
    ensures cause { IfErr result (IsLogsError ⊥ ⊥) }
    ensures untouched { IsUntouched (L.files logs.old) (L.files logs.new) }
{
    if !log.resume {
        return Ok(false);
    }
    let is_there = logs.has(log.path)?;
    Ok(!is_there)
}

/// Answers the lines of the console, each after it is synced to the log on this disk, and returns
/// the disk.
fn keep_on<D: Disk + Drop, R: Read + Drop, W: Write + Drop, E: Write + Drop>(
    alloc: Global,
    task: &LineTask,
    wanted: WantedLog<'_>,
    mut disk: D,
    console: &mut Console<R, W, E>,
) -> (Result<Runner, ExitReason>, D)
    requires wanted { AsksFor (option_map (λ d. d.now) wanted.options.digest) wanted.digest }
    requires opened { IsJustOpened D.Disk disk }
    ensures ok { OnOk result.0 (KeepsLines
        (kept_run task.now.mode task.now.settings wanted.entry.options)
        (streams R.Read W.Write console.old.reader console.new.reader console.old.writer
        console.new.writer)
        (HasKeptFaith D.Disk result.1) (change_on D.Disk disk result.1)) }
    ensures err { IfErr result.0 (λ ending. IsUnkept
        (kept_run task.now.mode task.now.settings wanted.entry.options)
        (streams R.Read W.Write console.old.reader console.new.reader console.old.writer
        console.new.writer) ((d : D) →
        IsTrue (D.Disk.is_mixing d))
        ⊥ (HasKeptFaith D.Disk result.1) (change_on D.Disk disk result.1)
        (status_of_ending ending)) }
{
    let log = wanted.options;
    let hub = match find_hub(alloc, task.mode, &task.settings, log.resume, &mut disk) {
        Ok(hub) => hub,
        Err(error) => return (Err(told_ending(error, &mut console.errors)), disk),
    };
    let mut hub = hub.with_disk(alloc, disk);
    match hub.run(
        log.told,
        wanted.digest,
        &mut console.reader,
        &mut console.writer,
    ) {
        Ok(()) => {
            let (runner, disk) = hub.into_parts();
            (Ok(runner), disk)
        }
        Err(error) => {
            let (_, mut disk) = hub.into_parts();
            tell_failure(alloc, task, error, &mut disk, &mut console.errors);
            (Err(told_ending(error, &mut console.errors)), disk)
        }
    }
}

/// Returns the hub of the log on this disk, which must have a line if it `must_be_there`.
fn find_hub<D: Disk>(
    alloc: Global,
    mode: Mode,
    settings: &Settings,
    must_be_there: bool,
    disk: &mut D,
) -> Result<NewHub, LoggedError>
    requires usable { IsTrue (D.Disk.is_usable disk.old) }
    ensures begun { IfOk result (λ hub.
        HasBegun hub.version mode settings.now hub.heading.batch.items hub.answers
        × IsUnbegun hub.version hub.heading.batch.items hub.heading.marker hub.intake) }
    ensures first { IfOk result (λ hub. HasKeptFaith D.Disk disk.new →
        recovered_lines (D.Disk.seen disk.old) ≡ []
        → (hub.version ≡ Two) × (hub.heading.batch.items ≡ header Two mode settings.now)) }
    ensures there { OnOk result (HasKeptFaith D.Disk disk.new → must_be_there ≡ true →
        0 < length (recovered_lines (D.Disk.seen disk.old))) }
    ensures found { HasKeptFaith D.Disk disk.new →
        FindsGood mode settings.now must_be_there (D.Disk.seen disk.old) result }
    ensures read { IsOnlyRead D.Disk disk.old disk.new }
{
    if is_absent(alloc, must_be_there, disk)? {
        return Err(LoggedError::Log(LogError::NoLog));
    }
    NewHub::of_log(alloc, mode, settings, disk)
}

/// Returns `true` if the log on this disk `must_be_there` and has no line.
fn is_absent<D: Disk>(alloc: Global, must_be_there: bool, disk: &mut D) -> Result<bool, LoggedError>
    requires usable { IsTrue (D.Disk.is_usable disk.old) }
    ensures absent { IfOk result (λ absent. HasKeptFaith D.Disk disk.new
        → MatchBool absent ((must_be_there ≡ true) × (recovered_lines (D.Disk.seen disk.old) ≡ []))
        (must_be_there ≡ true → 0 < length (recovered_lines (D.Disk.seen disk.old)))) }
    ensures unrefused { IfErr result (λ error. ¬ IsRefused error) }
    ensures read { IsOnlyRead D.Disk disk.old disk.new }
{
    if !must_be_there {
        return Ok(false);
    }
    let first = read_lines(alloc, disk, 1)?;
    Ok(first.is_empty())
}

/// Returns the digest that a log must contain, if one is given.
pub(crate) fn wanted_of(digest: Option<&str>) -> Result<Option<Digest>, AllocError>
    ensures { IfOk result (AsksFor (option_map (λ d. d.now) digest.entry)) }
{
    let Some(text) = digest else {
        return Ok(None);
    };
    match Digest::of(text) {
        Some(digest) => Ok(Some(digest)),
        // Never reached: a digest in the options has this length.
        None => Err(AllocError),
    }
}

/// Prints both settings if this error of a run is that they differ. The log is unchanged.
fn tell_failure<D: Disk, E: Write>(
    alloc: Global,
    task: &LineTask,
    error: LoggedError,
    disk: &mut D,
    errors: &mut E,
)
    ensures left { HasSameFile D.Disk disk.old disk.new }
    ensures clean { HasKeptFaith D.Disk disk.new → HasKeptFaith D.Disk disk.old }
{
    if let LoggedError::Log(LogError::OtherSettings) = error {
        tell_settings(alloc, task.mode, &task.settings, disk, errors);
    }
}

/// Prints the settings with which a log begins, and those that are given. Prints nothing that can't
/// be read.
fn tell_settings<D: Disk, E: Write>(
    alloc: Global,
    mode: Mode,
    settings: &Settings,
    disk: &mut D,
    errors: &mut E,
)
    ensures left { HasSameFile D.Disk disk.old disk.new }
    ensures clean { HasKeptFaith D.Disk disk.new → HasKeptFaith D.Disk disk.old }
{
    if !disk.may_be_used() {
        return;
    }
    let Ok(first) = read_lines(alloc, disk, 1) else {
        return;
    };
    if let Ok(text) = shown_line(alloc, &first) {
        let _ = writeln!(errors, "the log begins with {text}");
    }
    if let Ok(text) = given_line(alloc, mode, settings, &first) {
        let _ = write!(errors, "the options give {text}");
    }
}

/// Returns the first line of a log, given with its newline, as it is printed: whole if it can begin
/// a log and is printable, else as an excerpt.
fn shown_line(alloc: Global, first: &[u8]) -> Result<String, AllocError> {
    let line = first.strip_suffix(b"\n").unwrap_or(first);
    match read_beginning(alloc, line)? {
        Some(_) if is_printable(line) => String::from_utf8_lossy(alloc, line),
        _ => excerpt(alloc, line),
    }
}

/// Returns `true` if the line is printable ASCII.
fn is_printable(line: &[u8]) -> bool {
    for byte in line {
        if !matches!(byte, b' '..=b'~') {
            return false;
        }
    }
    true
}

/// Returns the settings line of these settings, with its newline, in the version of this first
/// line.
fn given_line(
    alloc: Global,
    mode: Mode,
    settings: &Settings,
    first: &[u8],
) -> Result<String, AllocError> {
    let version = version_of(alloc, first)?.unwrap_or(Version::Two);
    let heading = first_batch(alloc, version, mode, settings)?;
    let len = lines_len(&heading.batch, 1);
    String::from_utf8_lossy(alloc, &heading.batch[..len])
}
