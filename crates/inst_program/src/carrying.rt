//! The task `next`: a log that begins with the books of another one.
ghost use Rattle.std.specs.Prelude.{◌≡◌, ◌≢◌, ◌<◌, List, ℕ, Option, length, IsTrue, IfErr};
ghost use Rattle.std.specs.Prelude.{IfOk, IfSome, OnOk, OnErr};
ghost use Rattle.inst_log.specs.Layout.{recovered_lines};
ghost use Rattle.inst_world.specs.HasRun.{world_settings};
ghost use Rattle.inst_world.specs.NextOpening.{AreClosedBooks, CanOpenFrom};
ghost use Rattle.inst_chain.specs.Chain.{IsHexadecimal};
ghost use Rattle.inst_log.specs.Disks.{HasKeptFaith, IsJustOpened, IsOnlyRead};
ghost use Rattle.inst_program.specs.Files.{AllAreIn, IfKept, IsUntouched, change_of, change_on};
ghost use Rattle.inst_program.specs.Keeping.{AsksFor, Carries, CarriesBooks, HasNoSuccessor, IsBegun};
ghost use Rattle.inst_program.specs.Keeping.{IsPreviousOf, IsSafe, IsSuccessor, IsUncarried};
ghost use Rattle.inst_program.specs.Keeping.{SparesBoth, lines_of_next, next_asked};
ghost use Rattle.inst_program.specs.inner.Changing.{hub_closed, hub_opening};
ghost use Rattle.inst_program.specs.inner.Carrying.{IsHubClosed, IsReadAsLog, IsLogUnbegun};
ghost use Rattle.inst_program.specs.inner.Carrying.{IsLogUnclosed};
ghost use Rattle.inst_program.specs.inner.Carrying.{ReadsBeginning};
ghost use Rattle.inst_program.specs.inner.ExitReason.{status_of_ending};
ghost use Rattle.inst_program.specs.inner.Visiting.{IsVisited};

use crate::changing::{Closed, Opening, change};
use crate::exit_reason::{ExitReason, ending_of, or_ending, told_ending};
use crate::keeping::wanted_of;
use crate::logs::Logs;
use crate::renewing::renew;
use crate::showing::{contents_of, is_hexadecimal};
use inst_base::Fault;
use inst_chain::Digest;
use inst_log::read_lines;
use inst_logged::{LogHeader, LoggedError, NewHub, OpeningBooks, Version, read_beginning};
use inst_options::{LogFault, NextOptions, SettingChanges};
use sqlite_disk::Disk;
use std::alloc::Global;
use std::io::Write;

/// Closes the hub of the first log and makes the second log, which begins with its books, or with
/// its positions alone, under the settings that change. A second log that begins so already keeps
/// its lines. If the first log is damaged, prints on `errors` how far it is right.
pub(crate) fn next<L: Logs, E: Write>(
    logs: &mut L,
    alloc: Global,
    task: NextOptions<'_>,
    errors: &mut E,
) -> Result<(), ExitReason>
    requires none_out { AllAreIn (L.files logs.old) }
    ensures ok { OnOk result
        (Carries (next_asked task.entry) (L.files logs.old) (L.files logs.new)) }
    ensures err { OnErr result
        (SparesBoth task.entry.from.now task.entry.to.now (L.files logs.old) (L.files logs.new)) }
    ensures refused { IfErr result (λ ending. status_of_ending ending ≡ 2
        → IsUncarried (next_asked task.entry) (L.files logs.old) (L.files logs.new)) }
    ensures all_in { AllAreIn (L.files logs.new) }
{
    let NextOptions {
        from,
        to,
        digest,
        positions,
        changes,
    } = task;
    if !logs.has(from)? {
        return Err(ExitReason::Log(LogFault::NoLog));
    }
    let wanted = wanted_of(digest)?;
    if from == to {
        return Err(ExitReason::Log(LogFault::LogInUse));
    }
    let closed = close(logs, alloc, from, wanted, errors)?;
    let next = succeed(alloc, closed, positions, &changes, errors)?;
    let previous = previous_of(logs, alloc, from, positions, errors)?;
    begin(logs, alloc, &next, previous, to)
}

/// Returns what the next hub opens from: a new chain's if only positions are carried, or else the
/// same books.
pub(crate) fn succeed<E: Write>(
    alloc: Global,
    closed: Closed,
    positions: bool,
    changes: &SettingChanges<'_>,
    errors: &mut E,
) -> Result<Opening, ExitReason>
    requires closed { AreClosedBooks (world_settings closed.runner.world) closed.journals.items }
    ensures follows { IfOk result (λ next.
        IsSuccessor positions changes.now (hub_closed closed) (hub_opening next)) }
    ensures unfit { IfErr result (λ ending. status_of_ending ending ≡ 2 →
        HasNoSuccessor positions changes.now (hub_closed closed)) }
{
    if positions {
        renew(alloc, closed, changes, errors)
    } else {
        change(alloc, closed, changes)
    }
}

/// Closes the hub of the log of this name.
fn close<L: Logs, E: Write>(
    logs: &mut L,
    alloc: Global,
    from: &str,
    wanted: Option<Digest>,
    errors: &mut E,
) -> Result<Closed, ExitReason>
    requires none_out { AllAreIn (L.files logs.old) }
    ensures ok { IfOk result (λ closed.
        IfKept (L.files logs.new) ((digest : Option (List ℕ)) → AsksFor digest wanted
        → CarriesBooks digest ((d : L.Log) → IsTrue (L.Log.Disk.is_mixing d)) (hub_closed closed)
        (change_of (L.files logs.old) (L.files logs.new) from.now))) }
    ensures books { IfOk result (λ closed.
        AreClosedBooks (world_settings closed.runner.world) closed.journals.items) }
    ensures err { OnErr result (IsSafe ((d : L.Log) →
        IsTrue (L.Log.Disk.is_mixing d)) (IsTrue (L.files logs.new).is_clean)
        (change_of (L.files logs.old) (L.files logs.new) from.now)) }
    ensures refused { IfErr result (λ ending. status_of_ending ending ≡ 2 →
        IsLogUnclosed ((L.files logs.new).in_use from.now)
        (IsTrue (L.files logs.new).is_clean) wanted ((L.files logs.old).bytes from.now)) }
    ensures visited { IsVisited (L.files logs.old) (L.files logs.new) from.now }
{
    let disk = logs.open(from)?;
    let (outcome, disk) = close_on(alloc, wanted, disk, errors);
    logs.close(disk);
    outcome
}

/// Closes the hub of the log on this disk, and returns the disk.
pub(crate) fn close_on<D: Disk + Drop, E: Write>(
    alloc: Global,
    wanted: Option<Digest>,
    mut disk: D,
    errors: &mut E,
) -> (Result<Closed, ExitReason>, D)
    requires opened { IsJustOpened D.Disk disk }
    ensures { IsHubClosed D.Disk wanted disk result.1 result.0 }
{
    match beginning_of(alloc, &mut disk) {
        Ok(Some(header)) => close_hub(alloc, &header, wanted, disk, errors),
        Ok(None) => (Err(ExitReason::Log(LogFault::NoLog)), disk),
        Err(ending) => (Err(ending), disk),
    }
}

/// Closes the hub of the log on this disk, which begins with this header, and returns the disk.
fn close_hub<D: Disk + Drop, E: Write>(
    alloc: Global,
    header: &LogHeader,
    wanted: Option<Digest>,
    mut disk: D,
    errors: &mut E,
) -> (Result<Closed, ExitReason>, D)
    requires opened { IsJustOpened D.Disk disk }
    requires read { HasKeptFaith D.Disk disk →
        IsReadAsLog header.now.mode header.now.settings (D.Disk.seen disk) }
    ensures { IsHubClosed D.Disk wanted disk result.1 result.0 }
{
    let mode = header.mode;
    let hub = match NewHub::of_log(alloc, mode, &header.settings, &mut disk) {
        Ok(hub) => hub,
        Err(error) => return (Err(told_ending(error, errors)), disk),
    };
    let mut hub = hub.with_disk(alloc, disk);
    let books = hub.close(wanted);
    let (runner, disk) = hub.into_parts();
    match books {
        Ok(journals) => (
            Ok(Closed {
                mode,
                runner,
                journals,
            }),
            disk,
        ),
        Err(error) => (Err(told_ending(error, errors)), disk),
    }
}

/// Returns what the first line of the second log says of the first one, which was closed: its last
/// digest if a new chain begins. Prints on `errors` as [`contents_of`] does.
///
/// # Errors
/// `Memory`; `DiskFault`; `ChangedLog` if the log isn't good any more: another program changed it.
fn previous_of<L: Logs, E: Write>(
    logs: &mut L,
    alloc: Global,
    from: &str,
    positions: bool,
    errors: &mut E,
) -> Result<Option<Digest>, ExitReason>
    ensures previous { IfOk result (λ previous. IfKept (L.files logs.new)
        (IsPreviousOf positions ((L.files logs.old).bytes from.now) previous)) }
    ensures hexadecimal { IfOk result (λ previous. IfSome previous IsHexadecimal) }
    ensures failed { IfErr result (λ ending. status_of_ending ending ≢ 2) }
    ensures untouched { IsUntouched (L.files logs.old) (L.files logs.new) }
{
    if !positions {
        return Ok(None);
    }
    match contents_of(logs, alloc, from, errors) {
        Ok(contents) if is_hexadecimal(contents.digest) => Ok(contents.digest),
        // Never so: a mark has hexadecimal digits.
        Ok(_) => Err(ExitReason::Fault(Fault::Memory)),
        Err(ending) => Err(failure(ending)),
    }
}

/// Returns the reason why a log that was good can't be read: `ChangedLog` instead of a refusal.
fn failure(ending: ExitReason) -> ExitReason
    ensures { status_of_ending result ≢ 2 }
{
    match ending {
        ExitReason::Fault(Fault::Memory) | ExitReason::Log(LogFault::DiskFault) => ending,
        _ => ExitReason::Log(LogFault::ChangedLog),
    }
}

/// Makes the log of this name, for a hub that opens from these books. Its first line has the digest
/// of the log before, if one is given.
fn begin<L: Logs>(
    logs: &mut L,
    alloc: Global,
    next: &Opening,
    previous: Option<Digest>,
    to: &str,
) -> Result<(), ExitReason>
    requires none_out { AllAreIn (L.files logs.old) }
    requires can { CanOpenFrom next.now.settings next.now.journals.items }
    requires hexadecimal { IfSome previous IsHexadecimal }
    ensures ok { OnOk result (IfKept (L.files logs.new)
        (IsBegun (lines_of_next (hub_opening next.now) previous)
        (change_of (L.files logs.old) (L.files logs.new) to.now))) }
    ensures err { OnErr result (IsSafe ((d : L.Log) →
        IsTrue (L.Log.Disk.is_mixing d)) (IsTrue (L.files logs.new).is_clean)
        (change_of (L.files logs.old) (L.files logs.new) to.now)) }
    ensures refused { IfErr result (λ ending. status_of_ending ending ≡ 2 →
        IsLogUnbegun ((L.files logs.new).in_use to.now)
        (IsTrue (L.files logs.new).is_clean) (lines_of_next (hub_opening next.now) previous)
        ((L.files logs.old).bytes to.now)) }
    ensures visited { IsVisited (L.files logs.old) (L.files logs.new) to.now }
{
    let disk = logs.open(to)?;
    let (outcome, disk) = begin_on(alloc, next, previous, disk);
    logs.close(disk);
    outcome
}

/// Makes such a log on this disk, and returns the disk.
fn begin_on<D: Disk + Drop>(
    alloc: Global,
    next: &Opening,
    previous: Option<Digest>,
    disk: D,
) -> (Result<(), ExitReason>, D)
    requires journals { CanOpenFrom next.now.settings next.now.journals.items }
    requires hexadecimal { IfSome previous IsHexadecimal }
    requires opened { IsJustOpened D.Disk disk }
    ensures ok { OnOk result.0 (HasKeptFaith D.Disk result.1
        → IsBegun (lines_of_next (hub_opening next.now) previous)
        (change_on D.Disk disk result.1)) }
    ensures err { OnErr result.0 (IsSafe ((d : D) →
        IsTrue (D.Disk.is_mixing d)) (HasKeptFaith D.Disk result.1)
        (change_on D.Disk disk result.1)) }
    ensures refused { IfErr result.0 (λ ending. status_of_ending ending ≡ 2 →
        IsLogUnbegun ⊥ (HasKeptFaith D.Disk result.1)
        (lines_of_next (hub_opening next.now) previous) (D.Disk.seen disk)) }
{
    let books = OpeningBooks {
        journals: &next.journals,
        previous,
    };
    let Ok(hub) = NewHub::open_from(alloc, Version::Two, next.mode, &next.settings, books) else {
        return (Err(ExitReason::Fault(Fault::Memory)), disk);
    };
    let mut hub = hub.with_disk(alloc, disk);
    let outcome = or_ending(hub.open(None));
    let (_, disk) = hub.into_parts();
    (outcome, disk)
}

/// Returns the contents of a log's first line. The log is unchanged.
pub(crate) fn beginning_of<D: Disk>(
    alloc: Global,
    disk: &mut D,
) -> Result<Option<LogHeader>, ExitReason>
    requires usable { IsTrue (D.Disk.is_usable disk.old) }
    ensures there { IfOk result (λ beginning. HasKeptFaith D.Disk disk.new →
        0 < length (recovered_lines (D.Disk.seen disk.old))) }
    ensures found { HasKeptFaith D.Disk disk.new → ReadsBeginning (D.Disk.seen disk.old) result }
    ensures read { IsOnlyRead D.Disk disk.old disk.new }
{
    let first = read_lines(alloc, disk, 1).map_err(|error| ending_of(LoggedError::Log(error)))?;
    if first.is_empty() {
        return Err(ExitReason::Log(LogFault::NoLog));
    }
    Ok(read_beginning(alloc, &first)?)
}
