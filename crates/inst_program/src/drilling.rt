//! The task `drill`, and the script of a run that explains its first opening.
ghost use Rattle.std.specs.Prelude.{◌≡◌, ◌≢◌, [], true, false, IfErr, IfOk, OnOk, IsTrue};
ghost use Rattle.std.specs.Prelude.{option_map};
ghost use Rattle.sqlite_disk.specs.Disk.{Only};
ghost use Rattle.inst_log.specs.Disks.{HasKeptFaith, IsOnlyRead};
ghost use Rattle.inst_model.specs.Interleaving.{IsInterleaving};
ghost use Rattle.inst_drill.specs.Drilled.{HasDrilledAll};
ghost use Rattle.inst_program.specs.Files.{AllAreIn};
ghost use Rattle.inst_program.specs.Program.{Drills};
ghost use Rattle.inst_program.specs.Script.{script_of};
ghost use Rattle.inst_program.specs.inner.Drilling.{IsDrillStopped, IsScripted, IsUndrilled};
ghost use Rattle.inst_program.specs.inner.ExitReason.{status_of_ending};

use crate::console::Console;
use crate::exit_reason::ExitReason;
use crate::logs::Logs;
use inst_command::Step;
use inst_drill::{DrillRequest, DrillResult, Ungated, drill};
use inst_json::append_step;
use inst_options::LogFault;
use inst_settings::Settings;
use sqlite_disk::Disk;
use std::alloc::{AllocError, AllocGlobal, Global};
use std::io::{self, Read, Write};
use std::sync::Wait;
use std::thread::Threads;

/// The request for a drill.
#[derive(Drop)]
pub(crate) struct DrillTask {
    pub(crate) settings: Settings,
    /// The number of transfers in each opening.
    pub(crate) transfers: u16,
    pub(crate) openings: u8,
}

/// Drills a hub. If a file is named, which must be new or empty, writes the script to it.
pub(crate) fn drill_hub<
    H: Threads + Wait + Sync + AllocGlobal,
    L: Logs,
    R: Read + Drop,
    W: Write + Drop,
    E: Write + Drop,
>(
    rt: &H,
    logs: &mut L,
    asked: DrillTask,
    script: Option<&str>,
    console: &mut Console<R, W, E>,
) -> Result<(), ExitReason>
    requires none_out { AllAreIn (L.files logs.old) }
    ensures ok { OnOk result
        (Drills asked.settings asked.openings (option_map (λ file. file.now) script.entry)
        (W.contents console.old.writer) (W.contents console.new.writer) (L.files logs.old)
        (L.files logs.new)) }
    ensures err { IfErr result
        (IsUndrilled asked (option_map (λ file. file.now) script.entry)
        (console.new.writer ≡ console.old.writer) (L.files logs.old) (L.files logs.new)) }
    ensures unread { console.new.reader ≡ console.old.reader }
    ensures all_in { AllAreIn (L.files logs.new) }
{
    match script {
        Some(path) => drill_to_file(rt, logs, asked, path, console),
        None => {
            run_drill(rt, asked, console)?;
            Ok(())
        }
    }
}

/// Drills a hub.
fn run_drill<
    H: Threads + Wait + Sync + AllocGlobal,
    R: Read + Drop,
    W: Write + Drop,
    E: Write + Drop,
>(rt: &H, asked: DrillTask, console: &mut Console<R, W, E>) -> Result<DrillResult, ExitReason>
    ensures ok { IfOk result
        (HasDrilledAll asked.settings asked.openings (W.contents console.old.writer)
        (W.contents console.new.writer)) }
    ensures err { IfErr result (IsDrillStopped asked (console.new.writer ≡ console.old.writer)) }
    ensures unread { console.new.reader ≡ console.old.reader }
{
    let DrillTask {
        settings,
        transfers,
        openings,
    } = asked;
    let request = DrillRequest {
        settings,
        transfers,
        openings,
        gate: &Ungated,
        is_watched: console.is_watched,
    };
    match drill(
        rt,
        rt.alloc(),
        &request,
        &mut console.writer,
        &mut console.errors,
    ) {
        Ok(left) => Ok(left),
        Err(error) => Err(ExitReason::from(error)),
    }
}

/// Drills a hub, and writes the script to the file of this name.
fn drill_to_file<
    H: Threads + Wait + Sync + AllocGlobal,
    L: Logs,
    R: Read + Drop,
    W: Write + Drop,
    E: Write + Drop,
>(
    rt: &H,
    logs: &mut L,
    asked: DrillTask,
    path: &str,
    console: &mut Console<R, W, E>,
) -> Result<(), ExitReason>
    requires none_out { AllAreIn (L.files logs.old) }
    ensures ok { OnOk result (Drills asked.settings asked.openings (Some path.now)
        (W.contents console.old.writer) (W.contents console.new.writer) (L.files logs.old)
        (L.files logs.new)) }
    ensures err { IfErr result (IsUndrilled asked (Some path.now)
        (console.new.writer ≡ console.old.writer) (L.files logs.old) (L.files logs.new)) }
    ensures unread { console.new.reader ≡ console.old.reader }
    ensures all_in { AllAreIn (L.files logs.new) }
{
    let disk = logs.open(path)?;
    let (outcome, disk) = drill_to(rt, asked, disk, console);
    logs.close(disk);
    outcome
}

/// Drills a hub, writes the script to this disk, and returns the disk.
fn drill_to<
    H: Threads + Wait + Sync + AllocGlobal,
    D: Disk + Drop,
    R: Read + Drop,
    W: Write + Drop,
    E: Write + Drop,
>(
    rt: &H,
    asked: DrillTask,
    mut disk: D,
    console: &mut Console<R, W, E>,
) -> (Result<(), ExitReason>, D)
    requires usable { IsTrue (D.Disk.is_usable disk) }
    ensures scripted { IsScripted D.Disk asked (W.contents console.old.writer)
        (W.contents console.new.writer)
        (console.new.writer ≡ console.old.writer)
        disk result.1 result.0 }
    ensures unread { console.new.reader ≡ console.old.reader }
{
    match is_empty(&mut disk) {
        Ok(true) => {}
        Ok(false) => return (Err(ExitReason::ScriptNotEmpty), disk),
        Err(_) => return (Err(ExitReason::Log(LogFault::DiskFault)), disk),
    }
    match run_drill(rt, asked, console) {
        Ok(left) => {
            let outcome = write_script(rt.alloc(), &mut disk, &left);
            (outcome, disk)
        }
        Err(ending) => (Err(ending), disk),
    }
}

/// Returns `true` if the file is empty.
fn is_empty<D: Disk>(disk: &mut D) -> io::Result<bool>
    requires usable { IsTrue (D.Disk.is_usable disk.old) }
    ensures empty { IfOk result (λ yes. HasKeptFaith D.Disk disk.new → yes ≡ true →
        D.Disk.seen disk.old ≡ []) }
    ensures some { IfOk result (λ yes. HasKeptFaith D.Disk disk.new → yes ≡ false →
        D.Disk.seen disk.old ≢ []) }
    ensures read { IsOnlyRead D.Disk disk.old disk.new }
{
    let len = disk.len()?;
    Ok(len == 0)
}

/// Writes the script of a drill to an empty file.
fn write_script<D: Disk>(alloc: Global, disk: &mut D, left: &DrillResult) -> Result<(), ExitReason>
    requires usable { IsTrue (D.Disk.is_usable disk.old) }
    requires steps { IsInterleaving left.now.books.settings left.now.steps.items }
    ensures written { OnOk result (D.Disk.seen disk.old ≡ []
        → D.Disk.seen disk.new ≡ script_of left.now.books.settings left.now.steps.items) }
    ensures durable { OnOk result (Only (D.Disk.seen disk.new) (D.Disk.may_leave disk.new)) }
    ensures clean { D.Disk.is_clean disk.new ≡ D.Disk.is_clean disk.old }
    ensures failed { IfErr result (λ e. status_of_ending e ≡ 3) }
{
    let text = script_text(alloc, left.books.settings(), &left.steps)?;
    match write_synced(disk, &text) {
        Ok(()) => Ok(()),
        Err(_) => Err(ExitReason::Log(LogFault::DiskFault)),
    }
}

/// Returns the text of a script: one line for each step.
fn script_text(alloc: Global, settings: &Settings, steps: &[Step]) -> Result<Vec<u8>, AllocError>
    requires { IsInterleaving settings.now steps.now }
    ensures { IfOk result (λ text. text.items ≡ script_of settings.now steps.now) }
{
    let mut text = Vec::new(alloc);
    for step in steps {
        append_step(settings, step, &mut text)?;
        text.push(b'\n')?;
    }
    Ok(text)
}

/// Writes these bytes to the beginning of the file and syncs them.
fn write_synced<D: Disk>(disk: &mut D, bytes: &[u8]) -> io::Result<()>
    requires usable { IsTrue (D.Disk.is_usable disk.old) }
    ensures written { OnOk result (D.Disk.seen disk.old ≡ [] → D.Disk.seen disk.new ≡ bytes.now) }
    ensures durable { OnOk result (Only (D.Disk.seen disk.new) (D.Disk.may_leave disk.new)) }
    ensures clean { D.Disk.is_clean disk.new ≡ D.Disk.is_clean disk.old }
{
    disk.write_at(0, bytes)?;
    disk.sync()
}
