//! Two runs of one log, with a crash between them: together they give the replies of one run.
ghost use Rattle.std.specs.Prelude.{IfOk};
ghost use Rattle.sqlite_disk.specs.Fuse.{inner_of};
ghost use Rattle.inst_log.specs.Disks.{HasKeptFaith, IsJustOpened};
ghost use Rattle.inst_log.specs.Layout.{IsBatch};
ghost use Rattle.inst_log.specs.Opening.{lines_after_settings};
ghost use Rattle.inst_log.specs.Serving.{AllBatches, batch_lines};
ghost use Rattle.inst_log.specs.Restart.{SaysOnce, AnswersAlike};

use crate::error::LogError;
use crate::log::Log;
use crate::recorder::Recorder;
use crate::responder::Responder;
use sqlite_disk::{Crash, Disk, Fuse};
use std::alloc::Global;

/// A machine that stops after a number of calls to its disk.
#[derive(Drop)]
pub struct Machine<D: Disk> {
    /// The disk.
    pub disk: D,
    /// How many calls to the disk succeed before the machine stops.
    pub calls: u64,
}

/// One run of a log.
#[derive(Drop)]
pub struct LogRun<'a, A: Responder + Drop> {
    /// The responder, in its initial state.
    pub answers: A,
    /// The batches that the run reads.
    pub batches: &'a [Vec<u8>],
}

/// The result of two runs of a log.
#[derive(Drop)]
pub struct Twice<D: Disk> {
    /// The replies that both runs wrote.
    pub told: Vec<u8>,
    /// The disk after the second run.
    pub disk: D,
}

/// Runs a log on a machine that stops and leaves any of the files that a crash may leave. Then runs
/// the log again, with the number of bytes of replies that the first run wrote. The settings are a
/// batch. Returns the replies of both runs: those of one run that is never stopped. For tests and
/// as a statement; a program needs [`Recorder::run`] alone.
///
/// # Errors
///
/// An error of the second run, or of the sync before it.
pub fn run_twice<D: Crash + Drop, A: Responder + Drop>(
    alloc: Global,
    machine: Machine<D>,
    settings: &[u8],
    first: LogRun<'_, A>,
    again: LogRun<'_, A>,
) -> Result<Twice<Fuse<D>>, LogError>
    requires ready { IsJustOpened D.Disk machine.disk }
    requires answers { AnswersAlike (A.Responder.says first.answers)
        (A.Responder.says again.answers) }
    requires settings { IsBatch settings.now }
    requires batches { AllBatches first.batches.now }
    requires more { AllBatches again.batches.now }
    ensures { IfOk result (λ twice. HasKeptFaith D.Disk (inner_of twice.disk) →
        SaysOnce (A.Responder.says first.entry.answers)
        (lines_after_settings settings.now (D.Disk.seen machine.disk))
        (batch_lines first.entry.batches.now) (batch_lines again.entry.batches.now)
        twice.told.items
        (lines_after_settings settings.now (D.Disk.seen (inner_of twice.disk)))) }
{
    let Machine { disk, calls } = machine;
    let mut told = Vec::new(alloc);
    let mut recorder = Recorder {
        log: Log {
            disk: Fuse::new(disk, calls),
            end: 0,
        },
        answers: first.answers,
        out: Vec::new(alloc),
    };
    let _ = recorder.run(settings, 0, first.batches, &mut told);
    let Recorder { log, .. } = recorder;
    let Log { mut disk, .. } = log;
    disk.crash();
    disk.sync()?;
    let mut recorder = Recorder {
        log: Log { disk, end: 0 },
        answers: again.answers,
        out: Vec::new(alloc),
    };
    recorder.run(settings, told.len(), again.batches, &mut told)?;
    let Recorder { log, .. } = recorder;
    let Log { disk, .. } = log;
    Ok(Twice { told, disk })
}
