//! Logs of lines over any disk.
ghost use Rattle.inst_base.specs.Newline.{NoNewline};
ghost use Rattle.inst_log.specs.Disks.{IsJustOpened};
ghost use Rattle.inst_log.specs.Layout.{IsBatch};
ghost use Rattle.inst_log.specs.Serving.{AllBatches};
ghost use Rattle.inst_log.specs.Restart.{AnswersAlike};

use inst_lines::Mode;
use inst_log::{Log, LogError, LogRun, Machine, Responder, close_batch, push_line, run_twice};
use inst_logged::{LoggedError, NewHub, Version};
use inst_settings::Settings;
use sqlite_disk::{Crash, Disk};
use std::alloc::Global;
use std::io::{Read, Write};

/// Returns the lines of a log and appends one.
pub fn log<D: Disk>(
    alloc: Global,
    log: &mut Log<D>,
    settings: &[u8],
    line: &[u8],
) -> Result<Vec<u8>, LogError>
    requires ready { IsJustOpened D.Disk log.old.disk }
    requires settings { IsBatch settings.now }
    requires line { NoNewline line.now }
{
    let lines = log.open(alloc, settings)?; // the lines of the file, settings first
    let mut batch = Vec::new(alloc);
    push_line(&mut batch, line)?;
    close_batch(&mut batch)?;
    log.append(&batch)?; // now every file that a crash may leave has the line
    Ok(lines)
}

/// Returns the replies of two runs of a log whose machine stopped during the first.
pub fn restart<D: Crash + Drop, A: Responder + Drop>(
    alloc: Global,
    disk: D,
    settings: &[u8],
    first: LogRun<'_, A>,
    again: LogRun<'_, A>,
) -> Result<Vec<u8>, LogError>
    requires ready { IsJustOpened D.Disk disk }
    requires answers { AnswersAlike (A.Responder.says first.answers)
        (A.Responder.says again.answers) }
    requires settings { IsBatch settings.now }
    requires batches { AllBatches first.batches.now }
    requires more { AllBatches again.batches.now }
{
    let machine = Machine { disk, calls: 7 }; // stops after 7 calls to its disk, then restarts
    let twice = run_twice(alloc, machine, settings, first, again)?;
    Ok(twice.told) // the replies that both runs wrote
}

/// Answers all lines of a reader with a log.
pub fn logged<D: Disk + Drop, R: Read, W: Write>(
    alloc: Global,
    settings: &Settings,
    disk: D,
    reader: &mut R,
    writer: &mut W,
) -> Result<(), LoggedError>
    requires ready { IsJustOpened D.Disk disk }
{
    let mut hub = NewHub::open(alloc, Version::Two, Mode::Run, settings)?.with_disk(alloc, disk);
    // The client has all replies to the log's lines, and no digest is required.
    hub.run(None, None, reader, writer)?;
    Ok(())
}
