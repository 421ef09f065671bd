//! Comparing the size of a log's file before each write.
ghost use Rattle.std.specs.Prelude.{◌≡◌, ◌≤◌, ◌^◌, ◌++◌, length, IfOk, OnOk};
ghost use Rattle.inst_log.specs.Disks.{HasKeptFaith, IsOnlyRead, IsJustOpened};
ghost use Rattle.inst_log.specs.Layout.{recovered_lines, blocks, IsBatch, AreWholeLines, EndsWell};
ghost use Rattle.inst_log.specs.Log.{IsSettled, IsOpenLog, HasLines};
ghost use Rattle.inst_log.specs.Opening.{lines_after_settings, SparesLines};
ghost use Rattle.inst_log.specs.Pieces.{IsFoundAs};
ghost use Rattle.inst_log.specs.Serving.{HasAnsweredLines};
ghost use Rattle.inst_logged.specs.Answering.{SaysLines};
ghost use Rattle.inst_logged.specs.inner.Failing.{FailsUnrefused};
ghost use Rattle.inst_logged.specs.inner.Serving.{IsMeasured, KeepsBatch};

use crate::{LineAnswers, LoggedError};
use inst_log::{Extent, Log, Recorder, Start};
use sqlite_disk::Disk;
use std::io::Write;

/// Opens a log as what it was found to be. Returns the size of its file in bytes.
///
/// # Errors
///
/// `Changed` if the file is shorter than the log by then.
pub(crate) fn open_measured<D: Disk>(
    log: &mut Log<D>,
    header: &[u8],
    extent: &Extent,
    start: Start,
) -> Result<usize, LoggedError>
    requires ready { IsJustOpened D.Disk log.old.disk }
    requires header { IsBatch header.now }
    requires found { HasKeptFaith D.Disk log.old.disk →
        IsFoundAs header.now (D.Disk.seen log.old.disk) extent.now start }
    ensures log { OnOk result (HasLines D.Disk (recovered_lines header.now
        ++ lines_after_settings header.now (D.Disk.seen log.old.disk))
        (EndsWell (D.Disk.seen log.old.disk)) log.old log.new) }
    ensures any_moment { SparesLines D.Disk header.now log.old.disk log.new.disk }
    ensures size { IfOk result (λ size. HasKeptFaith D.Disk log.new.disk →
        size ≡ length (D.Disk.seen log.new.disk)) }
    ensures failure { FailsUnrefused D.Disk log.old.disk log.new.disk ⊥ ⊥ result }
{
    log.open_at(header, extent, start)?;
    measure(log)
}

/// Answers the lines of a batch after they are synced, if the log's file has this size. Sets `size`
/// to its new one.
///
/// # Errors
///
/// `Changed` if the file has another size; nothing was written to it. Also if the file is shorter
/// than the log afterwards, since another program truncated it while the replies were written.
pub(crate) fn serve_measured<D: Disk, W: Write>(
    recorder: &mut Recorder<D, LineAnswers>,
    size: &mut usize,
    batch: &mut Vec<u8>,
    writer: &mut W,
) -> Result<(), LoggedError>
    requires measured { IsMeasured D.Disk size.old recorder.old.log }
    requires whole { AreWholeLines batch.old.items }
    ensures ok { OnOk result (HasAnsweredLines D.Disk
        (λ answers. SaysLines answers.mode answers.runner) (recovered_lines batch.old.items)
        recorder.old recorder.new (W.contents writer.old) (W.contents writer.new)) }
    ensures measured { OnOk result (IsMeasured D.Disk size.new recorder.new.log) }
    ensures any_moment { KeepsBatch D.Disk
        (SaysLines recorder.old.answers.mode recorder.old.answers.runner)
        (recovered_lines batch.old.items) recorder.old.log.disk recorder.new.log.disk
        (W.contents writer.old) (W.contents writer.new) }
    ensures failure { FailsUnrefused D.Disk recorder.old.log.disk recorder.new.log.disk
        (2 ^ 62 ≤ length (blocks (recovered_lines (D.Disk.seen recorder.new.log.disk))))
        (IsSettled D.Disk.seen D.Disk.may_leave recorder.new.log) result }
{
    if recorder.log.disk.len()? != *size {
        return Err(LoggedError::Changed);
    }
    recorder.serve_lines(batch, writer)?;
    *size = measure(&mut recorder.log)?;
    Ok(())
}

/// Returns the size of a log's file in bytes.
///
/// # Errors
///
/// `Changed` if the file is shorter than the log.
fn measure<D: Disk>(log: &mut Log<D>) -> Result<usize, LoggedError>
    requires open { IsOpenLog D.Disk log.old }
    ensures size { IfOk result (λ size. HasKeptFaith D.Disk log.new.disk →
        size ≡ length (D.Disk.seen log.new.disk)) }
    ensures read { IsOnlyRead D.Disk log.old.disk log.new.disk × (log.new.end ≡ log.old.end) }
    ensures failure { FailsUnrefused D.Disk log.old.disk log.new.disk ⊥ ⊥ result }
{
    let size = log.disk.len()?;
    if size <= log.end {
        return Err(LoggedError::Changed);
    }
    Ok(size)
}
