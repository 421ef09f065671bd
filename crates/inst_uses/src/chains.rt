//! Logs whose batches end with marks, and files that are read in pieces.
ghost use Rattle.std.specs.Prelude.{IsTrue};
ghost use Rattle.inst_base.specs.Newline.{NoNewline};
ghost use Rattle.inst_log.specs.Disks.{IsJustOpened};
ghost use Rattle.inst_log.specs.Layout.{IsBatch};

use inst_chain::{ChainError, Digest, Marker, mark_lines, verify};
use inst_log::{FileLines, Log, LogError, push_line, survey};
use sqlite_disk::Disk;
use std::alloc::{AllocError, Global};

/// Returns a batch of one line and its mark, without the closed byte.
pub fn marked(alloc: Global, marker: &mut Marker, line: &[u8]) -> Result<Vec<u8>, AllocError>
    requires line { NoNewline line.now }
{
    let mut batch = Vec::new(alloc);
    push_line(&mut batch, line)?;
    mark_lines(marker, &mut batch)?; // the mark covers what was added since the mark before it
    Ok(batch)
}

/// Returns `true` if a log has the mark with this digest.
pub fn verified<D: Disk>(alloc: Global, disk: &mut D, text: &str) -> Result<bool, ChainError>
    requires usable { IsTrue (D.Disk.is_usable disk.old) }
{
    let Some(digest) = Digest::of(text) else {
        return Ok(false); // not 64 hexadecimal digits
    };
    // The error `Damaged` counts the lines up to the last correct mark.
    let verified = verify(alloc, disk, Some(digest))?;
    Ok(verified.has_wanted)
}

/// Returns the lines that end in the first piece of a file.
pub fn first_piece<D: Disk>(alloc: Global, disk: &mut D) -> Result<Vec<u8>, LogError>
    requires usable { IsTrue (D.Disk.is_usable disk.old) }
{
    let mut lines = FileLines::new(alloc, disk, 0)?;
    if lines.has_more() {
        return lines.next(disk); // the lines that end in the next 64 KiB
    }
    Ok(Vec::new(alloc))
}

/// Opens a log in three steps, of which only the last one writes.
pub fn opened<D: Disk>(alloc: Global, log: &mut Log<D>, settings: &[u8]) -> Result<(), LogError>
    requires ready { IsJustOpened D.Disk log.old.disk }
    requires settings { IsBatch settings.now }
{
    let extent = survey(alloc, &mut log.disk)?;
    let start = log.inspect(alloc, settings, &extent)?; // nothing is written up to here
    log.open_at(settings, &extent, start)
}
