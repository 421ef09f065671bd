//! Finding where the lines of a disk's file end.
ghost use Rattle.std.specs.Prelude.{◌≡◌, IsTrue, IfOk, MatchResult, ⊤};
ghost use Rattle.sqlite_disk.specs.Disk.{MoreFaults};
ghost use Rattle.inst_log.specs.Disks.{HasKeptFaith, IsOnlyRead};
ghost use Rattle.inst_log.specs.Log.{HasCause};
ghost use Rattle.inst_log.specs.Pieces.{IsExtent};

use crate::LogError;
use crate::extent::Extent;
use crate::file_lines::FileLines;
use sqlite_disk::Disk;
use std::alloc::Global;

/// Returns the length of the disk's file and where its lines end, in whatever state a crash left
/// it. Reads the file in pieces of 64 KiB, up to the end of its lines, and takes memory for one
/// piece and for the longest line. Nothing is written.
///
/// # Errors
///
/// `Disk` if the disk fails, `Memory` if an allocation fails.
pub fn survey<D: Disk>(alloc: Global, disk: &mut D) -> Result<Extent, LogError>
    requires usable { IsTrue (D.Disk.is_usable disk.old) }
    ensures extent { IfOk result (λ extent. HasKeptFaith D.Disk disk.new →
        IsExtent (D.Disk.seen disk.old) extent) }
    ensures cause { MatchResult result (λ _. D.Disk.faults disk.new ≡ D.Disk.faults disk.old)
        (HasCause (HasKeptFaith D.Disk disk.new
        → MoreFaults (D.Disk.faults disk.old) (D.Disk.faults disk.new)) ⊤ ⊥) }
    ensures read { IsOnlyRead D.Disk disk.old disk.new }
{
    let mut lines = FileLines::new(alloc, disk, 0)?;
    while lines.has_more() {
        lines.next(disk)?;
    }
    Ok(lines.extent())
}
