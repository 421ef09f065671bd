//! Repairing the end of a file: the closed byte is written and what follows it is cut off. The
//! lines stay the same.
ghost use Rattle.std.specs.Prelude.{◌≡◌, List, ℕ, ◌<◌, ◌≤◌, ◌+◌, ◌^◌, IsTrue, OnOk};
ghost use Rattle.sqlite_disk.specs.Disk.{Only, CountsFault};
ghost use Rattle.inst_log.specs.Layout.{HasClosedByte, IsShut};
ghost use Rattle.inst_log.specs.inner.Layout.{IsUnclosed};
ghost use Rattle.inst_log.specs.Pieces.{IsExtent};
ghost use Rattle.inst_log.specs.inner.Repair.{Repairs};

use crate::extent::Extent;
use crate::synced::write_synced;
use sqlite_disk::Disk;
use std::io;

/// Writes the closed byte if it is missing, and cuts off what follows it.
pub(crate) fn repair<D: Disk>(disk: &mut D, extent: &Extent) -> io::Result<()>
    requires usable { IsTrue (D.Disk.is_usable disk.old) }
    requires extent { IsTrue (D.Disk.is_clean disk.old) →
        IsExtent (D.Disk.seen disk.old) extent.now }
    requires known { IsTrue (D.Disk.is_clean disk.old) →
        Only (D.Disk.seen disk.old) (D.Disk.may_leave disk.old) }
    ensures repaired { Repairs D.Disk.seen D.Disk.may_leave D.Disk.is_clean D.Disk.is_usable
        disk.old extent.now.end result disk.new }
    ensures shut { IsTrue (D.Disk.is_clean disk.new) → IsShut (D.Disk.seen disk.old)
        → (c : List ℕ) → D.Disk.may_leave disk.new c → IsShut c }
    ensures cause { CountsFault result (D.Disk.faults disk.old) (D.Disk.faults disk.new) }
{
    close(disk, extent)?;
    cut(disk, extent)
}

/// Writes the closed byte if it is missing.
fn close<D: Disk>(disk: &mut D, extent: &Extent) -> io::Result<()>
    requires usable { IsTrue (D.Disk.is_usable disk.old) }
    requires extent { IsTrue (D.Disk.is_clean disk.old) →
        IsExtent (D.Disk.seen disk.old) extent.now }
    requires known { IsTrue (D.Disk.is_clean disk.old) →
        Only (D.Disk.seen disk.old) (D.Disk.may_leave disk.old) }
    ensures repaired { Repairs D.Disk.seen D.Disk.may_leave D.Disk.is_clean D.Disk.is_usable
        disk.old extent.now.end result disk.new }
    ensures shut { IsTrue (D.Disk.is_clean disk.new) → IsShut (D.Disk.seen disk.old)
        → (c : List ℕ) → D.Disk.may_leave disk.new c → IsShut c }
    ensures cause { CountsFault result (D.Disk.faults disk.old) (D.Disk.faults disk.new) }
{
    if extent.is_closed {
        return Ok(());
    }
    close_at(disk, extent.end)
}

/// Cuts off what follows the closed byte, if there is anything.
fn cut<D: Disk>(disk: &mut D, extent: &Extent) -> io::Result<()>
    requires usable { IsTrue (D.Disk.is_usable disk.old) }
    requires closed { IsTrue (D.Disk.is_clean disk.old) →
        HasClosedByte (D.Disk.seen disk.old) extent.now.end }
    requires known { IsTrue (D.Disk.is_clean disk.old) →
        Only (D.Disk.seen disk.old) (D.Disk.may_leave disk.old) }
    ensures repaired { Repairs D.Disk.seen D.Disk.may_leave D.Disk.is_clean D.Disk.is_usable
        disk.old extent.now.end result disk.new }
    ensures shut { IsTrue (D.Disk.is_clean disk.new) → IsShut (D.Disk.seen disk.old)
        → (c : List ℕ) → D.Disk.may_leave disk.new c → IsShut c }
    ensures cause { CountsFault result (D.Disk.faults disk.old) (D.Disk.faults disk.new) }
{
    if extent.len <= 1 || extent.len - 1 <= extent.end {
        return Ok(());
    }
    cut_behind(disk, extent.end)
}

/// Writes the closed byte.
fn close_at<D: Disk>(disk: &mut D, end: usize) -> io::Result<()>
    requires usable { IsTrue (D.Disk.is_usable disk.old) }
    requires unclosed { IsTrue (D.Disk.is_clean disk.old) → IsUnclosed (D.Disk.seen disk.old) end }
    requires known { IsTrue (D.Disk.is_clean disk.old) →
        Only (D.Disk.seen disk.old) (D.Disk.may_leave disk.old) }
    ensures durable { OnOk result (Only (D.Disk.seen disk.new) (D.Disk.may_leave disk.new)) }
    ensures repaired { Repairs D.Disk.seen D.Disk.may_leave D.Disk.is_clean D.Disk.is_usable
        disk.old end result disk.new }
    ensures cause { CountsFault result (D.Disk.faults disk.old) (D.Disk.faults disk.new) }
{
    write_synced(disk, end, &[0])
}

/// Cuts off what follows the closed byte.
fn cut_behind<D: Disk>(disk: &mut D, end: usize) -> io::Result<()>
    requires usable { IsTrue (D.Disk.is_usable disk.old) }
    requires fits { end + 1 < 2 ^ 64 }
    requires closed { IsTrue (D.Disk.is_clean disk.old) → HasClosedByte (D.Disk.seen disk.old) end }
    requires known { IsTrue (D.Disk.is_clean disk.old) →
        Only (D.Disk.seen disk.old) (D.Disk.may_leave disk.old) }
    ensures durable { OnOk result (Only (D.Disk.seen disk.new) (D.Disk.may_leave disk.new)) }
    ensures repaired { Repairs D.Disk.seen D.Disk.may_leave D.Disk.is_clean D.Disk.is_usable
        disk.old end result disk.new }
    ensures shut { IsTrue (D.Disk.is_clean disk.new) → IsShut (D.Disk.seen disk.old)
        → (c : List ℕ) → D.Disk.may_leave disk.new c → IsShut c }
    ensures cause { CountsFault result (D.Disk.faults disk.old) (D.Disk.faults disk.new) }
{
    disk.set_len(end + 1)?;
    disk.sync()
}
