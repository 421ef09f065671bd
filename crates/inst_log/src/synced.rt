//! A write that is synced before the call returns.
ghost use Rattle.std.specs.Prelude.{◌≡◌, ◌<◌, ◌+◌, ◌^◌, length, IsTrue, OnOk};
ghost use Rattle.sqlite_disk.specs.Disk.{Holds, Torn, Mixed, Follows, Only, CountsFault};

use sqlite_disk::Disk;
use std::io;

/// Writes these bytes and syncs the disk.
pub(crate) fn write_synced<D: Disk>(disk: &mut D, at: usize, bytes: &[u8]) -> io::Result<()>
    requires usable { IsTrue (D.Disk.is_usable disk.old) }
    requires some { 0 < length bytes.now }
    ensures written { OnOk result (Holds (D.Disk.seen disk.new) at bytes.now) }
    ensures others { Torn at (length bytes.now) (D.Disk.seen disk.old) (D.Disk.seen disk.new) }
    ensures durable { OnOk result (Only (D.Disk.seen disk.new) (D.Disk.may_leave disk.new)) }
    ensures crash { Follows (Torn at (length bytes.now)) (D.Disk.may_leave disk.old)
        (D.Disk.may_leave disk.new) }
    // If the disk leaves each byte of a cut-off write old or new.
    ensures mixed { ((d : D) → IsTrue (D.Disk.is_mixing d)) → at + length bytes.now < 2 ^ 64
        → Follows (Mixed at bytes.now) (D.Disk.may_leave disk.old) (D.Disk.may_leave disk.new) }
    ensures usable { OnOk result (IsTrue (D.Disk.is_usable disk.new)) }
    ensures clean { D.Disk.is_clean disk.new ≡ D.Disk.is_clean disk.old }
    ensures cause { CountsFault result (D.Disk.faults disk.old) (D.Disk.faults disk.new) }
{
    disk.write_at(at, bytes)?;
    disk.sync()
}
