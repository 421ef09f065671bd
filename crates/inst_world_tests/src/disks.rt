//! Disks with given bytes.
ghost use Rattle.std.specs.Prelude.{IfOk, IsTrue, OnOk};
ghost use Rattle.sqlite_disk.specs.Disk.{Only};

use sqlite_disk::Disk;
use std::io;

/// Writes the bytes to an empty disk and syncs them.
fn put<D: Disk>(disk: &mut D, bytes: &[u8]) -> io::Result<()>
    requires usable { IsTrue (D.Disk.is_usable disk.old) }
    ensures known { OnOk result (Only (D.Disk.seen disk.new) (D.Disk.may_leave disk.new)) }
    ensures usable { OnOk result (IsTrue (D.Disk.is_usable disk.new)) }
{
    disk.write_at(0, bytes)?;
    disk.sync()
}

/// Fills an empty disk with these bytes.
pub(crate) fn filled<D: Disk + Drop>(mut disk: D, bytes: &[u8]) -> io::Result<D>
    requires usable { IsTrue (D.Disk.is_usable disk) }
    ensures known { IfOk result (λ disk. Only (D.Disk.seen disk) (D.Disk.may_leave disk)) }
    ensures usable { IfOk result (λ disk. IsTrue (D.Disk.is_usable disk)) }
{
    put(&mut disk, bytes)?;
    Ok(disk)
}
