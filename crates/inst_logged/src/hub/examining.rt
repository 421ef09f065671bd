//! Examining a log before anything is written to it.
ghost use Rattle.std.specs.Prelude.{IsTrue};
ghost use Rattle.inst_log.specs.Layout.{IsBatch};
ghost use Rattle.inst_logged.specs.Marking.{BeginsWithMarker, IsFirstMark};
ghost use Rattle.inst_logged.specs.declared.version.Version.TheVariants as version;
ghost use Rattle.inst_logged.specs.inner.Finding.{IsExamined};

use crate::{LoggedError, Version};
use inst_chain::{Digest, Marker, Verified, verify_known};
use inst_log::{Extent, survey};
use sqlite_disk::Disk;
use std::alloc::Global;

/// What a log was found to have.
#[derive(Drop)]
pub(crate) struct LogFindings {
    /// The length of the file, and where its lines end.
    pub(crate) extent: Extent,
    /// The marker for the next mark, if the log has marks and a line.
    pub(crate) marker: Option<Marker>,
}

/// Reads the log on this disk and verifies its marks, if it has any. `header` and `marker` are the
/// first lines that the log should have, as a batch, and the marker for what follows.
///
/// # Errors
///
/// `Damaged` if a mark or the end is wrong, `OtherDigest` if it has no mark with the wanted digest.
pub(crate) fn examine<D: Disk>(
    alloc: Global,
    version: Version,
    header: &[u8],
    marker: &Marker,
    disk: &mut D,
    wanted: Option<Digest>,
) -> Result<LogFindings, LoggedError>
    requires usable { IsTrue (D.Disk.is_usable disk.old) }
    requires batch { IsBatch header.now }
    requires begins { BeginsWithMarker version header.now marker.now }
    ensures { IsExamined D.Disk version wanted disk.old disk.new result }
{
    match version {
        Version::One => examine_unmarked(alloc, disk, wanted),
        Version::Two => examine_marked(alloc, header, marker, disk, wanted),
    }
}

/// Reads a log without marks.
fn examine_unmarked<D: Disk>(
    alloc: Global,
    disk: &mut D,
    wanted: Option<Digest>,
) -> Result<LogFindings, LoggedError>
    requires usable { IsTrue (D.Disk.is_usable disk.old) }
    ensures { IsExamined D.Disk version.One wanted disk.old disk.new result }
{
    if wanted.is_some() {
        return Err(LoggedError::OtherDigest);
    }
    let extent = survey(alloc, disk)?;
    Ok(LogFindings {
        extent,
        marker: None,
    })
}

/// Reads a log with marks, and verifies them. Computes no digest of the header again.
fn examine_marked<D: Disk>(
    alloc: Global,
    header: &[u8],
    marker: &Marker,
    disk: &mut D,
    wanted: Option<Digest>,
) -> Result<LogFindings, LoggedError>
    requires usable { IsTrue (D.Disk.is_usable disk.old) }
    requires batch { IsBatch header.now }
    requires begins { IsFirstMark header.now marker.now }
    ensures { IsExamined D.Disk version.Two wanted disk.old disk.new result }
{
    let verified = verify_known(alloc, disk, header, marker, wanted)?;
    if !verified.has_wanted {
        return Err(LoggedError::OtherDigest);
    }
    let Verified { extent, marker, .. } = verified;
    Ok(LogFindings { extent, marker })
}
