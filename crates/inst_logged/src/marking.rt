//! Appending marks to batches.
ghost use Rattle.std.specs.Prelude.{◌≡◌, ◌++◌, List, ℕ, OnOk};
ghost use Rattle.inst_log.specs.Layout.{recovered_lines, AreWholeLines, IsShut};
ghost use Rattle.inst_chain.specs.Chain.{HasNoMark, said};
ghost use Rattle.inst_chain.specs.Verifying.{SealedBy};
ghost use Rattle.inst_logged.specs.Marking.{IsIntactBy};

use crate::Version;
use inst_chain::{Marker, mark_lines};
use std::alloc::AllocError;

/// Appends its mark to a batch without a closed byte, if it has lines and the log has marks. After
/// an error drop marker and batch.
pub(crate) fn mark_batch(
    version: Version,
    marker: &mut Marker,
    batch: &mut Vec<u8>,
) -> Result<(), AllocError>
    requires { AreWholeLines batch.old.items }
    ensures whole { OnOk result (AreWholeLines batch.new.items) }
    ensures said { OnOk result (said (recovered_lines batch.new.items)
        ≡ said (recovered_lines batch.old.items)) }
    // If the log's marks were right, they are right with the batch too.
    ensures intact { OnOk result (HasNoMark (recovered_lines batch.old.items) →
        (file new : List ℕ) →
        IsIntactBy version file marker.old
        → recovered_lines new ≡ recovered_lines file ++ recovered_lines batch.new.items →
        IsShut new →
        IsIntactBy version new marker.new) }
{
    match version {
        Version::One => Ok(()),
        Version::Two => mark_some(marker, batch),
    }
}

/// Appends its mark to a batch, if it has lines.
fn mark_some(marker: &mut Marker, batch: &mut Vec<u8>) -> Result<(), AllocError>
    requires { AreWholeLines batch.old.items }
    ensures whole { OnOk result (AreWholeLines batch.new.items) }
    ensures said { OnOk result (said (recovered_lines batch.new.items)
        ≡ said (recovered_lines batch.old.items)) }
    ensures intact { OnOk result (HasNoMark (recovered_lines batch.old.items) →
        (file new : List ℕ) →
        SealedBy file marker.old
        → recovered_lines new ≡ recovered_lines file ++ recovered_lines batch.new.items →
        IsShut new →
        SealedBy new marker.new) }
{
    if batch.is_empty() {
        return Ok(());
    }
    mark_lines(marker, batch)
}
