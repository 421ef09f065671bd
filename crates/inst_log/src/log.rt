//! The open log and its append. The new lines are synced before the byte that opens them is
//! written.
ghost use Rattle.std.specs.Prelude.{◌≤◌, ◌^◌, List, ℕ, IfErr, OnOk, ⊤};
ghost use Rattle.sqlite_disk.specs.Disk.{MoreFaults};
ghost use Rattle.inst_log.specs.Disks.{HasKeptFaith};
ghost use Rattle.inst_log.specs.Layout.{recovered_lines, IsBatch};
ghost use Rattle.inst_log.specs.Log.{IsOpenLog, HasGained, StandsWhole, IsAtStage, HasCause};

use crate::LogError;
use crate::synced::write_synced;
use sqlite_disk::Disk;

const MOST_BYTES: usize = 1 << 62;

/// An open log: whole lines, each with its newline, and after them a closed byte.
#[derive(Drop)]
pub struct Log<D: Disk> {
    /// The disk with the log's file.
    pub disk: D,
    /// The position of the closed byte.
    pub end: usize,
}

impl<D: Disk> Log<D> {
    /// Appends the lines of a batch and syncs them. After `Ok` every file that a crash may leave
    /// has them. Costs two writes and two syncs.
    ///
    /// # Errors
    ///
    /// `Full` if the log has 2^62 bytes or more; nothing was written. `Disk` if the disk fails;
    /// open the log again.
    pub fn append(&mut self, batch: &[u8]) -> Result<(), LogError>
        requires open { IsOpenLog D.Disk self.old }
        requires batch { IsBatch batch.now }
        ensures ok { OnOk result
            (HasGained D.Disk (recovered_lines batch.now) ⊤ self.old self.new) }
        // During the call a crash leaves the lines from before it, with the whole batch or without
        // it.
        ensures any_moment { StandsWhole D.Disk (recovered_lines batch.now) self.old.disk
            self.new.disk }
        ensures stages { HasKeptFaith D.Disk self.new.disk → (c : List ℕ) →
            D.Disk.may_leave self.new.disk c
            → IsAtStage (D.Disk.seen self.old.disk) self.old.end batch.now c }
        // `Memory` never occurs.
        ensures cause { IfErr result
            (HasCause (MoreFaults (D.Disk.faults self.old.disk) (D.Disk.faults self.new.disk)) ⊥
            (2 ^ 62 ≤ self.old.end)) }
    {
        if self.end >= MOST_BYTES {
            return Err(LogError::Full);
        }
        write_synced(&mut self.disk, self.end + 1, &batch[1..])?;
        write_synced(&mut self.disk, self.end, &batch[..1])?;
        self.end += batch.len() - 1;
        Ok(())
    }
}
