//! A disk whose file another program changes.
ghost use Rattle.std.specs.Prelude.{◌≡◌, ◌&&◌, not};
ghost use Rattle.inst_world_tests.specs.Changing.{second_of};

use sqlite_disk::{Disk, Tally};
use std::io;

/// How another program changes a file.
#[derive(Clone, Copy, Debug, PartialEq, Eq)]
pub(crate) enum Change {
    /// It cuts off the last byte.
    Cut,
    /// It appends a byte.
    Added,
}

/// A disk whose file has another size from some call of `len` on.
#[derive(Drop)]
pub(crate) struct Changing<D: Disk> {
    pub(crate) inner: D,
    pub(crate) change: Change,
    /// The number of calls of `len` before the change.
    pub(crate) left: u64,
    pub(crate) is_changed: bool,
    /// The number of calls that wrote to the file after the change.
    pub(crate) writes: u64,
}

impl<D: Disk> Changing<D> {
    /// Counts a call that writes.
    fn count(&mut self)
        ensures inner { self.new.inner ≡ self.old.inner }
        ensures changed { self.new.is_changed ≡ self.old.is_changed }
    {
        if self.is_changed {
            self.writes = self.writes.saturating_add(1);
        }
    }
}

/// Returns the size of a changed file that had `len` bytes.
fn size_after(change: Change, len: usize) -> usize {
    match change {
        Change::Cut => len.saturating_sub(1),
        Change::Added => len.saturating_add(1),
    }
}

impl<D: Disk> Disk for Changing<D> {
    ghost seen = { λ f. D.Disk.seen f.inner };

    ghost may_leave = { λ f. D.Disk.may_leave f.inner };

    ghost is_usable = { λ f. D.Disk.is_usable f.inner };

    ghost faults = { λ f. D.Disk.faults f.inner };

    ghost tally_of = { λ f. D.Disk.tally_of f.inner };

    ghost is_rotten = { λ f. D.Disk.is_rotten f.inner };

    ghost key_of = { λ f. D.Disk.key_of f.inner };

    ghost is_clean = { λ f. not f.is_changed && D.Disk.is_clean f.inner };

    ghost is_fair = { λ f. D.Disk.is_fair f.inner };

    ghost fair_if_clean = { λ f key clean. D.Disk.fair_if_clean f.inner key
        (second_of (not f.is_changed) (D.Disk.is_clean f.inner) clean) };

    ghost seen_may_stay = { λ f. D.Disk.seen_may_stay f.inner };

    ghost is_mixing = { λ f. D.Disk.is_mixing f.inner };

    fn mixes(&self) -> bool {
        self.inner.mixes()
    }

    fn key(&self) -> u64 {
        self.inner.key()
    }

    fn tally(&self) -> Tally {
        self.inner.tally()
    }

    fn may_be_used(&self) -> bool {
        self.inner.may_be_used()
    }

    fn len(&mut self) -> io::Result<usize> {
        let len = self.inner.len()?;
        if self.left > 0 {
            self.left -= 1;
            return Ok(len);
        }
        self.is_changed = true;
        Ok(size_after(self.change, len))
    }

    // No run reads after the change.
    fn read_at(&mut self, at: usize, buf: &mut [u8]) -> io::Result<()> {
        if self.is_changed {
            return Ok(());
        }
        self.inner.read_at(at, buf)
    }

    fn read_checked(&mut self, key: u64, want: u64, at: usize, buf: &mut [u8]) -> io::Result<()> {
        if self.is_changed {
            return Err(io::ErrorKind::InvalidData.into());
        }
        self.inner.read_checked(key, want, at, buf)
    }

    fn write_at(&mut self, at: usize, bytes: &[u8]) -> io::Result<()> {
        self.count();
        self.inner.write_at(at, bytes)
    }

    fn set_len(&mut self, len: usize) -> io::Result<()> {
        self.count();
        self.inner.set_len(len)
    }

    fn sync(&mut self) -> io::Result<()> {
        self.count();
        self.inner.sync()
    }
}
