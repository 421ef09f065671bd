//! Opening a log without a run, and closing its hub for the next opening.
ghost use Rattle.std.specs.Prelude.{◌≡◌, ◌++◌, None, IfOk, IfErr, OnOk};
ghost use Rattle.inst_world.specs.HasRun.{world_settings};
ghost use Rattle.inst_world.specs.NextOpening.{AreClosedBooks};
ghost use Rattle.inst_logged.specs.Closing.{ClosesWith};
ghost use Rattle.inst_log.specs.Disks.{HasKeptFaith};
ghost use Rattle.inst_logged.specs.Running.{disk_of, StopsBy, IsReadyHub, OpensLogAgain};
ghost use Rattle.inst_logged.specs.Running.{StaysAlike};

use super::LoggedHub;
use crate::LoggedError;
use inst_chain::Digest;
use inst_journal::Journal;
use sqlite_disk::Disk;

impl<D: Disk + Drop> LoggedHub<D> {
    /// Opens the log, or makes it in a new file, and answers its lines; no reply is written. The
    /// log's lines stay the same.
    ///
    /// Requires a hub and a disk as for [`run`](LoggedHub::run).
    ///
    /// # Errors
    ///
    /// Those of [`run`](LoggedHub::run) that can occur before the input is read, with the same
    /// state left.
    pub fn open(&mut self, wanted: Option<Digest>) -> Result<(), LoggedError>
        requires ready { IsReadyHub D.Disk self.old }
        ensures ok { OnOk result (HasKeptFaith D.Disk (disk_of self.new) →
            OpensLogAgain D.Disk wanted self.old self.new) }
        ensures any_moment { HasKeptFaith D.Disk (disk_of self.new) →
            StaysAlike D.Disk self.old self.new }
        ensures err { IfErr result (StopsBy D.Disk None wanted self.old self.new (Unit {0}) ⊥) }
        ensures clean { HasKeptFaith D.Disk (disk_of self.new) →
            HasKeptFaith D.Disk (disk_of self.old) }
    {
        let alloc = *self.batch.allocator();
        self.reopen(None, wanted, &mut Vec::new(alloc))
    }

    /// Opens the log as [`open`](LoggedHub::open) does, and closes the hub. Returns its books. A hub
    /// can open from them if each has an opening left, as `inst_world::have_openings_left` tells.
    ///
    /// Requires a hub and a disk as for [`run`](LoggedHub::run).
    ///
    /// # Errors
    ///
    /// Those of [`open`](LoggedHub::open), and `Log(Memory)` if the books can't be allocated; the
    /// log's lines stay the same.
    pub fn close(&mut self, wanted: Option<Digest>) -> Result<Vec<Journal>, LoggedError>
        requires ready { IsReadyHub D.Disk self.old }
        ensures ok { IfOk result (λ journals. HasKeptFaith D.Disk (disk_of self.new) →
            ClosesWith D.Disk wanted self.old self.new journals.items) }
        ensures closed { IfOk result (λ journals. AreClosedBooks
            (world_settings self.new.recorder.answers.runner.world) journals.items) }
        ensures any_moment { HasKeptFaith D.Disk (disk_of self.new) →
            StaysAlike D.Disk self.old self.new }
        ensures err { IfErr result (StopsBy D.Disk None wanted self.old self.new (Unit {0}) ⊥) }
        ensures clean { HasKeptFaith D.Disk (disk_of self.new) →
            HasKeptFaith D.Disk (disk_of self.old) }
    {
        let alloc = *self.batch.allocator();
        self.open(wanted)?;
        Ok(self.recorder.answers.runner.world.close_books(alloc)?)
    }
}
