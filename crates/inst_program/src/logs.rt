//! The trait for the machine's files.
ghost use Rattle.std.specs.Prelude.{◌≡◌, Some, false, [], List, ℕ, IsTrue, IfErr, IfOk};
ghost use Rattle.std.specs.Prelude.{MatchResult};
ghost use Rattle.sqlite_disk.specs.Disk.{Only};
ghost use Rattle.inst_program.specs.Files.{AllAreIn, Files, IfKept, IsFileClosed, IsFileOpened};
ghost use Rattle.inst_program.specs.Files.{IsUntouched};
ghost use Rattle.inst_program.specs.Logs.{IsLogsError};

use inst_options::LogFault;
use sqlite_disk::Disk;
use std::io::Read;

/// Why a log can't be opened, read or looked for.
#[derive(Clone, Copy, Debug, PartialEq, Eq)]
pub enum LogsError {
    /// An allocation failed.
    Memory,
    /// The disk failed, the file isn't there, or another program has the log open.
    Log(LogFault),
}

/// The files of the machine. Logs are opened by name, one at a time. When a log is closed, its file
/// has what its disk has.
pub trait Logs {
    /// The disk of a log that is open.
    type Log: Disk + Drop;

    /// A reader of a log's bytes.
    type Reader: Read + Drop;

    /// The bytes of each file, and the name of the one that is open.
    ghost files: { Self → Files };

    /// Opens the log of this name for this program alone, and makes the file if it isn't there.
    /// Reads then return what is on the disk. Close the log before the next is opened.
    ///
    /// # Errors
    /// `Memory` if an allocation fails; in `Log` `DiskFault` if the disk fails and `LogInUse` if
    /// another program has it open. The files are unchanged.
    fn open(&mut self, path: &str) -> Result<Self::Log, LogsError>
        requires { AllAreIn (files self.old) }
        ensures opened { MatchResult result (λ log.
            IsFileOpened (files self.old) (files self.new) path.now
            (Self.Log.Disk.seen log) (Self.Log.Disk.may_leave log)) (λ _.
            IsUntouched (files self.old) (files self.new)) }
        ensures cause { IfErr result (IsLogsError ((files self.new).in_use path.now) ⊥) }
        ensures usable { IfOk result (λ log. IsTrue (Self.Log.Disk.is_usable log)) }
        ensures known { IfOk result (λ log. IsTrue (Self.Log.Disk.is_clean log)
            → Only (Self.Log.Disk.seen log) (Self.Log.Disk.may_leave log)) };

    /// Closes the log that is open.
    fn close(&mut self, log: Self::Log)
        ensures closed { IfKept (files self.new) ((name : List ℕ) → (files self.old).out ≡ Some name
            → IsFileClosed (files self.old) (files self.new) name (Self.Log.Disk.seen log)
            (Self.Log.Disk.may_leave log)) }
        ensures clean { IfKept (files self.new) (IsTrue (files self.old).is_clean
            × IsTrue (Self.Log.Disk.is_clean log)) };

    /// Returns a reader of the log of this name. Takes no lock, writes nothing and makes no file.
    ///
    /// # Errors
    /// `Memory` if an allocation fails; in `Log` `DiskFault` if the disk fails and `NoLog` if the
    /// file isn't there.
    fn read(&mut self, path: &str) -> Result<Self::Reader, LogsError>
        ensures bytes { IfOk result (λ reader. IfKept (files self.new)
            (Self.Reader.Read.remaining reader ≡ Some ((files self.new).bytes path.now))) }
        ensures cause { IfErr result
            (IsLogsError ⊥ (IfKept (files self.new) ((files self.new).bytes path.now ≡ []))) }
        ensures untouched { IsUntouched (files self.old) (files self.new) };

    /// Returns `true` if a file of this name exists.
    ///
    /// # Errors
    /// `Memory` if an allocation fails, or `DiskFault` in `Log` if the disk fails.
    fn has(&mut self, path: &str) -> Result<bool, LogsError>
        ensures none { IfOk result (λ there.
            IfKept (files self.new) (there ≡ false → (files self.new).bytes path.now ≡ [])) }
        ensures cause { IfErr result (IsLogsError ⊥ ⊥) }
        ensures untouched { IsUntouched (files self.old) (files self.new) };

    /// If the files are such, a log's disk leaves each byte of a torn write old or new.
    ghost mixing: { (logs : Self) → (files logs).mixes → (log : Self.Log) →
        IsTrue (Self.Log.Disk.is_mixing log) };
}
