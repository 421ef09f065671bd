//! Logs in memory.
ghost use Rattle.std.specs.Prelude.{◌≡◌, None, IfErr, IfOk, IsTrue, OnOk, [], false};
ghost use Rattle.inst_program.specs.Logs.{IsLogsError};
ghost use Rattle.sqlite_disk.specs.Memory.{memory_bytes, memory_is_usable};
ghost use Rattle.inst_program_tests.specs.MemoryLogs.{IsCopy, file_at, memory_files, which_of};

use inst_options::LogFault;
use inst_program::{Logs, LogsError};
use sqlite_disk::{Crash, Disk, Fuse, Memory};
use std::alloc::Global;
use std::io::{self, Cursor};

/// The name of one file.
const FIRST: &str = "a";

/// The name of the other file.
const SECOND: &str = "b";

/// One of the two files.
#[derive(Clone, Copy, Debug, PartialEq, Eq)]
pub(crate) enum Which {
    First,
    Second,
}

/// The calls at which a machine stops.
#[derive(Clone, Copy, Debug, PartialEq, Eq)]
pub(crate) enum Calls {
    /// Those of the disk of a file.
    Of(Which),
    /// Those that open, read or look for a file.
    Files,
}

/// Returns the file of this name.
fn find(name: &str) -> Option<Which>
    ensures { result ≡ which_of name.now }
{
    match name {
        FIRST => Some(Which::First),
        SECOND => Some(Which::Second),
        _ => None,
    }
}

/// A file in memory.
#[derive(Drop)]
struct MemoryFile {
    /// Its disk; while the log is open, the disk as it was before.
    disk: Fuse<Memory>,
    /// `true` once the file exists.
    is_made: bool,
    /// How many calls to the disk succeed after the log is opened.
    calls: u64,
}

impl MemoryFile {
    /// Returns a file that doesn't exist.
    fn new(alloc: Global) -> MemoryFile {
        MemoryFile {
            disk: Fuse::new(Memory::new(alloc), u64::MAX),
            is_made: false,
            calls: u64::MAX,
        }
    }

    /// Returns `true` if the file exists.
    fn is_there(&self) -> bool
        ensures { result ≡ false → (⟦<Fuse<Memory> as Disk>⟧).seen self.now.disk ≡ [] }
    {
        self.is_made || !self.disk.inner().bytes().is_empty()
    }
}

/// Writes these bytes to an empty disk, and syncs it.
fn put(memory: &mut Memory, bytes: &[u8]) -> io::Result<()>
    requires empty { memory_bytes memory.old ≡ [] }
    requires usable { IsTrue (memory_is_usable memory.old) }
    ensures { OnOk result (IsCopy ⟦<Memory as Disk>⟧ bytes.now memory.new) }
{
    memory.write_at(0, bytes)?;
    memory.sync()?;
    Ok(())
}

/// Returns a disk with these bytes, on which `calls` calls succeed.
fn disk_with(alloc: Global, bytes: &[u8], calls: u64) -> Result<Fuse<Memory>, LogsError>
    ensures copy { IfOk result (IsCopy ⟦<Fuse<Memory> as Disk>⟧ bytes.now) }
    ensures cause { IfErr result (IsLogsError ⊥ ⊥) }
{
    let mut memory = Memory::new(alloc);
    match put(&mut memory, bytes) {
        Ok(()) => Ok(Fuse::new(memory, calls)),
        Err(_) => Err(LogsError::Memory),
    }
}

/// Counts a call.
///
/// # Errors
///
/// `DiskFault` if no more calls succeed.
fn spend(calls_left: &mut u64) -> Result<(), LogsError>
    ensures { IfErr result (IsLogsError ⊥ ⊥) }
{
    if *calls_left == 0 {
        return Err(LogsError::Log(LogFault::DiskFault));
    }
    *calls_left -= 1;
    Ok(())
}

/// A machine with two files in memory, which can stop at any call and restart.
#[derive(Drop)]
pub(crate) struct MemoryLogs {
    alloc: Global,
    first: MemoryFile,
    second: MemoryFile,
    /// The file whose log is open.
    out: Option<Which>,
    /// How many calls that open, read or look for a file succeed.
    calls_left: u64,
}

impl MemoryLogs {
    /// Returns a machine on which neither file exists.
    pub(crate) fn new(alloc: Global) -> MemoryLogs
        ensures { result.out ≡ None }
    {
        MemoryLogs {
            alloc,
            first: MemoryFile::new(alloc),
            second: MemoryFile::new(alloc),
            out: None,
            calls_left: u64::MAX,
        }
    }

    fn file(&self, which: Which) -> &MemoryFile
        ensures { result.now ≡ file_at self.now.first self.now.second which }
    {
        match which {
            Which::First => &self.first,
            Which::Second => &self.second,
        }
    }

    /// Returns `true` if this file exists.
    pub(crate) fn is_made(&self, which: Which) -> bool {
        self.file(which).is_made
    }

    /// Returns the bytes of this file.
    pub(crate) fn bytes(&self, which: Which) -> &[u8] {
        self.file(which).disk.inner().bytes()
    }

    /// Gives the first file these bytes.
    pub(crate) fn put_first(&mut self, bytes: &[u8]) -> Result<(), LogsError>
        ensures { self.new.out ≡ self.old.out }
    {
        self.first.disk = disk_with(self.alloc, bytes, u64::MAX)?;
        self.first.is_made = true;
        Ok(())
    }

    /// Lets `count` of these calls succeed, and each later one fail. The calls to a disk are
    /// counted from when it is opened.
    pub(crate) fn stop_after(&mut self, calls: Calls, count: u64)
        ensures { self.new.out ≡ self.old.out }
    {
        match calls {
            Calls::Of(Which::First) => self.first.calls = count,
            Calls::Of(Which::Second) => self.second.calls = count,
            Calls::Files => self.calls_left = count,
        }
    }

    /// Stops the machine and restarts it. Each file loses the bytes that weren't synced, and all
    /// calls succeed again.
    pub(crate) fn crash(&mut self)
        ensures { self.new.out ≡ None }
    {
        self.first.disk.crash();
        self.second.disk.crash();
        self.first.calls = u64::MAX;
        self.second.calls = u64::MAX;
        self.calls_left = u64::MAX;
        self.out = None;
    }
}

impl Logs for MemoryLogs {
    type Log = Fuse<Memory>;

    type Reader = Cursor<Vec<u8>>;

    ghost files = { λ logs. memory_files ⟦<Fuse<Memory> as Disk>⟧ logs.first logs.second logs.out };

    ghost mixing = { λ logs mixes. mixes };

    fn open(&mut self, path: &str) -> Result<Fuse<Memory>, LogsError> {
        spend(&mut self.calls_left)?;
        let Some(which) = find(path) else {
            return Err(LogsError::Log(LogFault::DiskFault));
        };
        let file = self.file(which);
        let log = disk_with(self.alloc, file.disk.inner().bytes(), file.calls)?;
        match which {
            Which::First => self.first.is_made = true,
            Which::Second => self.second.is_made = true,
        }
        self.out = Some(which);
        Ok(log)
    }

    fn close(&mut self, log: Fuse<Memory>) {
        match self.out {
            Some(Which::First) => self.first.disk = log,
            Some(Which::Second) => self.second.disk = log,
            None => {}
        }
        self.out = None;
    }

    fn read(&mut self, path: &str) -> Result<Cursor<Vec<u8>>, LogsError> {
        spend(&mut self.calls_left)?;
        let Some(which) = find(path) else {
            return Err(LogsError::Log(LogFault::NoLog));
        };
        let file = self.file(which);
        if !file.is_there() {
            return Err(LogsError::Log(LogFault::NoLog));
        }
        match file.disk.inner().bytes().to_vec(self.alloc) {
            Ok(bytes) => Ok(Cursor::new(bytes)),
            Err(_) => Err(LogsError::Memory),
        }
    }

    fn has(&mut self, path: &str) -> Result<bool, LogsError> {
        spend(&mut self.calls_left)?;
        let Some(which) = find(path) else {
            return Ok(false);
        };
        Ok(self.file(which).is_there())
    }
}
