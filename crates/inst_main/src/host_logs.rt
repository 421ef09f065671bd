//! Logs in the machine's files.
ghost use Rattle.std.specs.Prelude.{◌≡◌, None, is_some, option_map, string_bytes, IfErr, IfOk};
ghost use Rattle.inst_program.specs.Logs.{IsLogsError};
ghost use Rattle.inst_main.specs.HostLogs.{IsFileAsOpened, host_files, last_closed};

use inst_options::LogFault;
use inst_program::{Logs, LogsError};
use sqlite_disk::{Disk, Files};
use sqlite_std_file::{FileFrom, OpenError, Unknown};
use std::fs::{self, File};
use std::io::{Error, ErrorKind};

/// A log that was closed.
#[derive(Drop)]
struct ClosedLog<D: Disk> {
    name: String,
    log: D,
}

/// Returns `true` if a log of this name was closed.
fn was_closed<D: Disk>(closed: &[ClosedLog<D>], name: &str) -> bool
    ensures { result ≡ is_some (last_closed closed.now name.now) }
{
    for one in closed {
        if one.name.as_str() == name {
            return true;
        }
    }
    false
}

/// The files of the machine. Keeps the disk of each log that was closed, and with it the lock on
/// its file, until the program ends. The file has what that disk has.
#[derive(Drop)]
pub(crate) struct HostLogs<'a> {
    rt: &'a HostRuntime,
    /// The name of the log that is open.
    out: Option<String>,
    /// The closed logs, the last one first.
    closed: Vec<ClosedLog<FileFrom<Unknown>>>,
    /// `false` once a file was read without its disk, the file of a closed log was missing, or a
    /// closed log couldn't be stored: no claim about files holds then.
    is_known: bool,
}

impl<'a> HostLogs<'a> {
    /// Returns the machine's files; no log is open.
    pub(crate) fn new(rt: &'a HostRuntime) -> HostLogs<'a>
        ensures { result.out ≡ None }
    {
        HostLogs {
            rt,
            out: None,
            closed: Vec::new(rt.alloc()),
            is_known: true,
        }
    }
}

impl<'a> Logs for HostLogs<'a> {
    type Log = FileFrom<Unknown>;

    type Reader = File;

    ghost files = { λ logs.
        host_files ⟦<FileFrom<Unknown> as Disk>⟧ logs.closed.items
        (option_map string_bytes logs.out) logs.is_known };

    ghost mixing = { λ logs mixes. mixes };

    fn open(&mut self, path: &str) -> Result<FileFrom<Unknown>, LogsError> {
        if was_closed(&self.closed, path) {
            return Err(LogsError::Log(LogFault::LogInUse));
        }
        let Ok(name) = String::from_str(self.rt.alloc(), path) else {
            return Err(LogsError::Memory);
        };
        let log = open_file(self.rt, path)?;
        self.out = Some(name);
        Ok(log)
    }

    fn close(&mut self, log: FileFrom<Unknown>) {
        let Some(name) = self.out.take() else {
            self.is_known = false;
            return;
        };
        if self.closed.insert(0, ClosedLog { name, log }).is_err() {
            self.is_known = false;
        }
    }

    fn read(&mut self, path: &str) -> Result<File, LogsError> {
        match File::open(self.rt, path) {
            Ok(file) => {
                // No clause says what the file contains.
                self.is_known = false;
                Ok(file)
            }
            Err(error) => {
                if was_closed(&self.closed, path) {
                    self.is_known = false;
                }
                Err(read_error(&error))
            }
        }
    }

    fn has(&mut self, path: &str) -> Result<bool, LogsError> {
        let there = match fs::exists(self.rt, path) {
            Ok(there) => there,
            Err(error) => return Err(logs_error(&error)),
        };
        if !there && was_closed(&self.closed, path) {
            self.is_known = false;
        }
        Ok(there)
    }
}

/// Opens the file at this path as a disk, for this program alone, and makes it if it isn't there.
fn open_file(rt: &HostRuntime, path: &str) -> Result<FileFrom<Unknown>, LogsError>
    ensures new { IfOk result (IsFileAsOpened ⟦<FileFrom<Unknown> as Disk>⟧) }
    ensures cause { IfErr result (IsLogsError (Unit {0}) ⊥) }
{
    match sqlite_std_file::open(rt, path, Unknown) {
        Ok(Files { log, db }) => {
            drop(log);
            Ok(db)
        }
        Err(OpenError::OutOfMemory) => Err(LogsError::Memory),
        Err(OpenError::Busy) => Err(LogsError::Log(LogFault::LogInUse)),
        Err(OpenError::HotJournal) => Err(LogsError::Log(LogFault::DiskFault)),
        Err(OpenError::Io(error)) => Err(logs_error(&error)),
    }
}

/// Returns the error for a failed allocation or disk.
fn logs_error(error: &Error) -> LogsError
    ensures { IsLogsError ⊥ ⊥ result }
{
    match error.kind() {
        ErrorKind::OutOfMemory => LogsError::Memory,
        _ => LogsError::Log(LogFault::DiskFault),
    }
}

/// Returns the error for a missing file, or for a failed allocation or disk.
fn read_error(error: &Error) -> LogsError
    ensures { IsLogsError ⊥ (Unit {0}) result }
{
    match error.kind() {
        ErrorKind::NotFound => LogsError::Log(LogFault::NoLog),
        _ => logs_error(error),
    }
}
