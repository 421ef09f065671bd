//! Files that open with some settings, and the bytes that are left in those that don't.
use crate::comparing::same_at;
use crate::disks::filled;
use crate::log::batches::one;
use inst_log::{Log, LogError};
use sqlite_disk::Memory;
use std::process::Abort;
use std::test::Fail;

const SETTINGS: &[u8] = b"{\"s\":1}";

#[derive(Clone, Copy)]
enum Opening {
    /// It opens, and has these lines.
    Text(&'static [u8]),
    OtherSettings,
    NoLog,
}

use Opening::{NoLog, OtherSettings, Text};

const NEW: Opening = Text(b"{\"s\":1}\n");

const ROWS: &[(&[u8], Opening)] = &[
    // new files, and what a crash may leave of one
    (b"", NEW),
    (b"\0", NEW),
    (b"{", NEW),
    (b"x", NEW),
    (b"\0\0\0", NEW),
    (b"\0\"s\":1}\n", NEW),
    (b"\0\"s\":1}\n\0", NEW),
    (b"x\"s\":1}\n\0", NEW),
    (b"\0{\"a\":2}\n", NEW),
    // logs with these settings
    (b"{\"s\":1}\n\0", NEW),
    (b"{\"s\":1}\n", NEW),
    (b"{\"s\":1}\n{\"a\":2}", NEW),
    (b"{\"s\":1}\nx\"a\":2}\n{\"b\":3}\n", NEW),
    (b"{\"s\":1}\n{\"a\":2}\n\0", Text(b"{\"s\":1}\n{\"a\":2}\n")),
    (
        b"{\"s\":1}\n{\0}\n\0{\"b\":3}\n",
        Text(b"{\"s\":1}\n{\0}\n"),
    ),
    // logs with other settings
    (b"{\"s\":2}\n\0", OtherSettings),
    (b"{\"s\":1} \n\0", OtherSettings),
    (b"{}\n", OtherSettings),
    (b"{\"a\":2}\n{\"s\":1}\n\0", OtherSettings),
    // not logs
    (b"hello\n", NoLog),
    (b"ab", NoLog),
    (b"{\"s\":1}", NoLog),
    (b"\0 more bytes than the settings have", NoLog),
    (b"\n{\"s\":1}\n\0", NoLog),
];

/// Returns `true` if these lines are left, followed by a byte that begins no line.
fn are_left(left: &[u8], lines: &[u8]) -> bool {
    match left {
        [front @ .., closed] => front == lines && *closed != b'{',
        [] => false,
    }
}

/// Returns `true` if the file opened with these lines and has them now.
fn has_lines(opened: &Result<Vec<u8>, LogError>, left: &[u8], lines: &[u8]) -> bool {
    match opened {
        Ok(text) => text.as_slice() == lines && are_left(left, lines),
        Err(_) => false,
    }
}

/// Returns `true` if opening the file had this result. If it failed, the file must be unchanged.
fn is_so(opened: &Result<Vec<u8>, LogError>, left: &[u8], bytes: &[u8], opening: Opening) -> bool {
    match opening {
        Text(lines) => has_lines(opened, left, lines),
        OtherSettings => matches!(opened, Err(LogError::OtherSettings)) && left == bytes,
        NoLog => matches!(opened, Err(LogError::NoLog)) && left == bytes,
    }
}

/// Opens a file with these bytes, and returns `true` if that had this result.
fn opens(rt: &(impl Abort + AllocGlobal), bytes: &[u8], opening: Opening) -> Result<bool, Fail> {
    let settings = one(rt, SETTINGS)?;
    let disk = filled(Memory::new(rt.alloc()), bytes)?;
    let mut log = Log { disk, end: 0 };
    let opened = log.open(rt.alloc(), &settings);
    Ok(is_so(&opened, log.disk.bytes(), bytes, opening))
}

#[test]
fn files_open_or_are_left(rt: HostRuntime) -> Result<(), Fail> {
    for &(bytes, opening) in ROWS {
        same_at(&rt, bytes, opens(&rt, bytes, opening)?, true);
    }
    Ok(())
}
