//! A machine that stops at each call to its disk in turn. What the last call wrote is torn at each
//! byte.
ghost use Rattle.inst_log.specs.Disks.{IsJustOpened};
ghost use Rattle.inst_log.specs.Layout.{IsBatch};
ghost use Rattle.inst_log.specs.Log.{IsOpenLog};

use crate::comparing::{same, same_at};
use crate::disks::filled;
use crate::log::batches::{one, two};
use inst_log::Log;
use sqlite_disk::{Disk, Fuse, Memory};
use std::alloc::{AllocError, Global};
use std::process::Abort;
use std::test::Fail;

const SETTINGS: &[u8] = b"{\"s\":1}";

const FIRST: [&[u8]; 2] = [b"{\"d\":5}", b""];

const SECOND: &[u8] = b"{\0}";

const TEXT_OF_SETTINGS: &[u8] = b"{\"s\":1}\n";

/// The lines that prefixes of the two batches leave.
const FRONTS: [&[u8]; 3] = [b"", b"{\"d\":5}\n{\x01\n", b"{\"d\":5}\n{\x01\n{\0}\n"];

/// More calls than a run makes.
const CALLS: u64 = 30;

/// The calls that write the first bytes to the disk.
const FIRST_CALLS: u64 = 2;

/// New files, and logs that are cut short, each with its lines after the settings.
const STARTS: &[(&[u8], &[u8])] = &[
    (b"", b""),
    (b"{", b""),
    (b"x\"s\":1}\n\0", b""),
    (b"{\"s\":1}\n{\"a\":2}\n{\"b\"", b"{\"a\":2}\n"),
    (b"{\"s\":1}\n\0\"a\":2}\n{\"b\":3}\n{\"c\":4}\n\0", b""),
];

/// Opens a log and appends two batches. Returns how many of the three were acknowledged.
fn acknowledged<D: Disk>(
    alloc: Global,
    log: &mut Log<D>,
    settings: &[u8],
    first: &[u8],
    second: &[u8],
) -> usize
    requires ready { IsJustOpened D.Disk log.old.disk }
    requires settings { IsBatch settings.now }
    requires first { IsBatch first.now }
    requires second { IsBatch second.now }
{
    if log.open(alloc, settings).is_err() {
        return 0;
    }
    appended(log, first, second)
}

/// Appends two batches to an open log. Returns how many of the three were acknowledged.
fn appended<D: Disk>(log: &mut Log<D>, first: &[u8], second: &[u8]) -> usize
    requires open { IsOpenLog D.Disk log.old }
    requires first { IsBatch first.now }
    requires second { IsBatch second.now }
{
    if log.append(first).is_err() {
        return 1;
    }
    if log.append(second).is_err() {
        return 2;
    }
    3
}

/// What a run leaves that stops, and how many of the three were acknowledged.
#[derive(Drop)]
struct Stopped {
    bytes: Vec<u8>,
    added: usize,
}

/// Opens the log with the settings and appends both batches. Returns how many of the three were
/// acknowledged.
fn added<D: Disk>(rt: &(impl Abort + AllocGlobal), log: &mut Log<D>) -> Result<usize, Fail>
    requires ready { IsJustOpened D.Disk log.old.disk }
{
    let settings = one(rt, SETTINGS)?;
    let first = two(rt, FIRST[0], FIRST[1])?;
    let second = one(rt, SECOND)?;
    Ok(acknowledged(rt.alloc(), log, &settings, &first, &second))
}

fn stop(rt: &(impl Abort + AllocGlobal), start: &[u8], calls: u64) -> Result<Stopped, Fail> {
    let disk = filled(Fuse::new(Memory::new(rt.alloc()), calls), start)?;
    let mut log = Log { disk, end: 0 };
    let added = added(rt, &mut log)?;
    let bytes = log.disk.inner().bytes().to_vec(rt.alloc())?;
    Ok(Stopped { bytes, added })
}

/// Returns the file after a call of which only the first `len` bytes were written.
pub(crate) fn torn(
    alloc: Global,
    before: &[u8],
    after: &[u8],
    len: usize,
) -> Result<Vec<u8>, AllocError> {
    let mut bytes = Vec::new(alloc);
    bytes.extend_from_slice(&after[..len.min(after.len())])?;
    bytes.extend_from_slice(&before[len.min(before.len())..])?;
    Ok(bytes)
}

/// Returns the lines of a log with these bytes.
fn text_of(rt: &(impl Abort + AllocGlobal), bytes: &[u8]) -> Result<Vec<u8>, Fail> {
    let alloc = rt.alloc();
    let settings = one(rt, SETTINGS)?;
    let disk = filled(Memory::new(alloc), bytes)?;
    let mut log = Log { disk, end: 0 };
    Ok(log.open(alloc, &settings)?)
}

/// Returns `true` if the text is the settings, the lines that the log had at first, and then a
/// prefix of the two batches, with at least the acknowledged ones.
fn is_front(text: &[u8], kept: &[u8], acknowledged: usize) -> bool {
    let batches = match text.strip_prefix(TEXT_OF_SETTINGS) {
        Some(lines) => lines.strip_prefix(kept),
        None => None,
    };
    match batches {
        Some(batches) => FRONTS
            .iter()
            .skip(acknowledged)
            .any(|front| *front == batches),
        None => false,
    }
}

/// Returns `true` if the log opens to such a prefix, where only the first `len` bytes of the last
/// call were written.
fn leaves_a_front(
    rt: &(impl Abort + AllocGlobal),
    kept: &[u8],
    before: &Stopped,
    after: &Stopped,
    len: usize,
) -> Result<bool, Fail> {
    let bytes = torn(rt.alloc(), &before.bytes, &after.bytes, len)?;
    let text = text_of(rt, &bytes)?;
    Ok(is_front(&text, kept, before.added.saturating_sub(1)))
}

/// Tries each byte at which the last call may be torn.
fn tears(
    rt: &(impl Abort + AllocGlobal),
    kept: &[u8],
    before: &Stopped,
    after: &Stopped,
) -> Result<(), Fail> {
    for len in 0..=before.bytes.len().max(after.bytes.len()) {
        same_at(rt, len, leaves_a_front(rt, kept, before, after, len)?, true);
    }
    Ok(())
}

/// Stops a run from these bytes at each call, until everything is acknowledged.
fn stop_at_each_call(
    rt: &(impl Abort + AllocGlobal),
    start: &[u8],
    kept: &[u8],
) -> Result<(), Fail> {
    let mut before = stop(rt, start, FIRST_CALLS)?;
    for calls in FIRST_CALLS + 1..CALLS {
        let after = stop(rt, start, calls)?;
        tears(rt, kept, &before, &after)?;
        before = after;
    }
    same(rt, before.added, 3);
    Ok(())
}

#[test]
fn each_stop_leaves_a_front(rt: HostRuntime) -> Result<(), Fail> {
    for &(start, kept) in STARTS {
        stop_at_each_call(&rt, start, kept)?;
    }
    Ok(())
}
