//! Logs in which a byte or a line was changed: a run and a close refuse them and leave them
//! unchanged.
ghost use Rattle.std.specs.Prelude.{◌<◌, length};
ghost use Rattle.inst_logged.specs.Running.{IsReadyHub};

use crate::comparing::{same, same_at};
use crate::disks::filled;
use crate::logged::keeping::{front_len, go_on, text_of};
use crate::logged::openings::{NEXT, SECOND, log_of, next, run_on};
use crate::logged::vector;
use inst_chain::{Digest, Prefix};
use inst_lines::Mode;
use inst_log::{LogError, count_lines};
use inst_logged::{LoggedError, LoggedHub, NewHub};
use inst_settings::Settings;
use sqlite_disk::{Disk, Memory};
use std::alloc::{AllocError, Global};
use std::process::Abort;
use std::test::Fail;

/// The result of a run or a close.
#[derive(Drop)]
pub(crate) struct Ended {
    pub(crate) outcome: Result<(), LoggedError>,
    /// The log's bytes afterwards.
    pub(crate) log: Vec<u8>,
    pub(crate) written: Vec<u8>,
}

/// Runs this hub without input, for a client that has no reply.
fn run_hub<D: Disk + Drop>(
    hub: &mut LoggedHub<D>,
    wanted: Option<Digest>,
    written: &mut Vec<u8>,
) -> Result<(), LoggedError>
    requires ready { IsReadyHub D.Disk hub.old }
{
    let mut reader: &[u8] = b"";
    hub.run(Some(0), wanted, &mut reader, written)
}

/// Closes this hub.
fn close_hub<D: Disk + Drop>(
    hub: &mut LoggedHub<D>,
    wanted: Option<Digest>,
) -> Result<(), LoggedError>
    requires ready { IsReadyHub D.Disk hub.old }
{
    hub.close(wanted)?;
    Ok(())
}

/// What a test does with a log.
#[derive(Clone, Copy, Debug, PartialEq, Eq)]
pub(crate) enum Use {
    Run,
    Close,
}

pub(crate) const USES: [Use; 2] = [Use::Run, Use::Close];

/// Runs or closes the hub of a log with these bytes.
pub(crate) fn use_log(
    alloc: Global,
    settings: &Settings,
    log: &[u8],
    how: Use,
    wanted: Option<Digest>,
) -> Result<Ended, Fail> {
    let mut written = Vec::new(alloc);
    let mut disk = filled(Memory::new(alloc), log)?;
    let hub = match NewHub::of_log(alloc, Mode::Run, settings, &mut disk) {
        Ok(hub) => hub,
        Err(error) => {
            return Ok(Ended {
                outcome: Err(error),
                log: log.to_vec(alloc)?,
                written,
            });
        }
    };
    let mut hub = hub.with_disk(alloc, disk);
    let outcome = match how {
        Use::Run => run_hub(&mut hub, wanted, &mut written),
        Use::Close => close_hub(&mut hub, wanted),
    };
    Ok(Ended {
        outcome,
        log: hub.into_parts().1.bytes().to_vec(alloc)?,
        written,
    })
}

/// Returns the prefix after which the log is damaged, or `None` if the run ended otherwise. A file
/// without any line left is not a log.
fn damage(outcome: &Result<(), LoggedError>) -> Option<Prefix> {
    match outcome {
        Err(LoggedError::Damaged(right)) => Some(*right),
        Err(LoggedError::Log(LogError::NoLog)) => Some(Prefix { lines: 0, bytes: 0 }),
        _ => None,
    }
}

/// Checks that a run and a close find the log damaged and leave it unchanged. Returns the prefix
/// before the damage.
fn is_damaged(
    rt: &(impl Abort + AllocGlobal),
    settings: &Settings,
    log: &[u8],
    at: usize,
) -> Result<Option<Prefix>, Fail> {
    let mut found = None;
    for how in USES {
        let ended = use_log(rt.alloc(), settings, log, how, None)?;
        found = damage(&ended.outcome);
        same_at(rt, (at, how), found.is_some(), true);
        same_at(rt, (at, how), ended.written.len(), 0);
        same_at(rt, (at, how), ended.log.as_slice(), log);
    }
    Ok(found)
}

/// Returns these bytes with one bit flipped.
fn flipped(alloc: Global, log: &[u8], at: usize, bit: u8) -> Result<Vec<u8>, AllocError>
    requires { at < length log.now }
{
    let mut bytes = log.to_vec(alloc)?;
    bytes[at] ^= bit;
    Ok(bytes)
}

/// Returns the lowest bit of a byte, or another one.
fn bit_at(at: usize) -> u8 {
    if at % 2 == 0 { 0x01 } else { 0x40 }
}

/// Flips a bit of each byte of a log, or of every `step`th.
fn flip_each(
    rt: &(impl Abort + AllocGlobal),
    settings: &Settings,
    log: &[u8],
    step: usize,
) -> Result<(), Fail> {
    for at in 0..log.len() {
        if step > 0 && at % step == 0 {
            let changed = flipped(rt.alloc(), log, at, bit_at(at))?;
            is_damaged(rt, settings, &changed, at)?;
        }
    }
    Ok(())
}

/// Returns a log that begins with books, followed by lines.
fn log_with_books(alloc: Global, settings: &Settings) -> Result<Vec<u8>, Fail> {
    let log = log_of(alloc, NEXT)?;
    let input = text_of(alloc, SECOND)?;
    run_on(alloc, settings, &log, &input, &mut Vec::new(alloc))
}

#[test]
fn no_flipped_bit_is_taken(rt: HostRuntime) -> Result<(), Fail> {
    let settings = inst_fixtures::settings(rt.alloc())?;
    let log = vector::made(rt.alloc(), &settings, &mut Vec::new(rt.alloc()))?;
    flip_each(&rt, &settings, &log, 1)
}

#[test]
fn no_flipped_bit_of_books_is_taken(rt: HostRuntime) -> Result<(), Fail> {
    let settings = inst_fixtures::settings(rt.alloc())?;
    let log = log_with_books(rt.alloc(), &settings)?;
    flip_each(&rt, &settings, &log, 7)
}

/// Bytes of the log of three batches, and the lines up to the mark before each.
const PREFIXES: &[(usize, Prefix)] = &[
    (0, Prefix { lines: 0, bytes: 0 }),
    (240, Prefix { lines: 0, bytes: 0 }),
    (
        241,
        Prefix {
            lines: 2,
            bytes: 241,
        },
    ),
    (
        469,
        Prefix {
            lines: 2,
            bytes: 241,
        },
    ),
    (
        470,
        Prefix {
            lines: 5,
            bytes: 470,
        },
    ),
    (
        547,
        Prefix {
            lines: 5,
            bytes: 470,
        },
    ),
    (
        548,
        Prefix {
            lines: 7,
            bytes: 548,
        },
    ),
];

#[test]
fn damage_is_told_with_the_lines_before_it(rt: HostRuntime) -> Result<(), Fail> {
    let settings = vector::settings(rt.alloc())?;
    for &(at, right) in PREFIXES {
        if at < vector::LOG.len() {
            let changed = flipped(rt.alloc(), vector::LOG, at, 1)?;
            let found = is_damaged(&rt, &settings, &changed, at)?;
            same_at(&rt, at, found, Some(right));
        }
    }
    Ok(())
}

/// Splits a log into lines without their newlines.
fn lines_in<'a>(alloc: Global, log: &'a [u8]) -> Result<Vec<&'a [u8]>, AllocError> {
    log.split(|&byte| byte == b'\n')
        .take(count_lines(log))
        .collect(alloc)
}

/// Appends a line with its newline.
fn push(log: &mut Vec<u8>, line: &[u8]) -> Result<(), AllocError> {
    log.extend_from_slice(line)?;
    log.push(b'\n')?;
    Ok(())
}

/// How one line of a log is changed.
#[derive(Clone, Copy, Debug, PartialEq, Eq)]
enum Change {
    Dropped,
    Doubled,
    /// It comes after the next one.
    Swapped,
}

const CHANGES: [Change; 3] = [Change::Dropped, Change::Doubled, Change::Swapped];

/// Returns a log of these lines, with one of them changed.
fn changed(
    alloc: Global,
    lines: &[&[u8]],
    at: usize,
    change: Change,
) -> Result<Vec<u8>, AllocError> {
    let mut log = Vec::new(alloc);
    let mut held = None;
    for (i, line) in lines.iter().enumerate() {
        if i != at || change != Change::Swapped {
            let count = copies(i == at, change);
            for _ in 0..count {
                push(&mut log, line)?;
            }
            if let Some(first) = held {
                push(&mut log, first)?;
            }
            held = None;
        } else {
            held = Some(*line);
        }
    }
    if let Some(first) = held {
        push(&mut log, first)?;
    }
    log.push(0)?;
    Ok(log)
}

/// Returns how often the log has the line after this change.
fn copies(is_changed: bool, change: Change) -> usize {
    match change {
        Change::Dropped if is_changed => 0,
        Change::Doubled if is_changed => 2,
        _ => 1,
    }
}

/// Tries each change of each line. The last line has none after it to be exchanged with.
fn change_each(
    rt: &(impl Abort + AllocGlobal),
    settings: &Settings,
    log: &[u8],
) -> Result<(), Fail> {
    let lines = lines_in(rt.alloc(), log)?;
    for at in 0..lines.len() {
        for change in CHANGES {
            let log_then = changed(rt.alloc(), &lines, at, change)?;
            if log_then.as_slice() != log {
                is_damaged(rt, settings, &log_then, at)?;
            }
        }
    }
    Ok(())
}

#[test]
fn no_changed_line_is_taken(rt: HostRuntime) -> Result<(), Fail> {
    change_each(&rt, &vector::settings(rt.alloc())?, vector::LOG)?;
    let settings = inst_fixtures::settings(rt.alloc())?;
    let log = log_with_books(rt.alloc(), &settings)?;
    change_each(&rt, &settings, &log)
}

/// Returns the log of the same settings whose second batch is another line.
fn other_log(alloc: Global, settings: &Settings) -> Result<Vec<u8>, Fail> {
    let first =
        b"{\"at\":0,\"cents\":50001,\"cmd\":\"fund\",\"ref\":\"F1\",\"who\":\"AAAADEFF\"}\n";
    let mut written = Vec::new(alloc);
    let log = go_on(alloc, Mode::Run, settings, b"", None, first, &mut written)?;
    go_on(
        alloc,
        Mode::Run,
        settings,
        &log,
        None,
        b"no JSON\n",
        &mut written,
    )
}

/// Returns the first `count` lines of a log, followed by the last batch of another.
fn spliced(alloc: Global, log: &[u8], count: usize, other: &[u8]) -> Result<Vec<u8>, AllocError> {
    let mut bytes = log[..front_len(log, count)].to_vec(alloc)?;
    bytes.extend_from_slice(&other[front_len(other, 4)..])?;
    Ok(bytes)
}

#[test]
fn no_spliced_log_is_taken(rt: HostRuntime) -> Result<(), Fail> {
    let settings = vector::settings(rt.alloc())?;
    let other = other_log(rt.alloc(), &settings)?;
    for count in [2, 5, 7] {
        let log = spliced(rt.alloc(), vector::LOG, count, &other)?;
        is_damaged(&rt, &settings, &log, count)?;
    }
    Ok(())
}

#[test]
fn the_same_books_come_from_the_same_bytes(rt: HostRuntime) -> Result<(), Fail> {
    // Nothing after the closed byte is read.
    let settings = vector::settings(rt.alloc())?;
    let mut log = vector::LOG.to_vec(rt.alloc())?;
    log.extend_from_slice(b"{\"at\":0}\n{\x01{0\n\0 and more")?;
    let ended = use_log(rt.alloc(), &settings, &log, Use::Run, None)?;
    same(&rt, ended.outcome.is_ok(), true);
    same(&rt, ended.written.as_slice(), vector::REPLIES);
    let found = next(rt.alloc(), &settings, &log)?;
    let wanted = next(rt.alloc(), &settings, vector::LOG)?;
    same(&rt, found.as_deref(), wanted.as_deref());
    Ok(())
}
