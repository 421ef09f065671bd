//! A machine that stops at each call to its disk in turn, and another run that resumes. What the
//! last call wrote is torn at each byte, and the log is never found damaged.
use crate::comparing::{same, same_at};
use crate::disks::filled;
use crate::log::stops::torn;
use crate::logged::keeping::{Case, case_of, front_len, go_on, newlines, serve_on};
use inst_chain::{is_mark, verify};
use inst_fixtures::Pieces;
use inst_lines::Mode;
use inst_log::read_lines;
use sqlite_disk::{Fuse, Memory};
use std::alloc::Global;
use std::process::Abort;
use std::test::Fail;

/// The calls that write the first bytes to the disk.
const FIRST_CALLS: u64 = 2;

/// More calls than a run makes.
const CALLS: u64 = 60;

/// The most bytes of a read: few, so that the lines come in several batches.
const MOST: usize = 100;

/// What a run leaves that stops.
#[derive(Drop)]
struct Stopped {
    is_done: bool,
    log: Vec<u8>,
    written: Vec<u8>,
}

/// Runs a hub on a disk that stops after `calls` calls.
fn stop(alloc: Global, case: &Case, calls: u64) -> Result<Stopped, Fail> {
    let (mode, settings) = (case.mode, &case.settings);
    let disk = filled(Fuse::new(Memory::new(alloc), calls), b"")?;
    let mut reader = Pieces {
        bytes: &case.input,
        most: MOST,
        fails: false,
    };
    let mut written = Vec::new(alloc);
    let ended = serve_on(alloc, mode, settings, disk, None, &mut reader, &mut written)?;
    Ok(Stopped {
        is_done: ended.outcome.is_ok(),
        log: ended.disk.inner().bytes().to_vec(alloc)?,
        written,
    })
}

/// Returns how many of these lines aren't marks.
fn count_unmarked(lines: &[u8]) -> usize {
    lines
        .split(|&byte| byte == b'\n')
        .filter(|line| !line.is_empty() && !is_mark(line))
        .count()
}

/// Returns how many lines the log has after its header, 0 if it is cut off in its header.
fn kept_lines(rt: &(impl Abort + AllocGlobal), log: &[u8]) -> Result<usize, Fail> {
    let mut disk = filled(Memory::new(rt.alloc()), log)?;
    let lines = read_lines(rt.alloc(), &mut disk, u64::MAX)?;
    Ok(count_unmarked(&lines).saturating_sub(1))
}

/// Returns `true` if the marks of a log with these bytes are right.
fn is_intact(alloc: Global, log: &[u8]) -> Result<bool, Fail> {
    let mut disk = filled(Memory::new(alloc), log)?;
    Ok(verify(alloc, &mut disk, None).is_ok())
}

/// Returns how many first bytes two files have in common.
fn common_len(one: &[u8], other: &[u8]) -> usize {
    one.iter()
        .zip(other)
        .take_while(|(a, b)| **a == **b)
        .count()
}

/// Checks that no log is damaged if the last call was torn at any byte.
fn tears_are_intact(
    rt: &(impl Abort + AllocGlobal),
    before: &[u8],
    after: &[u8],
) -> Result<(), Fail> {
    for len in common_len(before, after)..=before.len().max(after.len()) {
        let log = torn(rt.alloc(), before, after, len)?;
        same_at(rt, len, is_intact(rt.alloc(), &log)?, true);
    }
    Ok(())
}

/// Resumes for a client that has these first bytes of the replies and keeps the whole lines.
/// Returns the replies that it has then.
fn gone_on(
    alloc: Global,
    case: &Case,
    log: &[u8],
    kept: usize,
    front: &[u8],
) -> Result<Vec<u8>, Fail> {
    let (mode, settings) = (case.mode, &case.settings);
    let rest = &case.input[front_len(&case.input, kept)..];
    let told = newlines(front);
    let mut replies = front[..front_len(front, told)].to_vec(alloc)?;
    go_on(
        alloc,
        mode,
        settings,
        log,
        Some(told as u64),
        rest,
        &mut replies,
    )?;
    Ok(replies)
}

/// Resumes for a client with these first bytes of the replies, and checks that it then has each
/// reply once.
fn go_on_behind(
    rt: &(impl Abort + AllocGlobal),
    case: &Case,
    log: &[u8],
    front: &[u8],
) -> Result<(), Fail> {
    let kept = kept_lines(rt, log)?;
    let replies = gone_on(rt.alloc(), case, log, kept, front)?;
    same(rt, replies.as_slice(), case.replies.as_slice());
    Ok(())
}

/// Resumes for a client that received everything that was written, and for one that received half
/// of it.
fn go_on_from(
    rt: &(impl Abort + AllocGlobal),
    case: &Case,
    log: &[u8],
    written: &[u8],
) -> Result<(), Fail> {
    go_on_behind(rt, case, log, written)?;
    go_on_behind(rt, case, log, &written[..written.len() / 2])
}

/// Stops after `calls` calls, and resumes. `before` is the log after one call fewer.
fn stop_and_go_on(
    rt: &(impl Abort + AllocGlobal),
    case: &Case,
    before: &[u8],
    calls: u64,
) -> Result<Stopped, Fail> {
    let stopped = stop(rt.alloc(), case, calls)?;
    tears_are_intact(rt, before, &stopped.log)?;
    go_on_from(rt, case, &stopped.log, &stopped.written)?;
    Ok(stopped)
}

fn stop_at_each_call(rt: &(impl Abort + AllocGlobal), mode: Mode) -> Result<(), Fail> {
    let case = case_of(rt.alloc(), mode)?;
    let mut done = 0u64;
    let mut before = Vec::new(rt.alloc());
    for calls in FIRST_CALLS..CALLS {
        let stopped = stop_and_go_on(rt, &case, &before, calls)?;
        if stopped.is_done {
            done = done.saturating_add(1);
        }
        before = stopped.log;
    }
    same_at(rt, done, done > 0 && done < 20, true);
    Ok(())
}

#[test]
fn each_stop_is_gone_on_from(rt: HostRuntime) -> Result<(), Fail> {
    stop_at_each_call(&rt, Mode::Run)?;
    stop_at_each_call(&rt, Mode::Play)
}
