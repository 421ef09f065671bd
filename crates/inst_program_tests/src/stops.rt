//! A machine stops at each call to a disk or to the files in turn, and restarts without the bytes
//! that weren't synced.
ghost use Rattle.std.specs.Prelude.{◌≡◌, None};

use crate::memory_logs::{Calls, MemoryLogs, Which};
use crate::scene::{EndedRun, LINES, NEXT, REPLIES, RUN, run, run_to};
use inst_fixtures::Pieces;
use std::alloc::Global;
use std::process::Abort;
use std::sync::Wait;
use std::test::Fail;
use std::thread::Threads;

/// More calls than a task makes.
const MOST_CALLS: u64 = 100;

/// Returns a reader of these lines with at most 100 bytes in a read, so that they come in several
/// batches.
fn in_pieces(bytes: &[u8]) -> Pieces<'_> {
    Pieces {
        bytes,
        most: 100,
        fails: false,
    }
}

/// Returns the number of newlines of a text.
fn newlines(text: &[u8]) -> usize {
    text.iter().filter(|byte| **byte == b'\n').count()
}

/// Returns the lines after the first `count`.
fn lines_after(text: &[u8], count: usize) -> &[u8] {
    let mut rest = text;
    for _ in 0..count {
        match rest.iter().position(|byte| *byte == b'\n') {
            Some(newline) => rest = &rest[newline + 1..],
            None => return b"",
        }
    }
    rest
}

/// Returns the first `count` lines of a text.
fn first_lines(text: &[u8], count: usize) -> &[u8] {
    let rest = lines_after(text, count);
    &text[..text.len().saturating_sub(rest.len())]
}

/// Returns the number in the line `lines` of the output of the task `log`.
fn lines_told(alloc: Global, output: &[u8]) -> Result<Option<usize>, Fail> {
    let output = String::from_utf8_lossy(alloc, output)?;
    for line in output.lines() {
        if let Some(count) = line.strip_prefix("lines ") {
            return Ok(count.parse::<usize>().ok());
        }
    }
    Ok(None)
}

/// Returns how many lines the first log has, or 0 if the crash left no log.
fn kept_lines<H: Threads + Wait + Sync + AllocGlobal + Abort>(
    rt: &H,
    logs: &mut MemoryLogs,
) -> Result<usize, Fail>
    requires { logs.old.out ≡ None }
    ensures { logs.new.out ≡ None }
{
    let mut reader: &[u8] = b"";
    let ended = run(rt, logs, "log a", reader)?;
    if ended.status == 2 {
        assert_eq!(rt; ended.errors.as_slice(), b"fault 21 NoLog\n".as_slice());
        return Ok(0);
    }
    let lines = lines_told(rt.alloc(), &ended.output)?;
    assert!(rt; lines.is_some(), "log a: {}", ended.status);
    Ok(lines.unwrap_or(0))
}

/// Returns `true` if the task was done. Otherwise it must have ended with `DiskFault`.
fn is_done<H: Abort>(rt: &H, calls: Calls, count: u64, ended: &EndedRun) -> bool {
    if ended.status == 0 {
        return true;
    }
    let found = (calls, count, ended.status, ended.errors.as_slice());
    let wanted = (calls, count, 3, b"fault 19 DiskFault\n".as_slice());
    assert_eq!(rt; found, wanted);
    false
}

/// Resumes a stopped run for a client that has the replies `before`, with the lines that the log
/// doesn't have. Checks that the client then has each reply once.
fn resume<H: Threads + Wait + Sync + AllocGlobal + Abort>(
    rt: &H,
    logs: &mut MemoryLogs,
    count: u64,
    before: &[u8],
) -> Result<(), Fail>
    requires { logs.old.out ≡ None }
    ensures { logs.new.out ≡ None }
{
    let told = newlines(before);
    let kept = kept_lines(rt, logs)?;
    assert!(rt; told <= kept, "{told} replies to {kept} lines");
    let words = format!(in rt.alloc(); "{RUN} --told {told}")?;
    let mut reader = in_pieces(lines_after(LINES, kept));
    let ended = run(rt, logs, &words, reader)?;
    let mut replies = before.to_vec(rt.alloc())?;
    replies.extend_from_slice(&ended.output)?;
    let found = (count, ended.status, replies.as_slice());
    assert_eq!(rt; found, (count, 0, REPLIES));
    Ok(())
}

/// Stops a run after `count` of these calls, and resumes it. If the client `loses` replies, it has
/// the first half of them. Returns whether the run was done, and how many replies the client had.
fn stop_run<H: Threads + Wait + Sync + AllocGlobal + Abort>(
    rt: &H,
    calls: Calls,
    count: u64,
    loses: bool,
) -> Result<(bool, usize), Fail> {
    let mut logs = MemoryLogs::new(rt.alloc());
    logs.stop_after(calls, count);
    let ended = run(rt, &mut logs, RUN, in_pieces(LINES))?;
    let is_done = is_done(rt, calls, count, &ended);
    logs.crash();
    let written = newlines(&ended.output);
    let told = if loses { written / 2 } else { written };
    resume(rt, &mut logs, count, first_lines(&ended.output, told))?;
    Ok((is_done, told))
}

/// Stops a run at each of these calls in turn, and resumes it. Returns the number of stops after a
/// reply, and of all stops.
fn stop_runs<H: Threads + Wait + Sync + AllocGlobal + Abort>(
    rt: &H,
    calls: Calls,
    loses: bool,
) -> Result<(u64, u64), Fail> {
    let mut replied = 0u64;
    for count in 0..MOST_CALLS {
        let (is_done, told) = stop_run(rt, calls, count, loses)?;
        if is_done {
            return Ok((replied, count));
        }
        if told > 0 {
            replied = replied.saturating_add(1);
        }
    }
    Ok((replied, MOST_CALLS))
}

#[test]
fn a_run_resumes_after_each_stop(rt: HostRuntime) -> Result<(), Fail> {
    for loses in [false, true] {
        assert_eq!(rt; stop_runs(&rt, Calls::Files, loses)?, (0, 1));
        let (replied, stops) = stop_runs(&rt, Calls::Of(Which::First), loses)?;
        assert!(rt;
            10 < replied && replied < stops && stops < MOST_CALLS,
            "{replied} of {stops}"
        );
    }
    Ok(())
}

/// Stops the task `next` after `count` of these calls, and runs it again. Both leave the first log
/// unchanged, and the second log gets the bytes that it gets without a stop. Returns `true` if the
/// task was done the first time.
fn stop_next<H: Threads + Wait + Sync + AllocGlobal + Abort>(
    rt: &H,
    calls: Calls,
    count: u64,
    second: &[u8],
) -> Result<bool, Fail> {
    let mut logs = MemoryLogs::new(rt.alloc());
    run_to(rt, &mut logs, RUN, LINES, (0, REPLIES, b""))?;
    let first = logs.bytes(Which::First).to_vec(rt.alloc())?;
    logs.stop_after(calls, count);
    let mut reader: &[u8] = b"";
    let ended = run(rt, &mut logs, NEXT, reader)?;
    let is_done = is_done(rt, calls, count, &ended);
    logs.crash();
    assert_eq!(rt; logs.bytes(Which::First), first.as_slice());
    run_to(rt, &mut logs, NEXT, b"", (0, b"", b""))?;
    assert_eq!(rt; logs.bytes(Which::First), first.as_slice());
    assert_eq!(rt; logs.bytes(Which::Second), second);
    Ok(is_done)
}

/// Stops the task `next` at each of these calls in turn. Returns the number of stops.
fn stop_nexts<H: Threads + Wait + Sync + AllocGlobal + Abort>(
    rt: &H,
    calls: Calls,
    second: &[u8],
) -> Result<u64, Fail> {
    for count in 0..MOST_CALLS {
        if stop_next(rt, calls, count, second)? {
            return Ok(count);
        }
    }
    Ok(MOST_CALLS)
}

#[test]
fn a_next_opening_begins_after_each_stop(rt: HostRuntime) -> Result<(), Fail> {
    let mut logs = MemoryLogs::new(rt.alloc());
    run_to(&rt, &mut logs, RUN, LINES, (0, REPLIES, b""))?;
    run_to(&rt, &mut logs, NEXT, b"", (0, b"", b""))?;
    let second = logs.bytes(Which::Second);
    assert!(rt; !second.is_empty());
    assert_eq!(rt; stop_nexts(&rt, Calls::Files, second)?, 3);
    for which in [Which::First, Which::Second] {
        let stops = stop_nexts(&rt, Calls::Of(which), second)?;
        assert!(rt; 3 < stops && stops < MOST_CALLS, "{stops}");
    }
    Ok(())
}
