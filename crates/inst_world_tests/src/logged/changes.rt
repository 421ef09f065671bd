//! Another program changes a log's file while a hub uses it.
use crate::comparing::same_at;
use crate::disks::filled;
use crate::logged::changing::{Change, Changing};
use crate::logged::keeping::{Case, Ended, case_of, front_len, newlines, serve_on};
use inst_fixtures::Pieces;
use inst_lines::Mode;
use inst_logged::LoggedError;
use sqlite_disk::Memory;
use std::alloc::Global;
use std::process::Abort;
use std::test::Fail;

/// The most bytes of a read: few, so that the lines come in several batches.
const MOST: usize = 100;

/// Runs a hub on an empty disk whose file changes after `left` calls of `len`.
fn serve_changed(
    alloc: Global,
    case: &Case,
    change: Change,
    left: u64,
    written: &mut Vec<u8>,
) -> Result<Ended<Changing<Memory>>, Fail> {
    let disk = Changing {
        inner: Memory::new(alloc),
        change,
        left,
        is_changed: false,
        writes: 0,
    };
    let mut reader = Pieces {
        bytes: &case.input,
        most: MOST,
        fails: false,
    };
    let (mode, settings) = (case.mode, &case.settings);
    serve_on(
        alloc,
        mode,
        settings,
        filled(disk, b"")?,
        None,
        &mut reader,
        written,
    )
}

/// Counts the calls of `len` in a run.
fn count_sizes(alloc: Global, case: &Case) -> Result<u64, Fail> {
    let mut written = Vec::new(alloc);
    let ended = serve_changed(alloc, case, Change::Added, u64::MAX, &mut written)?;
    ended.outcome?;
    Ok(u64::MAX - ended.disk.left)
}

/// Changes the file after `left` calls of `len`, when `len` bytes of the input are answered. The
/// run must end with `Changed` and write nothing more.
fn change_behind(
    rt: &(impl Abort + AllocGlobal),
    case: &Case,
    change: Change,
    left: u64,
    len: usize,
) -> Result<(), Fail> {
    let mut written = Vec::new(rt.alloc());
    let ended = serve_changed(rt.alloc(), case, change, left, &mut written)?;
    let is_changed = matches!(ended.outcome, Err(LoggedError::Changed));
    let count = newlines(&case.input[..len.min(case.input.len())]);
    let replies = &case.replies[..front_len(&case.replies, count)];
    let found = (is_changed, ended.disk.writes, written.as_slice());
    same_at(rt, (change, len), found, (true, 0, replies));
    Ok(())
}

/// Changes the file after each read. A read is followed by two calls of `len`: before the batch is
/// written, and after it.
fn change_behind_each_read(
    rt: &(impl Abort + AllocGlobal),
    mode: Mode,
    change: Change,
) -> Result<(), Fail> {
    let case = case_of(rt.alloc(), mode)?;
    let sizes = count_sizes(rt.alloc(), &case)?;
    let reads = case.input.len().div_ceil(MOST).saturating_add(1);
    for read in 0..reads {
        let last = (reads.saturating_sub(read) as u64).saturating_mul(2);
        let left = sizes.saturating_sub(last);
        change_behind(rt, &case, change, left, read.saturating_mul(MOST))?;
    }
    Ok(())
}

/// Cuts the file while the replies to each batch are written.
fn cut_under_replies(rt: &(impl Abort + AllocGlobal), mode: Mode) -> Result<(), Fail> {
    let case = case_of(rt.alloc(), mode)?;
    let sizes = count_sizes(rt.alloc(), &case)?;
    let reads = case.input.len().div_ceil(MOST).saturating_add(1);
    for read in 0..reads {
        let last = (reads.saturating_sub(read) as u64).saturating_mul(2);
        let left = sizes.saturating_sub(last).saturating_add(1);
        let len = read.saturating_add(1).saturating_mul(MOST);
        change_behind(rt, &case, Change::Cut, left, len)?;
    }
    Ok(())
}

#[test]
fn a_file_that_is_cut_under_replies_ends_a_run(rt: HostRuntime) -> Result<(), Fail> {
    cut_under_replies(&rt, Mode::Run)?;
    cut_under_replies(&rt, Mode::Play)
}

#[test]
fn a_changed_file_ends_a_run(rt: HostRuntime) -> Result<(), Fail> {
    for change in [Change::Cut, Change::Added] {
        change_behind_each_read(&rt, Mode::Run, change)?;
        change_behind_each_read(&rt, Mode::Play, change)?;
    }
    Ok(())
}
