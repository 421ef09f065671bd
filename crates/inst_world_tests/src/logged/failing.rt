//! A reader that fails after each byte, and another run that resumes after the lines read so far.
use crate::comparing::same_at;
use crate::logged::keeping::{Case, case_of, front_len, go_on, newlines, serve};
use inst_fixtures::Pieces;
use inst_lines::Mode;
use inst_logged::LoggedError;
use sqlite_disk::Memory;
use std::alloc::Global;
use std::process::Abort;
use std::test::Fail;

/// Runs a hub whose reader fails after these bytes, checks the replies to their whole lines, and
/// returns the disk.
fn fail(
    rt: &(impl Abort + AllocGlobal),
    case: &Case,
    bytes: &[u8],
    written: &mut Vec<u8>,
) -> Result<Memory, Fail> {
    let (mode, settings) = (case.mode, &case.settings);
    let mut reader = Pieces {
        bytes,
        most: 50,
        fails: true,
    };
    let ended = serve(rt.alloc(), mode, settings, b"", None, &mut reader, written)?;
    let front = &case.replies[..front_len(&case.replies, newlines(bytes))];
    let is_read = matches!(ended.outcome, Err(LoggedError::Read));
    let found = (is_read, written.as_slice());
    same_at(rt, bytes.len(), found, (true, front));
    Ok(ended.disk)
}

/// Resumes after the lines of this log.
fn go_on_behind(
    alloc: Global,
    case: &Case,
    log: &[u8],
    count: usize,
    written: &mut Vec<u8>,
) -> Result<(), Fail> {
    let (mode, settings) = (case.mode, &case.settings);
    let rest = &case.input[front_len(&case.input, count)..];
    go_on(alloc, mode, settings, log, None, rest, written)?;
    Ok(())
}

/// Fails after these bytes, and resumes.
fn fail_behind(rt: &(impl Abort + AllocGlobal), case: &Case, bytes: &[u8]) -> Result<(), Fail> {
    let mut written = Vec::new(rt.alloc());
    let disk = fail(rt, case, bytes, &mut written)?;
    go_on_behind(
        rt.alloc(),
        case,
        disk.bytes(),
        newlines(bytes),
        &mut written,
    )?;
    same_at(rt, bytes.len(), written.as_slice(), case.replies.as_slice());
    Ok(())
}

/// Fails before the first byte and after each byte.
fn fail_behind_each(rt: &(impl Abort + AllocGlobal), mode: Mode) -> Result<(), Fail> {
    let case = case_of(rt.alloc(), mode)?;
    for len in 0..=case.input.len() {
        fail_behind(rt, &case, &case.input[..len])?;
    }
    Ok(())
}

#[test]
fn a_reader_fails_behind_each_byte(rt: HostRuntime) -> Result<(), Fail> {
    fail_behind_each(&rt, Mode::Run)?;
    fail_behind_each(&rt, Mode::Play)
}
