//! Lines that are divided between two runs of one log.
use crate::comparing::same_at;
use crate::logged::keeping::{Case, LINES, case_of, front_len, go_on};
use inst_lines::Mode;
use std::alloc::Global;
use std::process::Abort;
use std::test::Fail;

/// Returns what two runs write: the first gets `count` lines, the second the others.
fn in_two_runs(alloc: Global, case: &Case, count: usize) -> Result<Vec<u8>, Fail> {
    let (mode, settings) = (case.mode, &case.settings);
    let len = front_len(&case.input, count);
    let (front, rest) = (&case.input[..len], &case.input[len..]);
    let mut written = Vec::new(alloc);
    let log = go_on(alloc, mode, settings, b"", None, front, &mut written)?;
    go_on(alloc, mode, settings, &log, None, rest, &mut written)?;
    Ok(written)
}

/// Compares this with what one run without a log writes.
fn cut_after(rt: &(impl Abort + AllocGlobal), case: &Case, count: usize) -> Result<(), Fail> {
    let written = in_two_runs(rt.alloc(), case, count)?;
    same_at(rt, count, written.as_slice(), case.replies.as_slice());
    Ok(())
}

/// Divides the lines before the first one and after each.
fn cut_after_each(rt: &(impl Abort + AllocGlobal), mode: Mode) -> Result<(), Fail> {
    let case = case_of(rt.alloc(), mode)?;
    for count in 0..=LINES.len() {
        cut_after(rt, &case, count)?;
    }
    Ok(())
}

#[test]
fn two_runs_write_what_one_does(rt: HostRuntime) -> Result<(), Fail> {
    cut_after_each(&rt, Mode::Run)?;
    cut_after_each(&rt, Mode::Play)
}
