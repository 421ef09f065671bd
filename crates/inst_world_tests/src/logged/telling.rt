//! Replies that are written again, to a client that has some of them.
use crate::comparing::same_at;
use crate::logged::keeping::{Case, LINES, case_of, front_len, go_on, serve};
use inst_lines::Mode;
use inst_log::LogError;
use inst_logged::LoggedError;
use std::alloc::Global;
use std::process::Abort;
use std::test::Fail;

/// Compares what is written to a client that has the replies to `told` lines.
fn tell(rt: &(impl Abort + AllocGlobal), case: &Case, log: &[u8], told: usize) -> Result<(), Fail> {
    let (mode, settings) = (case.mode, &case.settings);
    let mut written = Vec::new(rt.alloc());
    go_on(
        rt.alloc(),
        mode,
        settings,
        log,
        Some(told as u64),
        b"",
        &mut written,
    )?;
    let front = front_len(&case.replies, told);
    same_at(rt, told, written.as_slice(), &case.replies[front..]);
    Ok(())
}

/// Resumes with more replies than the log has lines, which is refused.
fn tell_too_many(
    rt: &(impl Abort + AllocGlobal),
    case: &Case,
    log: &[u8],
    told: u64,
) -> Result<(), Fail> {
    let (mode, settings) = (case.mode, &case.settings);
    let mut reader: &[u8] = b"{}\n";
    let mut written = Vec::new(rt.alloc());
    let ended = serve(
        rt.alloc(),
        mode,
        settings,
        log,
        Some(told),
        &mut reader,
        &mut written,
    )?;
    let is_told = matches!(ended.outcome, Err(LoggedError::Log(LogError::Told)));
    let found = (is_told, written.len(), ended.disk.bytes());
    same_at(rt, told, found, (true, 0, log));
    Ok(())
}

/// Resumes with each number of replies, and with more than there are.
fn tell_each_number(rt: &(impl Abort + AllocGlobal), case: &Case, log: &[u8]) -> Result<(), Fail> {
    for told in 0..=LINES.len() {
        tell(rt, case, log, told)?;
    }
    tell_too_many(rt, case, log, LINES.len() as u64 + 1)?;
    tell_too_many(rt, case, log, u64::MAX)
}

/// Returns the log of a run of all lines.
fn whole_log(alloc: Global, case: &Case) -> Result<Vec<u8>, Fail> {
    let mut written = Vec::new(alloc);
    go_on(
        alloc,
        case.mode,
        &case.settings,
        b"",
        Some(0),
        &case.input,
        &mut written,
    )
}

fn tell_each(rt: &(impl Abort + AllocGlobal), mode: Mode) -> Result<(), Fail> {
    let case = case_of(rt.alloc(), mode)?;
    let log = whole_log(rt.alloc(), &case)?;
    tell_each_number(rt, &case, &log)
}

#[test]
fn replies_are_told_again(rt: HostRuntime) -> Result<(), Fail> {
    tell_each(&rt, Mode::Run)?;
    tell_each(&rt, Mode::Play)
}
