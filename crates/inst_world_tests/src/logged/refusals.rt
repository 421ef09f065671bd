//! Files that are refused: they are unchanged, and nothing is written.
use crate::comparing::{same, same_at};
use crate::logged::damage::{USES, use_log};
use crate::logged::keeping::{LINES, go_on, serve, text_of};
use inst_base::Code;
use inst_fixtures::{settings, settings_with};
use inst_lines::Mode;
use inst_log::LogError;
use inst_logged::LoggedError;
use inst_settings::{HubParameters, Settings};
use std::alloc::Global;
use std::process::Abort;
use std::test::Fail;

/// Files that are not logs.
const NO_LOGS: &[&[u8]] = &[b"hello\n", b"{\"ahead\":1000}", b"no log, and no line"];

/// Returns the settings of the worked rows with the participants in another order.
fn reordered(alloc: Global) -> Result<Settings, Fail> {
    let codes = [
        Code::new("AAAADEFF")?,
        Code::new("CCCCITMM")?,
        Code::new("BBBBFRPP")?,
    ];
    let numbers = HubParameters {
        places: 2,
        fundings: 4,
        ..HubParameters::DEFAULT
    };
    Ok(Settings::check(codes.to_vec(alloc)?, numbers)?)
}

/// Returns the result of a run with such a file, and checks that it is unchanged and nothing is
/// written.
fn outcome(
    rt: &(impl Abort + AllocGlobal),
    mode: Mode,
    settings: &Settings,
    bytes: &[u8],
) -> Result<Result<(), LoggedError>, Fail> {
    let alloc = rt.alloc();
    let mut reader: &[u8] = b"{}\n";
    let mut written = Vec::new(alloc);
    let ended = serve(
        alloc,
        mode,
        settings,
        bytes,
        None,
        &mut reader,
        &mut written,
    )?;
    same(rt, (ended.disk.bytes(), written.len()), (bytes, 0));
    Ok(ended.outcome)
}

fn is_of_others(
    rt: &(impl Abort + AllocGlobal),
    mode: Mode,
    settings: &Settings,
    log: &[u8],
) -> Result<(), Fail> {
    let outcome = outcome(rt, mode, settings, log)?;
    let is_of_others = matches!(outcome, Err(LoggedError::Log(LogError::OtherSettings)));
    same(rt, is_of_others, true);
    Ok(())
}

/// Returns the log of a run with all lines.
fn log_of(alloc: Global, mode: Mode, settings: &Settings) -> Result<Vec<u8>, Fail> {
    let input = text_of(alloc, LINES)?;
    let mut written = Vec::new(alloc);
    go_on(alloc, mode, settings, b"", None, &input, &mut written)
}

/// Checks that the log is refused with these places and this margin.
fn others_with(
    rt: &(impl Abort + AllocGlobal),
    mode: Mode,
    places: u16,
    margin: u32,
    log: &[u8],
) -> Result<(), Fail> {
    let settings = settings_with(rt.alloc(), places, margin)?;
    is_of_others(rt, mode, &settings, log)
}

/// Checks that the log is refused with other settings.
fn other_settings_are_refused(
    rt: &(impl Abort + AllocGlobal),
    mode: Mode,
    log: &[u8],
) -> Result<(), Fail> {
    others_with(rt, mode, 3, 0, log)?;
    others_with(rt, mode, 2, 1, log)?;
    is_of_others(rt, mode, &reordered(rt.alloc())?, log)
}

fn others_are_refused(
    rt: &(impl Abort + AllocGlobal),
    mode: Mode,
    other: Mode,
) -> Result<(), Fail> {
    let own = settings(rt.alloc())?;
    let log = log_of(rt.alloc(), mode, &own)?;
    is_of_others(rt, other, &own, &log)?;
    other_settings_are_refused(rt, mode, &log)
}

#[test]
fn logs_of_others_are_left(rt: HostRuntime) -> Result<(), Fail> {
    others_are_refused(&rt, Mode::Run, Mode::Play)?;
    others_are_refused(&rt, Mode::Play, Mode::Run)
}

fn is_no_log(
    rt: &(impl Abort + AllocGlobal),
    mode: Mode,
    settings: &Settings,
    bytes: &[u8],
) -> Result<(), Fail> {
    let outcome = outcome(rt, mode, settings, bytes)?;
    let is_no_log = matches!(outcome, Err(LoggedError::Log(LogError::NoLog)));
    same_at(rt, bytes, is_no_log, true);
    Ok(())
}

#[test]
fn files_that_are_no_logs_are_left(rt: HostRuntime) -> Result<(), Fail> {
    let settings = settings(rt.alloc())?;
    for bytes in NO_LOGS {
        is_no_log(&rt, Mode::Run, &settings, bytes)?;
        is_no_log(&rt, Mode::Play, &settings, bytes)?;
    }
    Ok(())
}

/// Files by their first line, and whether they are not logs. A file is not a log if its first line
/// is JSON without the members `log` and `version`, or begins with another byte than a brace. The
/// others are damaged.
const FIRST_LINES: &[(&[u8], bool)] = &[
    (b"{}\n\0", true),
    (
        b"{\"at\":0,\"cmd\":\"position\",\"who\":\"AAAADEFF\"}\n{}\n",
        true,
    ),
    (b"[]\n{}\n\0", true),
    (b"{\"log\":0}\n\0", false),
    (b"{\"version\":2}\n\0", false),
    (b"{\"lag\":\"run\",\"version\":2\n\0", false),
];

#[test]
fn a_first_line_tells_whether_a_file_is_a_log(rt: HostRuntime) -> Result<(), Fail> {
    let settings = settings(rt.alloc())?;
    for &(bytes, is_none) in FIRST_LINES {
        for how in USES {
            let ended = use_log(rt.alloc(), &settings, bytes, how, None)?;
            let is_no_log = matches!(ended.outcome, Err(LoggedError::Log(LogError::NoLog)));
            let is_damaged = matches!(ended.outcome, Err(LoggedError::Damaged(_)));
            same_at(
                &rt,
                (bytes, how),
                (is_no_log, is_damaged),
                (is_none, !is_none),
            );
            same_at(&rt, (bytes, how), ended.log.as_slice(), bytes);
        }
    }
    Ok(())
}
