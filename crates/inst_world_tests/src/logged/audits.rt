//! Books in a log of version 1, which has no marks, that were changed.
use crate::comparing::{same, same_at};
use crate::disks::filled;
use crate::logged::keeping::text_of;
use inst_fixtures::settings;
use inst_lines::Mode;
use inst_log::LogError;
use inst_logged::{LoggedError, NewHub};
use inst_settings::Settings;
use sqlite_disk::Memory;
use std::alloc::Global;
use std::process::Abort;
use std::test::Fail;

/// The line of the settings, before four lines of books.
const SETTINGS: &[u8] =
    br#"{"ahead":1000,"base":0,"books":4,"ceiling":99999999999,"fundings":4,"limit":10000,"log":"run","margin":0,"participants":["AAAADEFF","BBBBFRPP","CCCCITMM"],"places":2,"version":1}"#;

const FUNDED: &[u8] = br#"{"book":"AAAADEFF","cents":500,"event":"funded","ref":"F1"}"#;

const TAKEN: &[u8] =
    br#"{"book":"AAAADEFF","cents":20,"event":"taken","id":"T1","stamp":1000,"to":"BBBBFRPP"}"#;

const CAME: &[u8] =
    br#"{"book":"BBBBFRPP","cents":20,"deadline":11000,"event":"forwarded","from":"AAAADEFF","id":"T1"}"#;

const FETCHED: &[u8] = br#"{"book":"BBBBFRPP","count":1,"event":"fetched"}"#;

/// Books in which one thing is wrong.
const WRONG: &[[&[u8]; 4]] = &[
    // more is sent than was funded
    [
        br#"{"book":"AAAADEFF","cents":19,"event":"funded","ref":"F1"}"#,
        TAKEN,
        CAME,
        FETCHED,
    ],
    // a transfer before its funding
    [TAKEN, FUNDED, CAME, FETCHED],
    // a reference twice
    [FUNDED, FUNDED, CAME, FETCHED],
    // forwarded with another amount
    [
        FUNDED,
        TAKEN,
        br#"{"book":"BBBBFRPP","cents":21,"deadline":11000,"event":"forwarded","from":"AAAADEFF","id":"T1"}"#,
        FETCHED,
    ],
    // forwarded with another deadline
    [
        FUNDED,
        TAKEN,
        br#"{"book":"BBBBFRPP","cents":20,"deadline":11001,"event":"forwarded","from":"AAAADEFF","id":"T1"}"#,
        FETCHED,
    ],
    // forwarded to another participant
    [
        FUNDED,
        TAKEN,
        br#"{"book":"CCCCITMM","cents":20,"deadline":11000,"event":"forwarded","from":"AAAADEFF","id":"T1"}"#,
        br#"{"book":"CCCCITMM","count":1,"event":"fetched"}"#,
    ],
    // never forwarded, and pending
    [
        FUNDED,
        TAKEN,
        br#"{"book":"CCCCITMM","cents":1,"event":"funded","ref":"F1"}"#,
        br#"{"book":"CCCCITMM","cents":1,"event":"funded","ref":"F2"}"#,
    ],
    // more is fetched than was forwarded
    [
        FUNDED,
        TAKEN,
        CAME,
        br#"{"book":"BBBBFRPP","count":2,"event":"fetched"}"#,
    ],
    // only one side booked it
    [
        FUNDED,
        TAKEN,
        CAME,
        br#"{"book":"BBBBFRPP","event":"booked","from":"AAAADEFF","id":"T1","outcome":"accepted"}"#,
    ],
    // not an event
    [
        FUNDED,
        TAKEN,
        CAME,
        br#"{"book":"BBBBFRPP","event":"forgotten"}"#,
    ],
    // an unknown participant
    [
        FUNDED,
        TAKEN,
        CAME,
        br#"{"book":"DDDDESMM","count":1,"event":"fetched"}"#,
    ],
];

/// Returns a log with these lines of books.
fn log_with(alloc: Global, books: &[&[u8]]) -> Result<Vec<u8>, Fail> {
    let books = text_of(alloc, books)?;
    let mut log = text_of(alloc, &[SETTINGS])?;
    log.extend_from_slice(&books)?;
    log.push(0)?;
    Ok(log)
}

/// Opens a hub on a log with these lines of books.
fn open(
    alloc: Global,
    settings: &Settings,
    books: &[&[u8]],
) -> Result<Result<(), LoggedError>, Fail> {
    let log = log_with(alloc, books)?;
    let mut disk = filled(Memory::new(alloc), &log)?;
    let mut reader: &[u8] = b"";
    match NewHub::of_log(alloc, Mode::Run, settings, &mut disk) {
        Ok(hub) => {
            let mut hub = hub.with_disk(alloc, disk);
            Ok(hub.run(None, None, &mut reader, &mut Vec::new(alloc)))
        }
        Err(error) => Ok(Err(error)),
    }
}

fn is_refused(
    rt: &(impl Abort + AllocGlobal),
    settings: &Settings,
    books: &[&[u8]],
) -> Result<(), Fail> {
    let opened = open(rt.alloc(), settings, books)?;
    same_at(rt, books, matches!(opened, Err(LoggedError::Books)), true);
    Ok(())
}

#[test]
fn books_that_fit_open(rt: HostRuntime) -> Result<(), Fail> {
    let settings = settings(rt.alloc())?;
    let opened = open(rt.alloc(), &settings, &[FUNDED, TAKEN, CAME, FETCHED])?;
    same(&rt, opened.is_ok(), true);
    Ok(())
}

#[test]
fn books_that_do_not_fit_are_refused(rt: HostRuntime) -> Result<(), Fail> {
    let settings = settings(rt.alloc())?;
    for books in WRONG {
        is_refused(&rt, &settings, books)?;
    }
    Ok(())
}

fn is_in_another_form(
    rt: &(impl Abort + AllocGlobal),
    settings: &Settings,
    books: &[&[u8]],
) -> Result<(), Fail> {
    let opened = open(rt.alloc(), settings, books)?;
    let is_other = matches!(opened, Err(LoggedError::Log(LogError::OtherSettings)));
    same(rt, is_other, true);
    Ok(())
}

#[test]
fn books_in_another_form_are_refused(rt: HostRuntime) -> Result<(), Fail> {
    let settings = settings(rt.alloc())?;
    let spaced = br#"{"book":"BBBBFRPP", "count":1,"event":"fetched"}"#;
    is_in_another_form(&rt, &settings, &[FUNDED, TAKEN, CAME, spaced])?;
    is_in_another_form(&rt, &settings, &[FUNDED, TAKEN, CAME])
}
