//! Logs that begin with the books of another log.
ghost use Rattle.std.specs.Prelude.{IfSome};
ghost use Rattle.inst_world.specs.NextOpening.{CanOpenFrom};
ghost use Rattle.inst_chain.specs.Chain.{IsHexadecimal};
ghost use Rattle.inst_logged.specs.Running.{IsReadyHub};

use crate::comparing::{same, same_at};
use crate::disks::filled;
use crate::logged::keeping::text_of;
use inst_chain::Digest;
use inst_fixtures::settings;
use inst_journal::Journal;
use inst_lines::Mode;
use inst_logged::{LoggedHub, NewHub, OpeningBooks, Version};
use inst_settings::Settings;
use inst_world::have_openings_left;
use sqlite_disk::{Disk, Memory};
use std::alloc::Global;
use std::process::Abort;
use std::test::Fail;

/// Lines of a first opening, which fill both places of `AAAADEFF`.
const FIRST: &[&[u8]] = &[
    br#"{"at":0,"cents":50000,"cmd":"fund","ref":"F1","who":"AAAADEFF"}"#,
    br#"{"at":1,"cents":700,"cmd":"fund","ref":"F1","who":"CCCCITMM"}"#,
    br#"{"at":2,"cents":200,"cmd":"defund","ref":"D1","who":"CCCCITMM"}"#,
    br#"{"at":1000,"cents":20000,"cmd":"submit","id":"T1","stamp":1000,"to":"BBBBFRPP","who":"AAAADEFF"}"#,
    br#"{"at":1000,"cents":300,"cmd":"submit","id":"T2","stamp":1000,"to":"BBBBFRPP","who":"AAAADEFF"}"#,
    br#"{"at":1000,"cents":500,"cmd":"submit","id":"T1","stamp":1000,"to":"AAAADEFF","who":"CCCCITMM"}"#,
    br#"{"at":1500,"cmd":"fetch","max":1,"who":"BBBBFRPP"}"#,
    br#"{"at":2000,"cmd":"confirm","from":"AAAADEFF","id":"T1","who":"BBBBFRPP"}"#,
    br#"{"at":2001,"cmd":"reject","from":"CCCCITMM","id":"T1","reason":"AC04","who":"AAAADEFF"}"#,
];

/// The log that begins with the first opening's books.
pub(crate) const NEXT: &[&[u8]] = &[
    br#"{"ahead":1000,"base":0,"books":14,"ceiling":99999999999,"fundings":4,"limit":10000,"log":"run","margin":0,"participants":["AAAADEFF","BBBBFRPP","CCCCITMM"],"places":2,"version":2}"#,
    br#"{"book":"AAAADEFF","cents":50000,"event":"funded","ref":"F1"}"#,
    br#"{"book":"AAAADEFF","cents":20000,"event":"taken","id":"T1","stamp":1000,"to":"BBBBFRPP"}"#,
    br#"{"book":"AAAADEFF","cents":300,"event":"taken","id":"T2","stamp":1000,"to":"BBBBFRPP"}"#,
    br#"{"book":"AAAADEFF","cents":500,"deadline":11000,"event":"forwarded","from":"CCCCITMM","id":"T1"}"#,
    br#"{"book":"AAAADEFF","event":"booked","from":"AAAADEFF","id":"T1","outcome":"accepted"}"#,
    br#"{"book":"AAAADEFF","event":"booked","from":"CCCCITMM","id":"T1","outcome":"rejected","reason":"AC04"}"#,
    br#"{"book":"BBBBFRPP","cents":20000,"deadline":11000,"event":"forwarded","from":"AAAADEFF","id":"T1"}"#,
    br#"{"book":"BBBBFRPP","cents":300,"deadline":11000,"event":"forwarded","from":"AAAADEFF","id":"T2"}"#,
    br#"{"book":"BBBBFRPP","count":1,"event":"fetched"}"#,
    br#"{"book":"BBBBFRPP","event":"booked","from":"AAAADEFF","id":"T1","outcome":"accepted"}"#,
    br#"{"book":"CCCCITMM","cents":700,"event":"funded","ref":"F1"}"#,
    br#"{"book":"CCCCITMM","cents":200,"event":"defunded","ref":"D1"}"#,
    br#"{"book":"CCCCITMM","cents":500,"event":"taken","id":"T1","stamp":1000,"to":"AAAADEFF"}"#,
    br#"{"book":"CCCCITMM","event":"booked","from":"CCCCITMM","id":"T1","outcome":"rejected","reason":"AC04"}"#,
    // What `sha256sum` prints for the lines above.
    b"{\x01{f5c7fdcdf327791172b42b316b071187adc6d3dbe9c92a90e3d84f5b860adbf6",
];

/// The digest of that log, in the first line of a log with the same books, and what `sha256sum`
/// prints for this line and the books.
const PREVIOUS: &str = "f5c7fdcdf327791172b42b316b071187adc6d3dbe9c92a90e3d84f5b860adbf6";

const CARRYING: &[u8] =
    br#"{"ahead":1000,"base":0,"books":14,"ceiling":99999999999,"fundings":4,"limit":10000,"log":"run","margin":0,"participants":["AAAADEFF","BBBBFRPP","CCCCITMM"],"places":2,"previous":"f5c7fdcdf327791172b42b316b071187adc6d3dbe9c92a90e3d84f5b860adbf6","version":2}"#;

const CARRYING_MARK: &[u8] =
    b"{\x01{2a16c502eddcdba109ba32e7a0e3fd64842d5901ea618eb448d217f393b360dd";

/// Lines of the next opening, about decided, pending and new transfers.
pub(crate) const SECOND: &[&[u8]] = &[
    br#"{"at":2100,"cmd":"position","who":"AAAADEFF"}"#,
    br#"{"at":2100,"cents":20000,"cmd":"submit","id":"T1","stamp":1000,"to":"BBBBFRPP","who":"AAAADEFF"}"#,
    br#"{"at":2100,"cents":1,"cmd":"submit","id":"T1","stamp":1000,"to":"BBBBFRPP","who":"AAAADEFF"}"#,
    br#"{"at":2100,"cents":1,"cmd":"submit","id":"T3","stamp":2100,"to":"BBBBFRPP","who":"AAAADEFF"}"#,
    br#"{"at":2100,"cents":1,"cmd":"submit","id":"T4","stamp":2100,"to":"BBBBFRPP","who":"AAAADEFF"}"#,
    br#"{"at":2100,"cmd":"fetch","max":10,"who":"BBBBFRPP"}"#,
    br#"{"at":2200,"cmd":"confirm","from":"AAAADEFF","id":"T2","who":"BBBBFRPP"}"#,
    br#"{"at":2300,"cmd":"position","who":"BBBBFRPP"}"#,
];

/// The replies of the next opening.
const REPLIES: &[&[u8]] = &[
    br#"{"available":29700,"position":30000,"reply":"position","reserved":300}"#,
    br#"{"deadline":11000,"id":"T1","reply":"taken"}"#,
    br#"{"fault":"Duplicate","number":9,"reply":"refused"}"#,
    br#"{"deadline":12100,"id":"T3","reply":"taken"}"#,
    br#"{"fault":"Full","number":12,"reply":"refused"}"#,
    br#"{"entries":[{"cents":300,"deadline":11000,"from":"AAAADEFF","id":"T2"},{"cents":1,"deadline":12100,"from":"AAAADEFF","id":"T3"}],"reply":"inbox"}"#,
    br#"{"from":"AAAADEFF","id":"T2","reply":"state","state":"accepted"}"#,
    br#"{"available":20300,"position":20300,"reply":"position","reserved":0}"#,
];

/// Returns a log of these lines.
pub(crate) fn log_of(alloc: Global, lines: &[&[u8]]) -> Result<Vec<u8>, Fail> {
    let mut log = text_of(alloc, lines)?;
    log.push(0)?;
    Ok(log)
}

/// Runs this hub, and returns its disk.
fn run_through<D: Disk + Drop>(
    mut hub: LoggedHub<D>,
    input: &[u8],
    written: &mut Vec<u8>,
) -> Result<D, Fail>
    requires ready { IsReadyHub D.Disk hub }
{
    let mut reader = input;
    let outcome = hub.run(None, None, &mut reader, written);
    let (_, disk) = hub.into_parts();
    outcome?;
    Ok(disk)
}

/// Runs the hub of a log with these bytes, and returns the log's bytes afterwards.
pub(crate) fn run_on(
    alloc: Global,
    settings: &Settings,
    log: &[u8],
    input: &[u8],
    written: &mut Vec<u8>,
) -> Result<Vec<u8>, Fail> {
    let mut disk = filled(Memory::new(alloc), log)?;
    let hub = NewHub::of_log(alloc, Mode::Run, settings, &mut disk)?;
    let disk = run_through(hub.with_disk(alloc, disk), input, written)?;
    Ok(disk.bytes().to_vec(alloc)?)
}

/// Returns the log that begins with these books.
pub(crate) fn begun_from(
    alloc: Global,
    settings: &Settings,
    books: OpeningBooks<'_>,
) -> Result<Vec<u8>, Fail>
    requires journals { CanOpenFrom settings.now books.journals.now }
    requires digest { IfSome books.previous IsHexadecimal }
{
    let disk = filled(Memory::new(alloc), b"")?;
    let hub = NewHub::open_from(alloc, Version::Two, Mode::Run, settings, books)?;
    let disk = run_through(hub.with_disk(alloc, disk), b"", &mut Vec::new(alloc))?;
    Ok(disk.bytes().to_vec(alloc)?)
}

/// Returns the log that begins with the books of this hub, and carries this digest.
fn next_of<D: Disk + Drop>(
    alloc: Global,
    hub: &mut LoggedHub<D>,
    previous: Option<Digest>,
) -> Result<Option<Vec<u8>>, Fail>
    requires ready { IsReadyHub D.Disk hub.old }
    requires digest { IfSome previous IsHexadecimal }
{
    let journals = hub.close(None)?;
    if !have_openings_left(&journals) {
        return Ok(None);
    }
    let books = OpeningBooks {
        journals: &journals,
        previous,
    };
    Ok(Some(begun_from(alloc, hub.settings(), books)?))
}

/// Returns the log that begins with this log's books, and carries this digest.
fn next_carrying(
    alloc: Global,
    settings: &Settings,
    log: &[u8],
    previous: Option<Digest>,
) -> Result<Option<Vec<u8>>, Fail>
    requires digest { IfSome previous IsHexadecimal }
{
    let mut disk = filled(Memory::new(alloc), log)?;
    let hub = NewHub::of_log(alloc, Mode::Run, settings, &mut disk)?;
    next_of(alloc, &mut hub.with_disk(alloc, disk), previous)
}

/// Returns the log that begins with this log's books.
pub(crate) fn next(
    alloc: Global,
    settings: &Settings,
    log: &[u8],
) -> Result<Option<Vec<u8>>, Fail> {
    next_carrying(alloc, settings, log, None)
}

/// Returns the log of the first opening.
fn first(alloc: Global, settings: &Settings) -> Result<Vec<u8>, Fail> {
    let input = text_of(alloc, FIRST)?;
    run_on(alloc, settings, b"", &input, &mut Vec::new(alloc))
}

/// Returns the log that begins with the books of the first opening.
fn next_of_first(alloc: Global, settings: &Settings) -> Result<Option<Vec<u8>>, Fail> {
    let log = first(alloc, settings)?;
    next(alloc, settings, &log)
}

#[test]
fn a_log_begins_with_the_books_of_another(rt: HostRuntime) -> Result<(), Fail> {
    let settings = settings(rt.alloc())?;
    let found = next_of_first(rt.alloc(), &settings)?;
    let expected = log_of(rt.alloc(), NEXT)?;
    same(&rt, found.as_deref(), Some(expected.as_slice()));
    Ok(())
}

/// Returns the log with the same books that carries the digest.
fn carrying(alloc: Global) -> Result<Vec<u8>, Fail> {
    let mut log = text_of(alloc, &[CARRYING])?;
    log.extend_from_slice(&text_of(alloc, &NEXT[1..15])?)?;
    log.extend_from_slice(&log_of(alloc, &[CARRYING_MARK])?)?;
    Ok(log)
}

/// Returns the log that begins with the books of the first opening, and carries the digest.
fn next_of_first_carrying(alloc: Global, settings: &Settings) -> Result<Option<Vec<u8>>, Fail> {
    let log = first(alloc, settings)?;
    match Digest::of(PREVIOUS) {
        Some(digest) if digest.is_hexadecimal() => {
            next_carrying(alloc, settings, &log, Some(digest))
        }
        _ => Ok(None),
    }
}

#[test]
fn a_log_carries_the_digest_of_another(rt: HostRuntime) -> Result<(), Fail> {
    let settings = settings(rt.alloc())?;
    let found = next_of_first_carrying(rt.alloc(), &settings)?;
    let expected = carrying(rt.alloc())?;
    same(&rt, found.as_deref(), Some(expected.as_slice()));
    Ok(())
}

/// Returns the replies to the lines of the next opening, with this log.
fn gone_on(alloc: Global, settings: &Settings, log: &[u8]) -> Result<Vec<u8>, Fail> {
    let input = text_of(alloc, SECOND)?;
    let mut written = Vec::new(alloc);
    run_on(alloc, settings, log, &input, &mut written)?;
    Ok(written)
}

#[test]
fn the_next_opening_goes_on(rt: HostRuntime) -> Result<(), Fail> {
    let settings = settings(rt.alloc())?;
    let log = log_of(rt.alloc(), NEXT)?;
    let written = gone_on(rt.alloc(), &settings, &log)?;
    let replies = text_of(rt.alloc(), REPLIES)?;
    same(&rt, written.as_slice(), replies.as_slice());
    Ok(())
}

#[test]
fn a_log_with_a_digest_goes_on(rt: HostRuntime) -> Result<(), Fail> {
    let settings = settings(rt.alloc())?;
    let log = carrying(rt.alloc())?;
    let written = gone_on(rt.alloc(), &settings, &log)?;
    let replies = text_of(rt.alloc(), REPLIES)?;
    same(&rt, written.as_slice(), replies.as_slice());
    Ok(())
}

/// Returns two lines of an opening: a transfer with a new identifier, and its confirmation.
fn transfer(alloc: Global, number: u32) -> Result<String, Fail> {
    let text = format!(in alloc;
        "{{\"at\":{number},\"cents\":10,\"cmd\":\"submit\",\"id\":\"T{number}\",\"stamp\":{number},\"to\":\"BBBBFRPP\",\"who\":\"AAAADEFF\"}}\n{{\"at\":{number},\"cmd\":\"confirm\",\"from\":\"AAAADEFF\",\"id\":\"T{number}\",\"who\":\"BBBBFRPP\"}}\n"
    )?;
    Ok(text)
}

/// Returns the replies to these lines.
fn replies(alloc: Global, number: u32) -> Result<String, Fail> {
    let text = format!(in alloc;
        "{{\"deadline\":{},\"id\":\"T{number}\",\"reply\":\"taken\"}}\n{{\"from\":\"AAAADEFF\",\"id\":\"T{number}\",\"reply\":\"state\",\"state\":\"accepted\"}}\n",
        u64::from(number) + 10_000
    )?;
    Ok(text)
}

/// Runs one opening of the chain, and returns its log.
fn run_once_more(
    rt: &(impl Abort + AllocGlobal),
    settings: &Settings,
    log: &[u8],
    number: u32,
) -> Result<Vec<u8>, Fail> {
    let alloc = rt.alloc();
    let input = transfer(alloc, number)?;
    let replies = replies(alloc, number)?;
    let mut written = Vec::new(alloc);
    let log = run_on(alloc, settings, log, input.as_bytes(), &mut written)?;
    same_at(rt, number, written.as_slice(), replies.as_bytes());
    Ok(log)
}

/// Runs it, and returns the log that begins with its books.
fn open_once_more(
    rt: &(impl Abort + AllocGlobal),
    settings: &Settings,
    log: &[u8],
    number: u32,
) -> Result<Vec<u8>, Fail> {
    let log = run_once_more(rt, settings, log, number)?;
    match next(rt.alloc(), settings, &log)? {
        Some(log) => Ok(log),
        None => panic!(rt; "no opening behind {number}"),
    }
}

/// Asks for a participant's position after a chain of openings.
fn ends_with(
    rt: &(impl Abort + AllocGlobal),
    settings: &Settings,
    log: &[u8],
    line: &str,
    reply: &str,
) -> Result<(), Fail> {
    let mut written = Vec::new(rt.alloc());
    run_on(rt.alloc(), settings, log, line.as_bytes(), &mut written)?;
    same(rt, written.as_slice(), reply.as_bytes());
    Ok(())
}

/// Returns the log after fifty openings; `AAAADEFF` is funded before the first.
fn fifty(rt: &(impl Abort + AllocGlobal), settings: &Settings) -> Result<Vec<u8>, Fail> {
    let alloc = rt.alloc();
    let input =
        b"{\"at\":0,\"cents\":50000,\"cmd\":\"fund\",\"ref\":\"F1\",\"who\":\"AAAADEFF\"}\n";
    let mut log = run_on(alloc, settings, b"", input, &mut Vec::new(alloc))?;
    for number in 0..50 {
        log = open_once_more(rt, settings, &log, number)?;
    }
    Ok(log)
}

#[test]
fn fifty_openings_in_a_row(rt: HostRuntime) -> Result<(), Fail> {
    let settings = settings(rt.alloc())?;
    let log = fifty(&rt, &settings)?;
    ends_with(
        &rt,
        &settings,
        &log,
        "{\"at\":60,\"cmd\":\"position\",\"who\":\"BBBBFRPP\"}\n",
        "{\"available\":500,\"position\":500,\"reply\":\"position\",\"reserved\":0}\n",
    )
}
