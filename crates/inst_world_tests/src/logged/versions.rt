//! Logs of version 1, which have no marks, are resumed without marks; their next opening has marks.
use crate::comparing::same;
use crate::logged::openings::{log_of, next, run_on};
use inst_fixtures::settings;
use std::test::Fail;

/// A log of version 1.
const LOG: &[&[u8]] = &[HEADER, FUND];

const HEADER: &[u8] =
    br#"{"ahead":1000,"base":0,"ceiling":99999999999,"fundings":4,"limit":10000,"log":"run","margin":0,"participants":["AAAADEFF","BBBBFRPP","CCCCITMM"],"places":2,"version":1}"#;

const FUND: &[u8] = br#"{"at":0,"cents":50000,"cmd":"fund","ref":"F1","who":"AAAADEFF"}"#;

/// The log after two more lines.
const RESUMED: &[&[u8]] = &[
    HEADER,
    FUND,
    b"{\x01no JSON",
    br#"{"at":1,"cmd":"position","who":"AAAADEFF"}"#,
];

/// The log of the next opening.
const NEXT: &[&[u8]] = &[
    br#"{"ahead":1000,"base":0,"books":1,"ceiling":99999999999,"fundings":4,"limit":10000,"log":"run","margin":0,"participants":["AAAADEFF","BBBBFRPP","CCCCITMM"],"places":2,"version":2}"#,
    br#"{"book":"AAAADEFF","cents":50000,"event":"funded","ref":"F1"}"#,
    // What `sha256sum` prints for the two lines above.
    b"{\x01{f9fdee51d33361914ee5d99d55873e0a4198c8d0cf36a155d369b6f7f63af0dd",
];

/// The replies to the two lines.
const REPLIES: &[u8] = b"{\"fault\":\"NotJson\",\"number\":1,\"reply\":\"refused\"}\n\
    {\"available\":50000,\"position\":50000,\"reply\":\"position\",\"reserved\":0}\n";

#[test]
fn a_log_without_marks_is_resumed_without(rt: HostRuntime) -> Result<(), Fail> {
    let settings = settings(rt.alloc())?;
    let log = log_of(rt.alloc(), LOG)?;
    let mut written = Vec::new(rt.alloc());
    let input = b"no JSON\n{\"at\":1,\"cmd\":\"position\",\"who\":\"AAAADEFF\"}\n";
    let found = run_on(rt.alloc(), &settings, &log, input, &mut written)?;
    let resumed = log_of(rt.alloc(), RESUMED)?;
    same(&rt, found.as_slice(), resumed.as_slice());
    same(&rt, written.as_slice(), REPLIES);
    Ok(())
}

#[test]
fn the_next_opening_of_a_log_without_marks_has_marks(rt: HostRuntime) -> Result<(), Fail> {
    let settings = settings(rt.alloc())?;
    let log = log_of(rt.alloc(), LOG)?;
    let found = next(rt.alloc(), &settings, &log)?;
    let wanted = log_of(rt.alloc(), NEXT)?;
    same(&rt, found.as_deref(), Some(wanted.as_slice()));
    Ok(())
}
