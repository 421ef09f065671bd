//! Hubs with logs on disks in memory, and their replies.
ghost use Rattle.std.specs.Prelude.{◌≤◌, length, IfSome, IsTrue};
ghost use Rattle.sqlite_disk.specs.Disk.{Only};

use crate::disks::filled;
use crate::lines::serving::written;
use inst_base::find_newline;
use inst_fixtures::settings;
use inst_lines::Mode;
use inst_logged::{LoggedError, NewHub, Version};
use inst_settings::Settings;
use sqlite_disk::{Disk, Memory};
use std::alloc::Global;
use std::io::Read;
use std::test::Fail;

/// Lines of each kind: accepted and refused commands, lines that don't begin with a brace, and an
/// empty line.
pub(crate) const LINES: &[&[u8]] = &[
    br#"{"at":0,"cents":50000,"cmd":"fund","ref":"F1","who":"AAAADEFF"}"#,
    br#"{"at":1000,"cents":20000,"cmd":"submit","id":"T1","stamp":1000,"to":"BBBBFRPP","who":"AAAADEFF"}"#,
    br#"{"from":"AAAADEFF","place":0,"step":"deliver","who":"BBBBFRPP"}"#,
    b"",
    br#" {"at":1500,"cmd":"fetch","max":10,"who":"BBBBFRPP"}"#,
    b"{\x01}",
    br#"{"at":2000,"cmd":"confirm","from":"AAAADEFF","id":"T1","who":"BBBBFRPP"}"#,
    b"}",
    br#"{"at":2100,"cmd":"statement","count":10,"skip":0,"who":"AAAADEFF"}"#,
    br#"{"at":2100,"cmd":"position","who":"BBBBFRPP"}"#,
];

/// Joins these lines, each with its newline.
pub(crate) fn text_of(alloc: Global, lines: &[&[u8]]) -> Result<Vec<u8>, Fail> {
    let mut text = Vec::new(alloc);
    for line in lines {
        text.extend_from_slice(line)?;
        text.push(b'\n')?;
    }
    Ok(text)
}

/// Returns the length of the first line of a text with its newline, if it has one.
fn line_len(text: &[u8]) -> Option<usize>
    ensures { IfSome result (λ len. len ≤ length text.now) }
{
    match find_newline(text) {
        Some(newline) => Some(newline + 1),
        None => None,
    }
}

/// Returns the length in bytes of the first `count` lines of a text with their newlines, or of all.
pub(crate) fn front_len(text: &[u8], count: usize) -> usize
    ensures { result ≤ length text.now }
{
    let mut rest = text;
    for _ in 0..count {
        match line_len(rest) {
            Some(len) => rest = &rest[len..],
            None => break,
        }
    }
    text.len().saturating_sub(rest.len())
}

/// Returns the number of newlines of a text.
pub(crate) fn newlines(text: &[u8]) -> usize {
    text.iter().filter(|byte| **byte == b'\n').count()
}

/// A hub, its input, and the replies of a hub without a log.
#[derive(Drop)]
pub(crate) struct Case {
    pub(crate) mode: Mode,
    pub(crate) settings: Settings,
    pub(crate) input: Vec<u8>,
    pub(crate) replies: Vec<u8>,
}

/// Returns the case of this input.
pub(crate) fn case_with(alloc: Global, mode: Mode, input: Vec<u8>) -> Result<Case, Fail> {
    let settings = settings(alloc)?;
    let replies = written(alloc, mode, &settings, &input)?;
    Ok(Case {
        mode,
        settings,
        input,
        replies,
    })
}

/// Returns the case of all lines.
pub(crate) fn case_of(alloc: Global, mode: Mode) -> Result<Case, Fail> {
    case_with(alloc, mode, text_of(alloc, LINES)?)
}

/// The result of a run, and its disk.
#[derive(Drop)]
pub(crate) struct Ended<D: Disk> {
    pub(crate) outcome: Result<(), LoggedError>,
    pub(crate) disk: D,
}

/// Runs a new hub with its log on this disk.
pub(crate) fn serve_on<D: Disk + Drop, R: Read>(
    alloc: Global,
    mode: Mode,
    settings: &Settings,
    disk: D,
    told: Option<u64>,
    reader: &mut R,
    written: &mut Vec<u8>,
) -> Result<Ended<D>, Fail>
    requires usable { IsTrue (D.Disk.is_usable disk) }
    requires known { Only (D.Disk.seen disk) (D.Disk.may_leave disk) }
{
    let mut hub = NewHub::open(alloc, Version::Two, mode, settings)?.with_disk(alloc, disk);
    let outcome = hub.run(told, None, reader, written);
    Ok(Ended {
        outcome,
        disk: hub.into_parts().1,
    })
}

/// Runs a new hub with a log that has these bytes.
pub(crate) fn serve<R: Read>(
    alloc: Global,
    mode: Mode,
    settings: &Settings,
    log: &[u8],
    told: Option<u64>,
    reader: &mut R,
    written: &mut Vec<u8>,
) -> Result<Ended<Memory>, Fail> {
    let disk = filled(Memory::new(alloc), log)?;
    serve_on(alloc, mode, settings, disk, told, reader, written)
}

/// Runs a new hub to the end of this input, and returns the bytes of its log.
pub(crate) fn go_on(
    alloc: Global,
    mode: Mode,
    settings: &Settings,
    log: &[u8],
    told: Option<u64>,
    input: &[u8],
    written: &mut Vec<u8>,
) -> Result<Vec<u8>, Fail> {
    let mut reader = input;
    let ended = serve(alloc, mode, settings, log, told, &mut reader, written)?;
    ended.outcome?;
    Ok(ended.disk.bytes().to_vec(alloc)?)
}
