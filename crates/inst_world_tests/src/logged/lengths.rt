//! Lines of each length, read in pieces of each size, and answered again.
use crate::comparing::same_at;
use crate::logged::keeping::{Case, case_with, go_on, serve};
use inst_fixtures::Pieces;
use inst_lines::Mode;
use sqlite_disk::Memory;
use std::alloc::Global;
use std::process::Abort;
use std::test::Fail;

/// Lines, each with the length to which it is filled with spaces. The read buffer has 65,536 bytes.
const ROWS: &[(&[u8], usize)] = &[
    (
        br#"{"at":0,"cents":1,"cmd":"fund","ref":"F1","who":"AAAADEFF"}"#,
        4_096,
    ),
    (
        br#"{"at":0,"cents":20,"cmd":"fund","ref":"F2","who":"AAAADEFF"}"#,
        4_097,
    ),
    (b"", 0),
    (
        br#"{"at":0,"cents":300,"cmd":"fund","ref":"F3","who":"AAAADEFF"}"#,
        70_000,
    ),
    (b"[]", 4_096),
    (b"[]", 4_097),
    (b"\x01{", 70_000),
    (
        br#"{"at":0,"cents":4000,"cmd":"fund","ref":"F4","who":"AAAADEFF"}"#,
        0,
    ),
    (br#"{"at":0,"cmd":"position","who":"AAAADEFF"}"#, 100),
];

/// The most bytes of a read.
const SIZES: [usize; 3] = [100, 4_097, 1_000_000];

/// Returns the lines, each with a newline except the last one.
fn text(alloc: Global) -> Result<Vec<u8>, Fail> {
    let mut text = Vec::new(alloc);
    for (line, len) in ROWS {
        if !text.is_empty() {
            text.push(b'\n')?;
        }
        text.extend_from_slice(line)?;
        let filled = text.len() + len.saturating_sub(line.len());
        text.resize(filled, b' ')?;
    }
    Ok(text)
}

/// Compares the replies with those of a run without a log, and returns the log.
fn answer(rt: &(impl Abort + AllocGlobal), case: &Case, most: usize) -> Result<Memory, Fail> {
    let (mode, settings) = (case.mode, &case.settings);
    let mut reader = Pieces {
        bytes: &case.input,
        most,
        fails: false,
    };
    let mut written = Vec::new(rt.alloc());
    let ended = serve(
        rt.alloc(),
        mode,
        settings,
        b"",
        None,
        &mut reader,
        &mut written,
    )?;
    same_at(rt, most, written.as_slice(), case.replies.as_slice());
    ended.outcome?;
    Ok(ended.disk)
}

/// Compares the replies to a log's lines with those of a run without a log.
fn answer_again(
    rt: &(impl Abort + AllocGlobal),
    case: &Case,
    log: &[u8],
    most: usize,
) -> Result<(), Fail> {
    let (mode, settings) = (case.mode, &case.settings);
    let mut written = Vec::new(rt.alloc());
    go_on(rt.alloc(), mode, settings, log, Some(0), b"", &mut written)?;
    same_at(rt, most, written.as_slice(), case.replies.as_slice());
    Ok(())
}

/// Reads the lines with reads of at most `most` bytes, and then their log.
fn answer_in_pieces(rt: &(impl Abort + AllocGlobal), case: &Case, most: usize) -> Result<(), Fail> {
    let disk = answer(rt, case, most)?;
    answer_again(rt, case, disk.bytes(), most)
}

fn answer_in_each_size(rt: &(impl Abort + AllocGlobal), mode: Mode) -> Result<(), Fail> {
    let case = case_with(rt.alloc(), mode, text(rt.alloc())?)?;
    for most in SIZES {
        answer_in_pieces(rt, &case, most)?;
    }
    Ok(())
}

#[test]
fn lines_of_each_length(rt: HostRuntime) -> Result<(), Fail> {
    answer_in_each_size(&rt, Mode::Run)?;
    answer_in_each_size(&rt, Mode::Play)
}
