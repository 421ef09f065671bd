//! A reader that fails after each byte, and a writer that fails after each byte and in each flush.
use crate::comparing::{same, same_at};
use crate::lines::failing_writers::{FullOnce, Manner, UnflushedOnce};
use crate::lines::serving::{Row, are_replies, lines_of, serve, written};
use inst_base::Fault;
use inst_fixtures::{Pieces, settings};
use inst_lines::Mode;
use inst_settings::Settings;
use std::process::Abort;
use std::test::Fail;

const FUND_THEN_POSITION: &[Row] = &[
    (
        br#"{"at":0,"cents":50000,"cmd":"fund","ref":"F1","who":"AAAADEFF"}"#,
        r#"{"ref":"F1","reply":"done"}"#,
    ),
    (
        br#"{"at":0,"cmd":"position","who":"AAAADEFF"}"#,
        r#"{"available":50000,"position":50000,"reply":"position","reserved":0}"#,
    ),
];

/// The most bytes of a read or a write.
const SIZES: &[usize] = &[1, 7, 64, 4_096];

/// Returns the length of the whole lines in these bytes.
fn whole(bytes: &[u8]) -> usize {
    bytes
        .iter()
        .rposition(|byte| *byte == b'\n')
        .map_or(0, |at| at + 1)
}

/// Compares the replies if the reader fails after these bytes: those to the whole lines among them.
fn read_fails(
    rt: &(impl Abort + AllocGlobal),
    settings: &Settings,
    mode: Mode,
    most: usize,
    bytes: &[u8],
) -> Result<(), Fail> {
    let mut reader = Pieces {
        bytes,
        most,
        fails: true,
    };
    let mut written = Vec::new(rt.alloc());
    let outcome = serve(rt.alloc(), mode, settings, &mut reader, &mut written);
    same_at(rt, bytes.len(), outcome, Err(Fault::ReadFault));
    are_replies(rt, &written, FUND_THEN_POSITION, whole(bytes))
}

/// Lets the reader fail before the first byte and after each byte.
fn reads_fail(
    rt: &(impl Abort + AllocGlobal),
    settings: &Settings,
    mode: Mode,
    most: usize,
) -> Result<(), Fail> {
    let input = lines_of(rt.alloc(), FUND_THEN_POSITION)?;
    for len in 0..=input.len() {
        read_fails(rt, settings, mode, most, &input[..len])?;
    }
    Ok(())
}

/// Does so for a run and a play, with reads of at most `most` bytes.
fn reads_fail_in_each_mode(
    rt: &(impl Abort + AllocGlobal),
    settings: &Settings,
    most: usize,
) -> Result<(), Fail> {
    reads_fail(rt, settings, Mode::Run, most)?;
    reads_fail(rt, settings, Mode::Play, most)
}

#[test]
fn a_reader_fails_at_each_byte(rt: HostRuntime) -> Result<(), Fail> {
    let settings = settings(rt.alloc())?;
    for most in SIZES {
        reads_fail_in_each_mode(&rt, &settings, *most)?;
    }
    Ok(())
}

/// How the writer takes bytes and fails.
#[derive(Clone, Copy)]
struct WriterLimits {
    most: usize,
    manner: Manner,
}

/// Compares what is written if the writer fails after `room` bytes of the replies.
fn write_fails(
    rt: &(impl Abort + AllocGlobal),
    settings: &Settings,
    mode: Mode,
    taking: WriterLimits,
    input: &[u8],
    front: &[u8],
) {
    let mut reader = input;
    let mut writer = FullOnce {
        taken: Vec::new(rt.alloc()),
        most: taking.most,
        room: Some(front.len()),
        manner: taking.manner,
    };
    let outcome = serve(rt.alloc(), mode, settings, &mut reader, &mut writer);
    same_at(rt, front.len(), outcome, Err(Fault::WriteFault));
    same(rt, writer.taken.as_slice(), front);
}

/// Lets the writer fail before the first byte of the replies and after each byte but the last.
fn writes_fail_in(
    rt: &(impl Abort + AllocGlobal),
    settings: &Settings,
    mode: Mode,
    taking: WriterLimits,
    input: &[u8],
    replies: &[u8],
) {
    for room in 0..replies.len() {
        write_fails(rt, settings, mode, taking, input, &replies[..room]);
    }
}

/// Does so for the replies to this input.
fn writes_fail(
    rt: &(impl Abort + AllocGlobal),
    settings: &Settings,
    mode: Mode,
    taking: WriterLimits,
    input: &[u8],
) -> Result<(), Fail> {
    let replies = written(rt.alloc(), mode, settings, input)?;
    writes_fail_in(rt, settings, mode, taking, input, &replies);
    are_replies(rt, &replies, FUND_THEN_POSITION, input.len())
}

/// Does so for a run and a play.
fn writes_fail_in_each_mode(
    rt: &(impl Abort + AllocGlobal),
    settings: &Settings,
    taking: WriterLimits,
) -> Result<(), Fail> {
    let input = lines_of(rt.alloc(), FUND_THEN_POSITION)?;
    writes_fail(rt, settings, Mode::Run, taking, &input)?;
    writes_fail(rt, settings, Mode::Play, taking, &input)
}

/// Does so for each way to fail and each size.
fn writes_fail_in_each_manner(
    rt: &(impl Abort + AllocGlobal),
    settings: &Settings,
) -> Result<(), Fail> {
    for &most in SIZES {
        for &manner in &[Manner::Fails, Manner::TakesNone] {
            writes_fail_in_each_mode(rt, settings, WriterLimits { most, manner })?;
        }
    }
    Ok(())
}

#[test]
fn a_writer_fails_after_each_number_of_bytes(rt: HostRuntime) -> Result<(), Fail> {
    let settings = settings(rt.alloc())?;
    writes_fail_in_each_manner(&rt, &settings)
}

/// Compares what is written if the writer fails in the flush after `before` others: the replies to
/// `len` bytes of the lines.
fn flush_fails(
    rt: &(impl Abort + AllocGlobal),
    mode: Mode,
    settings: &Settings,
    most: usize,
    before: usize,
    len: usize,
) -> Result<(), Fail> {
    let input = lines_of(rt.alloc(), FUND_THEN_POSITION)?;
    let mut reader = Pieces {
        bytes: input.as_slice(),
        most,
        fails: false,
    };
    let mut writer = UnflushedOnce {
        taken: Vec::new(rt.alloc()),
        before,
        flushes: 0,
    };
    let outcome = serve(rt.alloc(), mode, settings, &mut reader, &mut writer);
    same_at(rt, len, outcome, Err(Fault::WriteFault));
    are_replies(rt, &writer.taken, FUND_THEN_POSITION, len)
}

/// The most bytes of a read, the number of flushes before the one that fails, and how many bytes
/// are answered. A flush comes after each read in which a line ends. The first line has 64 bytes
/// with its newline, the second 43.
const FLUSHES: &[(usize, usize, usize)] = &[(1, 0, 64), (1, 1, 107), (4_096, 0, 107)];

/// Lets each of these flushes fail.
fn flushes_fail(
    rt: &(impl Abort + AllocGlobal),
    mode: Mode,
    settings: &Settings,
) -> Result<(), Fail> {
    for &(most, before, len) in FLUSHES {
        flush_fails(rt, mode, settings, most, before, len)?;
    }
    Ok(())
}

#[test]
fn a_writer_fails_in_each_flush(rt: HostRuntime) -> Result<(), Fail> {
    let settings = settings(rt.alloc())?;
    flushes_fail(&rt, Mode::Run, &settings)?;
    flushes_fail(&rt, Mode::Play, &settings)
}
