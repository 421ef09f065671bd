//! The order of reads, writes and flushes in a run.
use crate::comparing::same;
use crate::lines::serving::{BAD_FIELD, Row, are_replies};
use inst_fixtures::{Pieces, settings};
use inst_lines::{Counts, run_lines};
use inst_settings::Settings;
use std::cell::Cell;
use std::io::{self, Read, Write};
use std::process::Abort;
use std::test::Fail;

/// The first calls in order: `r` for a read, `w` for a write, `f` for a flush.
#[derive(Drop)]
struct CallLog {
    events: Cell<[u8; 16]>,
    len: Cell<usize>,
}

impl CallLog {
    fn new() -> CallLog {
        CallLog {
            events: Cell::new([b' '; 16]),
            len: Cell::new(0),
        }
    }

    fn add(&self, event: u8) {
        let mut events = self.events.get();
        let len = self.len.get();
        if len < events.len() {
            events[len] = event;
            self.events.set(events);
            self.len.set(len + 1);
        }
    }

    fn assert_is(&self, rt: &impl Abort, expected: &[u8]) {
        let events = self.events.get();
        let len = self.len.get().min(events.len());
        same(rt, &events[..len], expected);
    }
}

/// A reader that notes each read.
#[derive(Drop)]
struct NotingReader<'a> {
    pieces: Pieces<'a>,
    log: &'a CallLog,
}

impl Read for NotingReader<'_> {
    fn read(&mut self, buf: &mut [u8]) -> io::Result<usize> {
        self.log.add(b'r');
        self.pieces.read(buf)
    }
}

/// A writer that takes at most 40 bytes in a write, and notes each write and flush.
#[derive(Drop)]
struct NotingWriter<'a> {
    taken: Vec<u8>,
    log: &'a CallLog,
}

impl Write for NotingWriter<'_> {
    fn write(&mut self, buf: &[u8]) -> io::Result<usize> {
        self.log.add(b'w');
        let count = buf.len().min(40);
        self.taken.extend_from_slice(&buf[..count])?;
        Ok(count)
    }

    fn flush(&mut self) -> io::Result<()> {
        self.log.add(b'f');
        Ok(())
    }
}

/// Two lines that are refused.
const LINES: &[Row] = &[(b"[]", BAD_FIELD), (b"[]", BAD_FIELD)];

/// Compares the calls of a run over two lines `[]`, with reads of at most `most` bytes.
fn run_pieces(
    rt: &(impl Abort + AllocGlobal),
    settings: &Settings,
    input: &[u8],
    most: usize,
    events: &[u8],
) -> Result<(), Fail> {
    let alloc = rt.alloc();
    let log = CallLog::new();
    let mut reader = NotingReader {
        pieces: Pieces {
            bytes: input,
            most,
            fails: false,
        },
        log: &log,
    };
    let mut writer = NotingWriter {
        taken: Vec::new(alloc),
        log: &log,
    };
    let counts = run_lines(alloc, settings, &mut reader, &mut writer);
    let both = Counts {
        lines: 2,
        refused: 2,
    };
    same(rt, counts, Ok(both));
    log.assert_is(rt, events);
    are_replies(rt, &writer.taken, LINES, input.len())
}

/// The most bytes of a read, and the calls.
const CALLS: &[(usize, &[u8])] = &[(3, b"rwwfrwwfr"), (9, b"rwwwfr"), (2, b"rrwwfrwwfr")];

#[test]
fn flushes_before_each_read(rt: HostRuntime) -> Result<(), Fail> {
    let settings = settings(rt.alloc())?;
    for &(most, events) in CALLS {
        run_pieces(&rt, &settings, b"[]\n[]\n", most, events)?;
    }
    Ok(())
}

#[test]
fn flushes_a_last_line_without_a_newline(rt: HostRuntime) -> Result<(), Fail> {
    run_pieces(&rt, &settings(rt.alloc())?, b"[]\n[]", 9, b"rwwfrwwf")
}
