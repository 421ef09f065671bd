//! Runs and plays of lines, and their replies.
use crate::comparing::same_at;
use inst_base::Fault;
use inst_lines::{Counts, Mode, play_lines, run_lines};
use inst_settings::Settings;
use std::alloc::Global;
use std::io::{Read, Write};
use std::process::Abort;
use std::test::Fail;

/// A line, and its reply.
pub(crate) type Row<'a> = (&'a [u8], &'a str);

pub(crate) const NOT_JSON: &str = r#"{"fault":"NotJson","number":1,"reply":"refused"}"#;

pub(crate) const BAD_FIELD: &str = r#"{"fault":"BadField","number":2,"reply":"refused"}"#;

pub(crate) fn serve<R: Read, W: Write>(
    alloc: Global,
    mode: Mode,
    settings: &Settings,
    reader: &mut R,
    writer: &mut W,
) -> Result<Counts, Fault> {
    match mode {
        Mode::Run => run_lines(alloc, settings, reader, writer),
        Mode::Play => play_lines(alloc, settings, reader, writer),
    }
}

/// Joins the lines, each with a newline.
pub(crate) fn lines_of(alloc: Global, rows: &[Row]) -> Result<Vec<u8>, Fail> {
    let mut lines = Vec::new(alloc);
    for (line, _) in rows {
        lines.extend_from_slice(line)?;
        lines.push(b'\n')?;
    }
    Ok(lines)
}

/// Returns the replies to the first `len` bytes of the lines, each with a newline. A line that is
/// cut off isn't JSON.
fn replies_to(alloc: Global, rows: &[Row], len: usize) -> Result<Vec<u8>, Fail> {
    let mut replies = Vec::new(alloc);
    let mut left = len;
    for (line, reply) in rows {
        if left == 0 {
            break;
        }
        let reply = if left < line.len() { NOT_JSON } else { *reply };
        replies.extend_from_slice(reply.as_bytes())?;
        replies.push(b'\n')?;
        left = left.saturating_sub(line.len() + 1);
    }
    Ok(replies)
}

/// Returns what is written for this input.
pub(crate) fn written(
    alloc: Global,
    mode: Mode,
    settings: &Settings,
    input: &[u8],
) -> Result<Vec<u8>, Fail> {
    let mut reader = input;
    let mut written = Vec::new(alloc);
    serve(alloc, mode, settings, &mut reader, &mut written)?;
    Ok(written)
}

/// Compares what is written with the replies to the first `len` bytes of the lines.
pub(crate) fn are_replies(
    rt: &(impl Abort + AllocGlobal),
    written: &[u8],
    rows: &[Row],
    len: usize,
) -> Result<(), Fail> {
    let replies = replies_to(rt.alloc(), rows, len)?;
    same_at(rt, len, written, replies.as_slice());
    Ok(())
}
