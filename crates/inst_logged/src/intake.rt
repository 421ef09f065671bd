//! Cutting the input into lines for the log.
ghost use Rattle.std.specs.Prelude.{◌≡◌, ◌+◌, ◌≤◌, ◌++◌, [], map, take, vec_len, List, ℕ, IfOk};
ghost use Rattle.std.specs.Prelude.{IfErr, OnOk, OnErr, IsOkUnless, MatchBool};
ghost use Rattle.std.specs.Io.{ReadsAtMost};
ghost use Rattle.std.specs.Io.KnownBytes.{Consumes, ReadConsumes};
ghost use Rattle.inst_lines.specs.Limits.{buffer_bytes, most_line_bytes};
ghost use Rattle.inst_base.specs.Newline.{NoNewline};
ghost use Rattle.inst_log.specs.Layout.{recovered_lines, AreWholeLines};
ghost use Rattle.inst_log.specs.Escape.{raw_of};
ghost use Rattle.inst_chain.specs.Chain.{HasNoMark};
ghost use Rattle.inst_logged.specs.Input.{shortened_line, logged_line};
ghost use Rattle.inst_logged.specs.inner.Input.{last_line, lines_from, rest_from, CutsLines};

use crate::LoggedError;
use inst_base::find_newline;
use inst_lines::{BUFFER_BYTES, MOST_LINE_BYTES};
use inst_log::push_line;
use std::alloc::{AllocError, Global};
use std::io::Read;

/// The most bytes that are held of a line: one more than a line may have.
const MOST_HELD: usize = MOST_LINE_BYTES + 1;

/// The beginning of a line whose end hasn't been read; of a line that is too long, its first 4,097
/// bytes.
#[derive(Drop)]
pub struct Intake {
    bytes: Vec<u8>,
    len: usize,
    ghost size: { vec_len bytes ≡ buffer_bytes },
    ghost within: { len ≤ most_line_bytes + 1 },
}

impl Intake {
    ghost use Rattle.inst_logged.specs.Intake.{line_part};
    ghost use Rattle.inst_logged.specs.inner.Intake.{TakesIn, TakesLast};
    ghost use Rattle.inst_logged.specs.Refused.{IsRefused};
    ghost use Rattle.inst_logged.specs.inner.Failing.{FailsAtLog};

    /// Returns the state before the first read.
    pub(crate) fn new(alloc: Global) -> Result<Intake, AllocError>
        ensures { IfOk result (λ intake. line_part intake ≡ []) }
    {
        let bytes = vec![in alloc; 0; BUFFER_BYTES]?;
        Ok(Intake { bytes, len: 0 })
    }

    /// Reads once and appends the lines that end there to a batch; at the end of the input also a
    /// last line without a newline. Returns `true` if the input may have more. Drop the batch after
    /// an error.
    pub(crate) fn read<R: Read>(
        &mut self,
        reader: &mut R,
        batch: &mut Vec<u8>,
    ) -> Result<bool, LoggedError>
        requires part { NoNewline (line_part self.old) }
        requires whole { AreWholeLines batch.old.items }
        ensures lines { IfOk result (λ more. MatchBool more
            (TakesIn self.old self.new batch.old.items batch.new.items (R.remaining reader.old)
            (R.remaining reader.new))
            (TakesLast self.old batch.old.items batch.new.items (R.remaining reader.old)
            (R.remaining reader.new))) }
        ensures err { OnErr result ((read : List ℕ)
            × Consumes (R.remaining reader.old) (R.remaining reader.new) read) }
        ensures part { OnOk result (NoNewline (line_part self.new)) }
        ensures whole { OnOk result (AreWholeLines batch.new.items) }
        ensures plain { OnOk result (HasNoMark (recovered_lines batch.old.items) →
            HasNoMark (recovered_lines batch.new.items)) }
        ensures unrefused { IfErr result (λ error. ¬ IsRefused error) }
        ensures failure { IfErr result (FailsAtLog ⊥ ⊥ ⊥) }
    {
        let count = read_bytes(reader, &mut self.bytes[self.len..])?;
        if count == 0 {
            self.take_last(batch)?;
            return Ok(false);
        }
        self.take_lines(self.len + count, batch)?;
        Ok(true)
    }

    /// Appends the bytes that are held to a batch as a line, unless there are none.
    fn take_last(&mut self, batch: &mut Vec<u8>) -> Result<(), AllocError>
        requires part { NoNewline (line_part self.old) }
        requires whole { AreWholeLines batch.old.items }
        ensures lines { OnOk result (recovered_lines batch.new.items
            ≡ recovered_lines batch.old.items ++ map raw_of (last_line (line_part self.old))) }
        ensures whole { OnOk result (AreWholeLines batch.new.items) }
        ensures part { OnOk result (line_part self.new ≡ []) }
    {
        if self.len > 0 {
            push_line(batch, &self.bytes[..self.len])?;
        }
        self.len = 0;
        Ok(())
    }

    /// Appends the lines that end in the first `end` bytes to a batch, and holds the bytes after
    /// them.
    fn take_lines(&mut self, end: usize, batch: &mut Vec<u8>) -> Result<(), AllocError>
        requires within { end ≤ buffer_bytes }
        requires whole { AreWholeLines batch.old.items }
        ensures lines { OnOk result (recovered_lines batch.new.items
            ≡ recovered_lines batch.old.items
            ++ map logged_line (lines_from [] (take end self.old.bytes.items))) }
        ensures whole { OnOk result (AreWholeLines batch.new.items) }
        ensures held { OnOk result (line_part self.new
            ≡ shortened_line (rest_from [] (take end self.old.bytes.items))) }
    {
        let start = push_lines(&self.bytes[..end], batch)?;
        let len = (end - start).min(MOST_HELD);
        self.bytes.copy_within(start..start + len, 0);
        self.len = len;
        Ok(())
    }
}

/// Appends the lines that end in these bytes to a batch, and returns where the last one ends.
fn push_lines(bytes: &[u8], batch: &mut Vec<u8>) -> Result<usize, AllocError>
    requires { AreWholeLines batch.old.items }
    ensures { IfOk result (λ start. CutsLines bytes.now start batch.old.items batch.new.items) }
{
    let mut rest = bytes;
    while let Some(len) = find_newline(rest) {
        push_line(batch, &rest[..len.min(MOST_HELD)])?;
        rest = &rest[len + 1..];
    }
    Ok(bytes.len() - rest.len())
}

/// Reads into `buf` and returns the number of bytes.
fn read_bytes<R: Read>(reader: &mut R, buf: &mut [u8]) -> Result<usize, LoggedError>
    ensures bound { ReadsAtMost result buf.new }
    ensures bytes { ReadConsumes (R.remaining reader.old) (R.remaining reader.new) result buf.new }
    ensures fault { IsOkUnless result LoggedError.Read }
{
    reader.read(buf).map_err(|_| LoggedError::Read)
}
