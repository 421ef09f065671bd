//! The input buffer.
ghost use Rattle.std.specs.Prelude.{◌≡◌, ◌≤◌, ◌<◌, ◌+◌, [], ◌||◌, nat_lt, IfOk, IsErrOf};
ghost use Rattle.std.specs.Prelude.{OnErr, false, length, drop, vec_len};
ghost use Rattle.std.specs.Io.{ReadsAtMost};
ghost use Rattle.std.specs.Io.KnownBytes.{ReadConsumes};
ghost use Rattle.inst_lines.specs.Limits.{most_bytes, most_line_bytes, buffer_bytes};
ghost use Rattle.inst_base.specs.Newline.{NoNewline};

use crate::limits::{BUFFER_BYTES, MOST_BYTES, MOST_LINE_BYTES};
use inst_base::Fault;
use std::alloc::{AllocError, Global};
use std::io::Read;

/// The bytes that were read and not answered yet.
///
/// Of a line that is too long only the bytes of the last read are held.
#[derive(Drop)]
pub struct LineBuffer {
    bytes: Vec<u8>,
    start: usize,
    end: usize,
    is_long: bool,
    taken: u64,
    ghost ordered: { start ≤ end },
    ghost within: { end ≤ buffer_bytes },
    ghost size: { vec_len bytes ≡ buffer_bytes },
    ghost limit: { taken ≤ most_bytes },
}

impl LineBuffer {
    ghost use Rattle.inst_lines.specs.Answers.{MakesRoom};
    ghost use Rattle.inst_lines.specs.LineBuffer.{unanswered_bytes, Fills, FillFails};

    /// Returns an empty buffer.
    ///
    /// # Errors
    ///
    /// [`AllocError`] if the buffer of 65,536 bytes can't be allocated.
    pub fn new(alloc: Global) -> Result<LineBuffer, AllocError>
        ensures held { IfOk result (λ input. unanswered_bytes input ≡ []) }
        ensures start { IfOk result (λ input. (input.is_long ≡ false) × (input.taken ≡ 0)
            × (input.end ≡ 0)) }
    {
        let bytes = vec![in alloc; 0; BUFFER_BYTES]?;
        Ok(LineBuffer {
            bytes,
            start: 0,
            end: 0,
            is_long: false,
            taken: 0,
        })
    }

    /// Reads more bytes, and returns their number: 0 at the end of the input. Blocks while the
    /// reader does.
    ///
    /// Requires space in the buffer, as [`make_room`](LineBuffer::make_room) makes it.
    ///
    /// # Errors
    ///
    /// `ReadFault` if the read fails, or the input is longer than `MOST_BYTES`. No byte is added.
    pub fn fill<R: Read>(&mut self, reader: &mut R) -> Result<usize, Fault>
        requires { self.old.end < buffer_bytes }
        ensures ok { IfOk result (λ n.
            Fills self.old self.new n (R.remaining reader.old) (R.remaining reader.new)) }
        ensures err { OnErr result
            (FillFails self.old (R.remaining reader.old) (R.remaining reader.new)) }
        ensures fault { OnErr result (IsErrOf result Fault.ReadFault) }
    {
        let left = MOST_BYTES - self.taken;
        let room = left.max(1).min((BUFFER_BYTES - self.end) as u64) as usize;
        let start = self.end;
        let count = read_bytes(reader, &mut self.bytes[start..start + room])?;
        if count as u64 > left {
            return Err(Fault::ReadFault);
        }
        self.end += count;
        self.taken += count as u64;
        Ok(count)
    }

    /// Returns the bytes that are held.
    pub fn as_slice(&self) -> &[u8]
        ensures { result.now ≡ unanswered_bytes self.now }
    {
        &self.bytes[self.start..self.end]
    }

    /// Returns the number of bytes that are held.
    pub fn len(&self) -> usize
        ensures { result ≡ length (unanswered_bytes self.now) }
    {
        self.end - self.start
    }

    /// Returns `true` if a part of a line is held or was dropped.
    pub fn is_in_line(&self) -> bool
        ensures { result ≡ (self.now.is_long || nat_lt 0 (length (unanswered_bytes self.now))) }
    {
        self.is_long || self.start < self.end
    }

    /// Returns `true` if earlier bytes of the held line were dropped.
    pub fn lacks_front(&self) -> bool
        ensures { result ≡ self.now.is_long }
    {
        self.is_long
    }

    /// Drops a line of which this many bytes are held, and its newline. Requires that `len` bytes
    /// are held.
    pub fn drop_line(&mut self, len: usize)
        requires { len ≤ length (unanswered_bytes self.old) }
        ensures held { unanswered_bytes self.new
            ≡ drop (len + 1) (unanswered_bytes self.old) }
        ensures is_long { self.new.is_long ≡ false }
        ensures taken { self.new.taken ≡ self.old.taken }
    {
        self.start = (self.start + len + 1).min(self.end);
        self.is_long = false;
    }

    /// Makes space for a read. Moves the held bytes to the start, or drops them if their line is
    /// too long already. Requires that no newline is held.
    pub fn make_room(&mut self)
        requires { NoNewline (unanswered_bytes self.old) }
        ensures kept { MakesRoom self.old.is_long (unanswered_bytes self.old) self.new.is_long
            (unanswered_bytes self.new) }
        ensures room { self.new.end ≤ most_line_bytes }
        ensures taken { self.new.taken ≡ self.old.taken }
    {
        if is_too_long(self.is_long, self.len()) {
            self.is_long = true;
            self.start = 0;
            self.end = 0;
        } else {
            self.bytes.copy_within(self.start..self.end, 0);
            self.end -= self.start;
            self.start = 0;
        }
    }
}

/// Returns `true` if a line is too long: some of it was dropped, or more than the maximum is held.
pub(crate) fn is_too_long(is_long: bool, len: usize) -> bool
    ensures { result ≡ (is_long || nat_lt most_line_bytes len) }
{
    is_long || len > MOST_LINE_BYTES
}

/// Reads into `buf`, and returns the number of bytes; `ReadFault` if the read fails.
fn read_bytes<R: Read>(reader: &mut R, buf: &mut [u8]) -> Result<usize, Fault>
    ensures bound { ReadsAtMost result buf.new }
    ensures bytes { ReadConsumes (R.remaining reader.old) (R.remaining reader.new) result buf.new }
    ensures fault { OnErr result (IsErrOf result Fault.ReadFault) }
{
    reader.read(buf).map_err(|_| Fault::ReadFault)
}
