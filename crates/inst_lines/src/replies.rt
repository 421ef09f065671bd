//! The output buffer.
ghost use Rattle.std.specs.Prelude.{◌≡◌, ◌<◌, ◌||◌, [], true, false, nat_lt, length, OnOk, OnErr};
ghost use Rattle.std.specs.Prelude.{IsErrOf};
ghost use Rattle.std.specs.Io.KnownBytes.{Appends};
ghost use Rattle.inst_lines.specs.Limits.{buffer_bytes};
ghost use Rattle.inst_base.specs.Handing.{WritesPart, WritesFirst};

use crate::limits::BUFFER_BYTES;
use inst_base::{Fault, write_bytes};
use std::alloc::Global;
use std::io::Write;

/// Replies that aren't written yet.
#[derive(Drop)]
pub struct ReplyBuffer {
    pub bytes: Vec<u8>,
    is_unflushed: bool,
}

impl ReplyBuffer {
    /// Returns an empty buffer; allocates nothing.
    pub fn new(alloc: Global) -> ReplyBuffer
        ensures { result.bytes.items ≡ [] }
    {
        ReplyBuffer {
            bytes: Vec::new(alloc),
            is_unflushed: false,
        }
    }

    /// Writes the replies, and keeps the capacity for more. Blocks while the writer does.
    ///
    /// # Errors
    ///
    /// `WriteFault` if a write fails or takes no byte: a prefix of the replies was written.
    pub fn write_to<W: Write>(&mut self, writer: &mut W) -> Result<(), Fault>
        ensures ok { OnOk result
            (Appends (W.contents writer.old) (W.contents writer.new) self.old.bytes.items) }
        ensures none { OnOk result (self.new.bytes.items ≡ []) }
        ensures unflushed { OnOk result (self.new.is_unflushed
            ≡ (self.old.is_unflushed || nat_lt 0 (length self.old.bytes.items))) }
        ensures err { OnErr result
            (WritesPart (W.contents writer.old) (W.contents writer.new) self.old.bytes.items) }
        ensures fault { OnErr result (IsErrOf result Fault.WriteFault) }
    {
        self.is_unflushed = self.is_unflushed || !self.bytes.is_empty();
        write_bytes(writer, self.bytes.as_slice()).map_err(|_| Fault::WriteFault)?;
        self.bytes.clear();
        Ok(())
    }

    /// Writes the replies if there are at least `BUFFER_BYTES` of them.
    ///
    /// # Errors
    ///
    /// `WriteFault` as from [`write_to`](ReplyBuffer::write_to): a prefix of the replies was
    /// written.
    pub fn write_if_full<W: Write>(&mut self, writer: &mut W) -> Result<(), Fault>
        ensures ok { OnOk result
            (WritesFirst (W.contents writer.old) (W.contents writer.new) self.old.bytes.items
            self.new.bytes.items) }
        ensures short { OnOk result (length self.new.bytes.items < buffer_bytes) }
        ensures unflushed { OnOk result (self.old.is_unflushed ≡ true →
            self.new.is_unflushed ≡ true) }
        ensures err { OnErr result
            (WritesPart (W.contents writer.old) (W.contents writer.new) self.old.bytes.items) }
        ensures fault { OnErr result (IsErrOf result Fault.WriteFault) }
    {
        if self.bytes.len() < BUFFER_BYTES {
            return Ok(());
        }
        self.write_to(writer)
    }

    /// Writes the replies, and flushes if anything was written since the last flush.
    ///
    /// # Errors
    ///
    /// `WriteFault` as from [`write_to`](ReplyBuffer::write_to), or if the flush fails; then all
    /// replies were written.
    pub fn deliver<W: Write>(&mut self, writer: &mut W) -> Result<(), Fault>
        ensures ok { OnOk result
            (Appends (W.contents writer.old) (W.contents writer.new) self.old.bytes.items) }
        ensures none { OnOk result (self.new.bytes.items ≡ []) }
        ensures flushed { OnOk result (self.new.is_unflushed ≡ false) }
        ensures err { OnErr result
            (WritesPart (W.contents writer.old) (W.contents writer.new) self.old.bytes.items) }
        ensures fault { OnErr result (IsErrOf result Fault.WriteFault) }
    {
        self.write_to(writer)?;
        if self.is_unflushed {
            writer.flush().map_err(|_| Fault::WriteFault)?;
            self.is_unflushed = false;
        }
        Ok(())
    }
}
