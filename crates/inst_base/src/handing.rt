//! Writes bytes so that, after a failure, a prefix of them is known to be written.
ghost use Rattle.std.specs.Prelude.{OnOk, OnErr};
ghost use Rattle.std.specs.Io.KnownBytes.{Appends};
ghost use Rattle.inst_base.specs.Handing.{WritesPart};

use std::io::Write;
use thiserror::Error;

/// The error of [`write_bytes`]: a write failed or took no byte.
#[derive(Clone, Copy, Debug, PartialEq, Eq, Error)]
#[error("a write failed or took no byte")]
pub struct Unwritten;

/// Writes all of `bytes` in as many writes as needed; doesn't flush.
///
/// # Errors
///
/// [`Unwritten`] if a write fails or takes no byte. A prefix of the bytes, perhaps empty, was
/// written.
pub fn write_bytes<W: Write>(writer: &mut W, bytes: &[u8]) -> Result<(), Unwritten>
    ensures ok { OnOk result
        (Appends (W.Write.contents writer.old) (W.Write.contents writer.new) bytes.now) }
    ensures err { OnErr result
        (WritesPart (W.Write.contents writer.old) (W.Write.contents writer.new) bytes.now) }
{
    let mut rest = bytes;
    while !rest.is_empty() {
        match writer.write(rest) {
            Ok(0) | Err(_) => return Err(Unwritten),
            Ok(count) => rest = &rest[count..],
        }
    }
    Ok(())
}
