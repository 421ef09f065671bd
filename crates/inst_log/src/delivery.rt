//! Writing replies, with a contract on what was written before a failure.
ghost use Rattle.std.specs.Prelude.{OnOk, IsOkUnless};
ghost use Rattle.std.specs.Io.KnownBytes.{Appends};
ghost use Rattle.inst_base.specs.Handing.{WritesPart};

use crate::LogError;
use inst_base::write_bytes;
use std::io::Write;

/// Writes these bytes and flushes the writer.
///
/// # Errors
///
/// [`LogError::Write`] if the writer fails; a prefix of the bytes was written.
pub fn deliver<W: Write>(writer: &mut W, bytes: &[u8]) -> Result<(), LogError>
    ensures ok { OnOk result
        (Appends (W.Write.contents writer.old) (W.Write.contents writer.new) bytes.now) }
    ensures part { WritesPart (W.Write.contents writer.old) (W.Write.contents writer.new)
        bytes.now }
    ensures only { IsOkUnless result LogError.Write }
{
    write_bytes(writer, bytes).map_err(|_| LogError::Write)?;
    writer.flush().map_err(|_| LogError::Write)
}
