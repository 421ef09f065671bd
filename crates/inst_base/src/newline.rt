//! The end of a line.
ghost use Rattle.std.specs.Prelude.{MatchOption};
ghost use Rattle.inst_base.specs.Newline.{NoNewline, BreaksAt};

use memchr::memchr;

/// Returns the index of the first newline, or `None` if there is none. Cost: linear in the bytes
/// before it.
pub fn find_newline(bytes: &[u8]) -> Option<usize>
    ensures { MatchOption result (NoNewline bytes.now) (λ n. BreaksAt bytes.now n) }
{
    memchr(b'\n', bytes)
}
