//! The whole lines that bytes begin with, and where they end.
ghost use Rattle.std.specs.Prelude.{◌≡◌, ◌≢◌, ◌⊎◌, ◌<◌, ◌≤◌, [], length, slice_index, MatchBool};
ghost use Rattle.std.specs.Prelude.{MatchOption};
ghost use Rattle.inst_log.specs.Layout.{recovered_lines, blocks, IsFirstLine};

use inst_base::find_newline;

/// Returns the prefix of the bytes that is whole lines, each with its newline.
pub fn whole_lines(bytes: &[u8]) -> &[u8]
    ensures { result.now ≡ blocks (recovered_lines bytes.now) }
{
    &bytes[..kept_len(bytes)]
}

/// Returns the length of the whole lines that the bytes begin with.
pub(crate) fn kept_len(bytes: &[u8]) -> usize
    ensures len { result ≡ length (blocks (recovered_lines bytes.now)) }
    ensures within { result ≤ length bytes.now }
{
    let mut rest = bytes;
    while let Some(len) = first_line(rest) {
        rest = &rest[len..];
    }
    bytes.len() - rest.len()
}

/// Returns the length of the first line with its newline, or `None` if the bytes don't begin with a
/// whole line.
pub fn first_line(bytes: &[u8]) -> Option<usize>
    ensures { MatchOption result (recovered_lines bytes.now ≡ []) (λ n. IsFirstLine bytes.now n) }
{
    if bytes.is_empty() || bytes[0] != b'{' {
        return None;
    }
    match find_newline(bytes) {
        Some(newline) => Some(newline + 1),
        None => None,
    }
}

/// Returns `true` if a closed byte, any byte but `{`, is at `end`.
pub(crate) fn is_closed(bytes: &[u8], end: usize) -> bool
    ensures { MatchBool result ((end < length bytes.now) × (slice_index bytes.now end ≢ 123))
        ((length bytes.now ≤ end) ⊎ (slice_index bytes.now end ≡ 123)) }
{
    end < bytes.len() && bytes[end] != b'{'
}
