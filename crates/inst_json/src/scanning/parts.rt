//! Scanning the parts of a line: spaces, a plain text, a whole number.
ghost use Rattle.std.specs.Prelude.{◌≡◌, ◌+◌, ◌<◌, ◌≤◌, ◌^◌, ◌++◌, ◌∷◌, [], true, false, not, map};
ghost use Rattle.std.specs.Prelude.{length, drop, slice_index, Some, IfSome, decimal};
ghost use Rattle.std.specs.List.{prefix_len};
ghost use Rattle.std.specs.Str.{IsAscii};
ghost use Rattle.inst_json.specs.inner.Scalar.{is_text};
ghost use Rattle.inst_json.specs.inner.Spaces.{SkipsSpace};
ghost use Rattle.std.specs.Simd.Lanes.{mask_l};
ghost use Rattle.json.specs.Word.{is_space, ends_word};
ghost use Rattle.json.specs.Text.{content, plain};
ghost use Rattle.json.specs.Token.{number};
ghost use Rattle.json.specs.Lex.{lex, between, in_string, token};

use std::simd::prelude::*;
use std::str;

/// Returns `true` for the four white space bytes of JSON.
#[inline(always)]
fn is_space(byte: u8) -> bool
    ensures { result ≡ is_space byte }
{
    byte == b' ' || byte == b'\t' || byte == b'\n' || byte == b'\r'
}

/// Returns the first position from `from` on that isn't white space.
// Kept out of line: inlined, the loop's setup would run at each position without white space too.
#[inline(never)]
fn skip_spaces(text: &[u8], from: usize) -> usize
    requires { from ≤ length text.now }
    ensures { SkipsSpace text.now from result }
{
    let mut at = from;
    while at < text.len() && is_space(text[at]) {
        at += 1;
    }
    at
}

/// Does the same, at once where there is no white space.
#[inline(always)]
pub(crate) fn skip_space(text: &[u8], from: usize) -> usize
    requires { from ≤ length text.now }
    ensures { SkipsSpace text.now from result }
{
    if from < text.len() && text[from] > b' ' {
        return from;
    }
    skip_spaces(text, from)
}

/// Returns a mask of the bytes that end a plain text: a quotation mark, a backslash, a control byte
/// or not ASCII.
#[inline(always)]
fn stops(bytes: u8x16) -> u64
    ensures { result ≡ mask_l (map (λ x. not (is_text x)) bytes) }
{
    (bytes.simd_eq(u8x16::splat(b'"'))
        | bytes.simd_eq(u8x16::splat(b'\\'))
        | bytes.simd_lt(u8x16::splat(0x20))
        | bytes.simd_ge(u8x16::splat(0x80))).to_bitmask()
}

/// Does the same byte by byte, for a line of fewer than sixteen bytes.
#[inline(always)]
fn plain_end_slowly(text: &[u8], from: usize) -> usize
    requires { from ≤ length text.now }
    ensures value { result ≡ from + prefix_len is_text (drop from text.now) }
    ensures within { result ≤ length text.now }
{
    let mut at = from;
    while at < text.len()
        && text[at] != b'"'
        && text[at] != b'\\'
        && text[at] >= 0x20
        && text[at] < 0x80
    {
        at += 1;
    }
    at
}

/// Returns the position of the first byte from `from` on that ends a plain text, or the end.
#[inline(always)]
pub(crate) fn plain_end(text: &[u8], from: usize) -> usize
    requires { from ≤ length text.now }
    ensures value { result ≡ from + prefix_len is_text (drop from text.now) }
    ensures within { result ≤ length text.now }
{
    let mut at = from;
    while text.len() - at >= 16 {
        let found = stops(u8x16::from_slice(&text[at..]));
        if found != 0 {
            return at + found.trailing_zeros() as usize;
        }
        at += 16;
    }
    if text.len() < 16 {
        return plain_end_slowly(text, at);
    }
    // The last sixteen bytes, without those before `at`.
    let last = text.len() - 16;
    let found = stops(u8x16::from_slice(&text[last..])) >> (at - last);
    if found == 0 {
        return text.len();
    }
    at + found.trailing_zeros() as usize
}

/// Returns the text after a quotation mark if it has no escape, and the position after its closing
/// one.
#[inline(always)]
pub(crate) fn string(text: &[u8], from: usize) -> Option<(&str, usize)>
    requires { from ≤ length text.now }
    ensures within { IfSome result (λ p. (from < p.1) × (p.1 ≤ length text.now)) }
    ensures value { IfSome result (λ p. content plain (drop from text.now) ≡ Some p.0.now) }
    ensures rest { IfSome result (λ p.
        lex in_string (drop from text.now) ≡ lex between (drop p.1 text.now)) }
    ensures ascii { IfSome result (λ p. IsAscii (drop p.1 text.now) →
        IsAscii (drop from text.now)) }
{
    let end = plain_end(text, from);
    if end < text.len() && text[end] == b'"' {
        // SAFETY: all bytes before `end` are ASCII.
        let word = unsafe { str::from_utf8_unchecked(&text[from..end]) };
        Some((word, end + 1))
    } else {
        None
    }
}

/// Returns the value of the digits from `from` on and the position after them: at most 19 digits,
/// without a leading zero.
#[inline(always)]
fn digits(text: &[u8], from: usize) -> Option<(u64, usize)>
    requires { from ≤ length text.now }
    ensures within { IfSome result (λ p. (from < p.1) × (p.1 ≤ length text.now)) }
    ensures small { IfSome result (λ p. p.0 < 2 ^ 64) }
    ensures value { IfSome result (λ p. drop from text.now ≡ decimal p.0 ++ drop p.1 text.now) }
{
    if from >= text.len() || !text[from].is_ascii_digit() {
        return None;
    }
    let mut value = u64::from(text[from] - b'0');
    let mut at = from + 1;
    if value == 0 {
        return Some((value, at));
    }
    while at < text.len() && text[at].is_ascii_digit() {
        if value >= 1_000_000_000_000_000_000 {
            return None;
        }
        value = value * 10 + u64::from(text[at] - b'0');
        at += 1;
    }
    Some((value, at))
}

/// Returns `true` if a number may end before this byte.
#[inline(always)]
fn ends_number(byte: u8) -> bool
    ensures { result ≡ true → ends_word (byte ∷ []) ≡ true }
{
    byte == b',' || byte == b'}' || byte == b' '
}

/// Returns a whole number of at most 19 digits that ends its word, and the position after it.
#[inline(always)]
pub(crate) fn whole(text: &[u8], from: usize) -> Option<(u64, usize)>
    requires { from ≤ length text.now }
    ensures within { IfSome result (λ p. (from < p.1) × (p.1 ≤ length text.now)) }
    ensures small { IfSome result (λ p. p.0 < 2 ^ 64) }
    ensures lexed { IfSome result (λ p. lex between (drop from text.now)
        ≡ token (number (decimal p.0)) ∷ lex between (drop p.1 text.now)) }
    ensures ascii { IfSome result (λ p. IsAscii (drop p.1 text.now) →
        IsAscii (drop from text.now)) }
{
    let (value, end) = digits(text, from)?;
    if end < text.len() && ends_number(text[end]) {
        Some((value, end))
    } else {
        None
    }
}
