//! Errors after which a line is no JSON, whatever follows. They are checked only if a line isn't
//! plain.
ghost use Rattle.std.specs.Prelude.{◌≡◌, ◌-◌, ◌≤◌, ℕ, true, length, drop, slice_index, None};
ghost use Rattle.json.specs.Text.{content, plain};
ghost use Rattle.json.specs.Json.{read_key, value};
ghost use Rattle.json.specs.Lex.{lex, between, Place, fresh, after_comma, may_begin, punctuate};
ghost use Rattle.inst_json.specs.inner.Begin.{begins_value};

use crate::scanning::parts::{plain_end, skip_space, string};

/// Returns `true` if a value may begin with this byte.
#[inline(always)]
fn begins_value(byte: u8) -> bool
    ensures { result ≡ begins_value byte }
{
    byte.is_ascii_digit()
        || byte == b'"'
        || byte == b'{'
        || byte == b'['
        || byte == b'-'
        || byte == b't'
        || byte == b'f'
        || byte == b'n'
}

/// Returns `true` if the text after a quotation mark ends at the end of the line, or at a control
/// byte.
#[inline(always)]
fn breaks_off(text: &[u8], from: usize) -> bool
    requires { from ≤ length text.now }
    ensures { result ≡ true → content plain (drop from text.now) ≡ None }
{
    let end = plain_end(text, from);
    end >= text.len() || text[end] < 0x20
}

/// Returns `true` if neither a key nor the end of an object is where one must be. An end after a
/// comma doesn't count.
#[inline(never)]
pub(crate) fn lacks_key(text: &[u8], from: usize) -> bool
    requires { from ≤ length text.now }
    ensures { result ≡ true → (p : Place) → may_begin p ≡ true
        → (slice_index text.now (from - 1) ≡ 44 → p ≡ after_comma)
        → read_key (punctuate p (lex between (drop from text.now))) ≡ None }
{
    let start = skip_space(text, from);
    if start >= text.len() {
        return true;
    }
    if text[start] == b'}' {
        return from > 0 && text[from - 1] == b',';
    }
    if text[start] != b'"' {
        return true;
    }
    let Some((_, end)) = string(text, start + 1) else {
        return breaks_off(text, start + 1);
    };
    let at = skip_space(text, end);
    at >= text.len() || text[at] != b':'
}

/// Returns `true` if no value is where one must be. Most words and numbers aren't checked.
#[inline(never)]
pub(crate) fn lacks_value(text: &[u8], from: usize) -> bool
    requires { from ≤ length text.now }
    ensures { result ≡ true → (depth : ℕ) →
        value depth (punctuate fresh (lex between (drop from text.now))) ≡ None }
{
    let start = skip_space(text, from);
    if start >= text.len() {
        return true;
    }
    if text[start] == b'"' {
        return breaks_off(text, start + 1);
    }
    !begins_value(text[start])
}
