//! Scanning a member of an object: its key, and its value.
ghost use Rattle.std.specs.Prelude.{◌≡◌, ◌<◌, ◌≤◌, ◌∷◌, length, drop, Some, IfSome};
ghost use Rattle.std.specs.Str.{IsAscii};
ghost use Rattle.json.specs.Token.{Token, string};
ghost use Rattle.json.specs.Lex.{lex, between, token, colon};
ghost use Rattle.serde_json.specs.Data.{Data};
ghost use Rattle.inst_json.specs.inner.Scalar.{IsScalar, data_of};

use crate::scanning::fields::Field;
use crate::scanning::parts::{skip_space, string, whole};

/// Returns the key of a member, and the position after its colon.
#[inline(always)]
pub(crate) fn key(text: &[u8], from: usize) -> Option<(&str, usize)>
    requires { from ≤ length text.now }
    ensures within { IfSome result (λ p. (from < p.1) × (p.1 ≤ length text.now)) }
    ensures lexed { IfSome result (λ p. lex between (drop from text.now)
        ≡ token (string p.0.now) ∷ colon ∷ lex between (drop p.1 text.now)) }
    ensures ascii { IfSome result (λ p. IsAscii (drop p.1 text.now) →
        IsAscii (drop from text.now)) }
{
    let start = skip_space(text, from);
    if start >= text.len() || text[start] != b'"' {
        return None;
    }
    let (name, end) = string(text, start + 1)?;
    let at = skip_space(text, end);
    if at >= text.len() || text[at] != b':' {
        return None;
    }
    Some((name, at + 1))
}

/// Returns the value of a member, and the position after it.
#[inline(always)]
pub(crate) fn scalar(text: &[u8], from: usize) -> Option<(Field<'_>, usize)>
    requires { from ≤ length text.now }
    ensures within { IfSome result (λ p. (from < p.1) × (p.1 ≤ length text.now)) }
    ensures lexed { IfSome result (λ p. (t : Token) × (d : Data) × IsScalar t d
        × (data_of p.0 ≡ Some d)
        × (lex between (drop from text.now) ≡ token t ∷ lex between (drop p.1 text.now))) }
    ensures ascii { IfSome result (λ p. IsAscii (drop p.1 text.now) →
        IsAscii (drop from text.now)) }
{
    let start = skip_space(text, from);
    if start < text.len() && text[start] == b'"' {
        let (word, end) = string(text, start + 1)?;
        return Some((Field::Text(word), end));
    }
    let (value, end) = whole(text, start)?;
    Some((Field::Whole(value), end))
}
