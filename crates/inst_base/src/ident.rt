//! Identifiers of transfers and references of fundings.
ghost use Rattle.std.specs.Prelude.{◌≡◌, ℕ, List, IsTrue, not, map};
ghost use Rattle.std.specs.List.{list_all};
ghost use Rattle.std.specs.Simd.Lanes.{mask_l};
ghost use Rattle.inst_base.specs.Text.{is_identifier, is_latin, identifier_of};

use crate::Fault;
use crate::short_text::ShortText;
use std::marker::Model;
use std::simd::prelude::*;

/// The length of the longest identifier.
pub const MOST_IDENTIFIER_LENGTH: usize = 35;

/// An identifier of a transfer or a reference of a funding.
///
/// It has 1 to 35 characters of the scheme's basic Latin set (`a-z A-Z 0-9 / - ? : ( ) . , ' +` and
/// space), in any arrangement.
#[derive(Clone, Copy, Debug, PartialEq, Eq, Hash)]
pub struct Ident {
    text: ShortText<MOST_IDENTIFIER_LENGTH>,
}

impl Model for Ident {
    ghost Value = { List ℕ };

    ghost view = { λ ident. ident.text };

    ghost invariant = { λ ident. IsTrue (is_identifier ident.text) };

    ghost inverse = { λ text. record { text = text } };
}

impl Ident {
    /// Makes an identifier of a copy of `text`.
    ///
    /// # Errors
    ///
    /// [`Fault::BadIdentifier`] if `text` isn't 1 to 35 characters of the basic Latin set.
    pub fn new(text: &str) -> Result<Ident, Fault>
        ensures { result ≡ identifier_of text.now }
    {
        if !is_identifier(text.as_bytes()) {
            return Err(Fault::BadIdentifier);
        }
        Ok(Ident {
            text: ShortText::new(text),
        })
    }

    /// Returns the characters of the identifier.
    pub fn text(&self) -> &str
        ensures value { result.now ≡ self.now }
        ensures form { IsTrue (is_identifier result.now) }
    {
        self.text.as_str()
    }
}

fn is_identifier(text: &[u8]) -> bool
    ensures { result ≡ is_identifier text.now }
{
    !text.is_empty() && text.len() <= MOST_IDENTIFIER_LENGTH && are_latin(text)
}

/// Returns `true` if the byte is a character of the basic Latin set.
fn is_latin(byte: u8) -> bool
    ensures { result ≡ is_latin byte }
{
    matches!(
        byte,
        b'a'..=b'z' | b'A'..=b'Z' | b'0'..=b'9' | b'/' | b'-' | b'?' | b':' | b'(' | b')' | b'.' | b',' | b'\'' | b'+' | b' '
    )
}

/// Returns a mask with a bit for each of the sixteen bytes that is not in the basic Latin set.
#[inline(always)]
fn not_latin(bytes: u8x16) -> u64
    ensures { result ≡ mask_l (map (λ x. not (is_latin x)) bytes) }
{
    let no_letter = ((bytes | u8x16::splat(0x20)) - u8x16::splat(b'a')).simd_ge(u8x16::splat(26));
    // The set's digits and signs are the bytes from the apostrophe to the colon, except the
    // asterisk.
    let no_sign = (bytes - u8x16::splat(b'\'')).simd_ge(u8x16::splat(20))
        | bytes.simd_eq(u8x16::splat(b'*'));
    let no_other = bytes.simd_ne(u8x16::splat(b' ')) & bytes.simd_ne(u8x16::splat(b'?'));
    (no_letter & no_sign & no_other).to_bitmask()
}

/// Returns `true` if each byte is a character of the basic Latin set.
fn are_latin(text: &[u8]) -> bool
    ensures { result ≡ list_all is_latin text.now }
{
    if text.len() < 16 {
        return text.iter().all(|&byte| is_latin(byte));
    }
    let last = text.len() - 16;
    let mut at = 0;
    while at < last {
        if not_latin(u8x16::from_slice(&text[at..])) != 0 {
            return false;
        }
        at += 16;
    }
    // The last sixteen bytes may overlap bytes that have passed already.
    not_latin(u8x16::from_slice(&text[last..])) == 0
}
