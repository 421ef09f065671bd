//! Participants' codes.
ghost use Rattle.std.specs.Prelude.{◌≡◌, ℕ, List, IsTrue, not, map};
ghost use Rattle.std.specs.List.{list_all};
ghost use Rattle.std.specs.Simd.Lanes.{mask_l};
ghost use Rattle.inst_base.specs.Text.{is_code, is_code_character, code_of};

use crate::Fault;
use crate::short_text::ShortText;
use std::marker::Model;
use std::simd::prelude::*;

/// The length of a code without a branch.
pub const CODE_LENGTH: usize = 8;

/// The length of a code with a branch, and the longest that a code can be.
pub const BRANCH_CODE_LENGTH: usize = 11;

/// A participant's code in the form of a BIC (ISO 9362): 8 or 11 characters of `A-Z 0-9`.
///
/// The inner structure (bank, country, place, branch) isn't checked, nor that a bank has the code.
#[derive(Clone, Copy, Debug, PartialEq, Eq)]
pub struct Code {
    text: ShortText<BRANCH_CODE_LENGTH>,
}

impl Model for Code {
    ghost Value = { List ℕ };

    ghost view = { λ code. code.text };

    ghost invariant = { λ code. IsTrue (is_code code.text) };

    ghost inverse = { λ text. record { text = text } };
}

impl Code {
    /// Makes a code of a copy of `text`.
    ///
    /// # Errors
    ///
    /// [`Fault::BadField`] if `text` isn't 8 or 11 characters of `A-Z 0-9`.
    pub fn new(text: &str) -> Result<Code, Fault>
        ensures { result ≡ code_of text.now }
    {
        if !is_code(text.as_bytes()) {
            return Err(Fault::BadField);
        }
        Ok(Code {
            text: ShortText::new(text),
        })
    }

    /// Returns the characters of the code.
    pub fn text(&self) -> &str
        ensures value { result.now ≡ self.now }
        ensures form { IsTrue (is_code result.now) }
    {
        self.text.as_str()
    }
}

fn is_code(text: &[u8]) -> bool
    ensures { result ≡ is_code text.now }
{
    (text.len() == CODE_LENGTH || text.len() == BRANCH_CODE_LENGTH) && are_code_characters(text)
}

/// Returns `true` if the byte is one of `A-Z 0-9`.
fn is_code_character(byte: u8) -> bool
    ensures { result ≡ is_code_character byte }
{
    byte.is_ascii_uppercase() || byte.is_ascii_digit()
}

/// Returns a mask with a bit for each of the eight bytes that is not one of `A-Z 0-9`.
#[inline(always)]
fn not_code_characters(bytes: u8x8) -> u64
    ensures { result ≡ mask_l (map (λ x. not (is_code_character x)) bytes) }
{
    let no_letter = (bytes - u8x8::splat(b'A')).simd_ge(u8x8::splat(26));
    let no_digit = (bytes - u8x8::splat(b'0')).simd_ge(u8x8::splat(10));
    (no_letter & no_digit).to_bitmask()
}

/// Returns `true` if each byte is one of `A-Z 0-9`.
pub(crate) fn are_code_characters(text: &[u8]) -> bool
    ensures { result ≡ list_all is_code_character text.now }
{
    if text.len() < 8 || text.len() > 16 {
        return text.iter().all(|&byte| is_code_character(byte));
    }
    let last = text.len() - 8;
    not_code_characters(u8x8::from_slice(text)) == 0
        && not_code_characters(u8x8::from_slice(&text[last..])) == 0
}
