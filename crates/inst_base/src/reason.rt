//! Reasons of rejections.
ghost use Rattle.std.specs.Prelude.{◌≡◌, ℕ, List, IsTrue};
ghost use Rattle.inst_base.specs.Text.{is_reason, reason_of};

use crate::Fault;
use crate::code::are_code_characters;
use crate::short_text::ShortText;
use std::marker::Model;

/// The length of a reason.
pub const REASON_LENGTH: usize = 4;

/// Why a beneficiary rejects a transfer: four characters of `A-Z 0-9`, passed on unread.
#[derive(Clone, Copy, Debug, PartialEq, Eq)]
pub struct Reason {
    text: ShortText<REASON_LENGTH>,
}

impl Model for Reason {
    ghost Value = { List ℕ };

    ghost view = { λ reason. reason.text };

    ghost invariant = { λ reason. IsTrue (is_reason reason.text) };

    ghost inverse = { λ text. record { text = text } };
}

impl Reason {
    /// Makes a reason of a copy of `text`.
    ///
    /// # Errors
    ///
    /// [`Fault::BadField`] if `text` isn't four characters of `A-Z 0-9`.
    pub fn new(text: &str) -> Result<Reason, Fault>
        ensures { result ≡ reason_of text.now }
    {
        if !is_reason(text.as_bytes()) {
            return Err(Fault::BadField);
        }
        Ok(Reason {
            text: ShortText::new(text),
        })
    }

    /// Returns the four characters.
    pub fn text(&self) -> &str
        ensures value { result.now ≡ self.now }
        ensures form { IsTrue (is_reason result.now) }
    {
        self.text.as_str()
    }
}

fn is_reason(text: &[u8]) -> bool
    ensures { result ≡ is_reason text.now }
{
    text.len() == REASON_LENGTH && are_code_characters(text)
}
