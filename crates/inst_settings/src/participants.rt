//! Parsing a list of participants.
ghost use Rattle.std.specs.Prelude.{◌≡◌, OkIff, true, IfOk, IfErr, IsOkUnless, map};
ghost use Rattle.inst_base.specs.Text.{is_code};
ghost use Rattle.inst_settings.specs.Parts.{parts_of, are_codes, IsRefusal};

use inst_base::{Code, Fault};
use std::alloc::{AllocError, Global};
use std::str;

/// Parses codes separated by commas, in their order. Nothing is trimmed, so an empty part is
/// malformed. Equal codes aren't detected: [`Settings::check`](crate::Settings::check) refuses
/// them.
///
/// # Errors
///
/// - [`Fault::BadSettings`] if a part isn't 8 or 11 characters of `A-Z 0-9`.
/// - [`Fault::Memory`] if an allocation fails.
pub fn parse_codes(alloc: Global, text: &[u8]) -> Result<Vec<Code>, Fault>
    ensures codes { IfOk result (λ codes. codes.items ≡ parts_of text.now) }
    ensures formed { IfOk result (λ _. are_codes text.now ≡ true) }
    ensures fault { IfErr result (IsRefusal text.now) }
{
    let parts = parts(alloc, text)?;
    let mut codes = Vec::new(alloc);
    for part in &parts {
        codes.push(code(part)?)?;
    }
    Ok(codes)
}

/// Makes a code of this text, which may be any bytes.
fn code(text: &[u8]) -> Result<Code, Fault>
    ensures code { OkIff result (is_code text.now ≡ true) text.now }
    ensures fault { IsOkUnless result Fault.BadSettings }
{
    let Ok(text) = str::from_utf8(text) else {
        return Err(Fault::BadSettings);
    };
    Code::new(text).map_err(|_| Fault::BadSettings)
}

/// Splits the text at its commas.
fn parts(alloc: Global, text: &[u8]) -> Result<Vec<&[u8]>, AllocError>
    ensures { IfOk result (λ parts. map (λ part. part.now) parts.items ≡ parts_of text.now) }
{
    text.split(|&byte| byte == b',').collect(alloc)
}
