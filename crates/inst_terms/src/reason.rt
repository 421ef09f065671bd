//! A reason as a number below 36^4: its four characters in base 36, the first highest.
ghost use Rattle.std.specs.Prelude.{◌≡◌, ◌<◌, ℕ, List, Some, IsTrue, ◌↔◌};
ghost use Rattle.inst_base.specs.Text.{is_reason, is_code_character};
ghost use Rattle.inst_terms.specs.Reason.{digit_of, reason_number};
ghost use Rattle.inst_terms.specs.inner.Reason.{character_of};

use inst_base::Reason;
use std::str;

/// The number of reasons: 36^4.
pub(crate) const REASONS: u64 = 1_679_616;

/// Returns the number of a reason, below 36^4.
pub(crate) fn pack_reason(reason: &Reason) -> u64
    ensures value { result ≡ reason_number reason.now }
    ensures below { result < REASONS }
    ensures form { IsTrue (is_reason reason.now) }
{
    match reason.text().as_bytes() {
        &[a, b, c, d] => ((digit_of(a) * 36 + digit_of(b)) * 36 + digit_of(c)) * 36 + digit_of(d),
        _ => unreachable!(),
    }
}

/// Returns the reason with this number, or `None` from 36^4 on.
pub(crate) fn read_reason(number: u64) -> Option<Reason>
    ensures { (reason : List ℕ) → (result ≡ Some reason) ↔
        (IsTrue (is_reason reason) × (reason_number reason ≡ number)) }
{
    if number >= REASONS {
        return None;
    }
    let characters = [
        character_of(number / 46_656),
        character_of(number / 1_296 % 36),
        character_of(number / 36 % 36),
        character_of(number % 36),
    ];
    match str::from_utf8(&characters) {
        Ok(text) => Reason::new(text).ok(),
        Err(_) => unreachable!(),
    }
}

/// Returns the value of a character of `0-9 A-Z`.
fn digit_of(character: u8) -> u64
    requires { IsTrue (is_code_character character) }
    ensures value { result ≡ digit_of character }
    ensures below { result < 36 }
{
    let value = match character {
        b'0'..=b'9' => character - b'0',
        _ => character - b'A' + 10,
    };
    u64::from(value)
}

/// Returns the character of `0-9 A-Z` with this value.
fn character_of(value: u64) -> u8
    requires { value < 36 }
    ensures { result ≡ character_of value }
{
    let value = value as u8;
    if value < 10 {
        b'0' + value
    } else {
        b'A' + (value - 10)
    }
}
