//! Escaping texts from outside for standard error.
ghost use Rattle.std.specs.Prelude.{◌≡◌, ◌<◌, ◌++◌, IfOk, OnOk, string_bytes, take};
ghost use Rattle.inst_options.specs.Excerpt.{excerpt, hex_digit, is_shown_as_is, shown_byte};

use std::alloc::{AllocError, Global};

/// The number of bytes of a text that an excerpt shows.
const MOST_SHOWN: usize = 200;

/// Returns the first 200 bytes of a text, escaped, followed by `..` if it has more.
///
/// A backslash and each byte that isn't printable ASCII is written as `\x1b`, say, so an excerpt
/// moves no cursor and begins no line.
///
/// ```text
/// excerpt(alloc, b"hub\x1b[2J") // hub\x1b[2J, with no control character
/// ```
///
/// # Errors
/// [`AllocError`].
pub fn excerpt(alloc: Global, bytes: &[u8]) -> Result<String, AllocError>
    ensures { IfOk result (λ text. string_bytes text ≡ excerpt bytes.now) }
{
    let first = first_bytes(bytes);
    let mut text = String::new(alloc);
    for &byte in first {
        push_byte(&mut text, byte)?;
    }
    if bytes.len() <= MOST_SHOWN {
        return Ok(text);
    }
    text.push_str("..")?;
    Ok(text)
}

fn first_bytes(bytes: &[u8]) -> &[u8]
    ensures { result.now ≡ take 200 bytes.now }
{
    if bytes.len() <= MOST_SHOWN {
        bytes
    } else {
        &bytes[..MOST_SHOWN]
    }
}

/// Appends a byte or its escape.
fn push_byte(text: &mut String, byte: u8) -> Result<(), AllocError>
    ensures { OnOk result (string_bytes text.new ≡ string_bytes text.old ++ shown_byte byte) }
{
    if is_plain(byte) {
        return text.push(byte as char);
    }
    text.push_str("\\x")?;
    text.push(hex_digit(byte / 16) as char)?;
    text.push(hex_digit(byte % 16) as char)
}

/// Returns `true` for printable ASCII other than the backslash.
fn is_plain(byte: u8) -> bool
    ensures { result ≡ is_shown_as_is byte }
{
    b' ' <= byte && byte <= b'~' && byte != b'\\'
}

fn hex_digit(value: u8) -> u8
    requires { value < 16 }
    ensures value { result ≡ hex_digit value }
    ensures ascii { result < 128 }
{
    if value < 10 {
        b'0' + value
    } else {
        b'a' - 10 + value
    }
}
