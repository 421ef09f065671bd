//! Appending texts and numbers to a line.
ghost use Rattle.std.specs.Prelude.{◌≡◌, ◌++◌, OnOk, decimal};

use itoa::Buffer;
use std::alloc::AllocError;

/// Appends a text to `out`. Inlined, so that a constant text is appended without a loop.
///
/// # Errors
///
/// [`AllocError`] if `out` can't grow; it is unchanged.
#[inline(always)]
pub fn push_text(out: &mut Vec<u8>, text: &str) -> Result<(), AllocError>
    ensures { OnOk result (out.new.items ≡ out.old.items ++ text.now) }
{
    out.extend_from_slice(text.as_bytes())
}

/// Appends the decimal digits of a number to `out`.
///
/// # Errors
///
/// [`AllocError`] if `out` can't grow; it is unchanged.
#[inline(always)]
pub fn push_number(out: &mut Vec<u8>, number: u64) -> Result<(), AllocError>
    ensures { OnOk result (out.new.items ≡ out.old.items ++ decimal number) }
{
    let mut buffer = Buffer::new();
    out.extend_from_slice(buffer.format(number).as_bytes())
}
