//! Appending the members of an event's JSON object.
ghost use Rattle.std.specs.Prelude.{◌≡◌, ◌++◌, [], ◌∷◌, OnOk};
ghost use Rattle.inst_books.specs.inner.Members.{begin_text, text_member, whole_member};

use inst_json::piece::{push_number, push_text};
use std::alloc::AllocError;

/// Begins an object with the code of the participant whose book it is in.
pub(crate) fn push_book(out: &mut Vec<u8>, book: &str) -> Result<(), AllocError>
    ensures { OnOk result (out.new.items ≡ out.old.items ++ begin_text book.now) }
{
    push_text(out, "{\"book\":\"")?;
    push_text(out, book)?;
    push_text(out, "\"")
}

/// Appends a member that is a text.
pub(crate) fn push_text_member<'a>(
    out: &mut Vec<u8>,
    name: &'a str,
    text: &'a str,
) -> Result<(), AllocError>
    ensures { OnOk result (out.new.items ≡ out.old.items ++ text_member name.now text.now) }
{
    push_text(out, ",\"")?;
    push_text(out, name)?;
    push_text(out, "\":\"")?;
    push_text(out, text)?;
    push_text(out, "\"")
}

/// Appends a member that is a whole number.
pub(crate) fn push_whole_member(
    out: &mut Vec<u8>,
    name: &str,
    number: u64,
) -> Result<(), AllocError>
    ensures { OnOk result (out.new.items ≡ out.old.items ++ whole_member name.now number) }
{
    push_text(out, ",\"")?;
    push_text(out, name)?;
    push_text(out, "\":")?;
    push_number(out, number)
}

/// Ends an object.
pub(crate) fn push_end(out: &mut Vec<u8>) -> Result<(), AllocError>
    ensures { OnOk result (out.new.items ≡ out.old.items ++ 125 ∷ []) }
{
    push_text(out, "}")
}
