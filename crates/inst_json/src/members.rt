//! Appending the members of a JSON object. No name and no text of theirs needs an escape.
ghost use Rattle.std.specs.Prelude.{◌≡◌, ◌++◌, [], ◌∷◌, IsTrue, OnOk};
ghost use Rattle.json.specs.Print.{quoted};
ghost use Rattle.serde_json.specs.Data.{string};
ghost use Rattle.inst_json.specs.Members.{is_plain, first_member, next_member};
ghost use Rattle.inst_json.specs.Replies.{whole};

use crate::piece::{push_number, push_text};
use std::alloc::AllocError;

/// Begins an object with a member that is a text.
pub(crate) fn begin_with_text<'a>(
    out: &mut Vec<u8>,
    name: &'a str,
    text: &'a str,
) -> Result<(), AllocError>
    requires name { IsTrue (is_plain name.now) }
    requires text { IsTrue (is_plain text.now) }
    ensures { OnOk result (out.new.items
        ≡ out.old.items ++ first_member name.now (string text.now)) }
{
    push_text(out, "{")?;
    push_name(out, name)?;
    push_quoted(out, text)
}

/// Begins an object with a member that is a whole number.
pub(crate) fn begin_with_whole(out: &mut Vec<u8>, name: &str, number: u64) -> Result<(), AllocError>
    requires { IsTrue (is_plain name.now) }
    ensures { OnOk result (out.new.items ≡ out.old.items ++ first_member name.now (whole number)) }
{
    push_text(out, "{")?;
    push_name(out, name)?;
    push_number(out, number)
}

/// Appends a member that is a text.
pub(crate) fn push_text_member<'a>(
    out: &mut Vec<u8>,
    name: &'a str,
    text: &'a str,
) -> Result<(), AllocError>
    requires name { IsTrue (is_plain name.now) }
    requires text { IsTrue (is_plain text.now) }
    ensures { OnOk result (out.new.items
        ≡ out.old.items ++ next_member name.now (string text.now)) }
{
    push_text(out, ",")?;
    push_name(out, name)?;
    push_quoted(out, text)
}

/// Appends a member that is a whole number.
pub(crate) fn push_whole_member(
    out: &mut Vec<u8>,
    name: &str,
    number: u64,
) -> Result<(), AllocError>
    requires { IsTrue (is_plain name.now) }
    ensures { OnOk result (out.new.items ≡ out.old.items ++ next_member name.now (whole number)) }
{
    push_text(out, ",")?;
    push_name(out, name)?;
    push_number(out, number)
}

/// Ends an object.
pub(crate) fn push_end(out: &mut Vec<u8>) -> Result<(), AllocError>
    ensures { OnOk result (out.new.items ≡ out.old.items ++ 125 ∷ []) }
{
    push_text(out, "}")
}

/// Appends the name of a member with its colon.
fn push_name(out: &mut Vec<u8>, name: &str) -> Result<(), AllocError>
    requires { IsTrue (is_plain name.now) }
    ensures { OnOk result (out.new.items ≡ out.old.items ++ (quoted name.now ++ 58 ∷ [])) }
{
    push_quoted(out, name)?;
    push_text(out, ":")
}

/// Appends a text between quotation marks.
fn push_quoted(out: &mut Vec<u8>, text: &str) -> Result<(), AllocError>
    requires { IsTrue (is_plain text.now) }
    ensures { OnOk result (out.new.items ≡ out.old.items ++ quoted text.now) }
{
    push_text(out, "\"")?;
    push_text(out, text)?;
    push_text(out, "\"")
}
