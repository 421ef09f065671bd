//! Scanning a whole line.
ghost use Rattle.std.specs.Prelude.{◌≡◌, Some, None};
ghost use Rattle.std.specs.Str.{IsAscii};
ghost use Rattle.serde_json.specs.Data.{Data};
ghost use Rattle.serde_json.specs.Read.{read};
ghost use Rattle.inst_json.specs.declared.scanning.form.Form.TheVariants.{Plain, Broken};
ghost use Rattle.inst_json.specs.LineFields.{fields_of, fields_told, fields_in_order, no_fields};

use crate::scanning::broken::{lacks_key, lacks_value};
use crate::scanning::fields::Fields;
use crate::scanning::form::Form;
use crate::scanning::member::{key, scalar};
use crate::scanning::parts::skip_space;

/// Reads the fields of a line into `found` in one pass. Allocates nothing.
///
/// Returns `Plain` only for a flat JSON object (RFC 8259) of ASCII texts without escapes and of
/// whole numbers of at most 19 digits; its keys may be in any order, and if one is given twice the
/// last one counts. Most such lines are `Plain`. Returns `Broken` only for lines that aren't JSON.
/// The result may be `Other` for any line, JSON or not: read it as a JSON value.
///
/// Requires `found` without fields, as from `Fields::new`.
// Kept out of line: inlined, all fields would be copied once more for each line.
#[inline(never)]
pub fn scan<'a>(text: &'a [u8], found: &mut Fields<'a>) -> Form
    requires { fields_in_order found.old ≡ no_fields }
    ensures value { result ≡ Plain →
        (d : Data) × (read text.now ≡ Some d) × (fields_told found.new ≡ fields_of d) }
    ensures ascii { result ≡ Plain → IsAscii text.now }
    ensures broken { result ≡ Broken → read text.now ≡ None }
{
    let open = skip_space(text, 0);
    if open >= text.len() || text[open] != b'{' {
        return if lacks_value(text, open) {
            Form::Broken
        } else {
            Form::Other
        };
    }
    let mut at = open + 1;
    while at < text.len() {
        let Some((name, value)) = key(text, at) else {
            return if lacks_key(text, at) {
                Form::Broken
            } else {
                Form::Other
            };
        };
        let Some((field, end)) = scalar(text, value) else {
            return if lacks_value(text, value) {
                Form::Broken
            } else {
                Form::Other
            };
        };
        found.put(name, field);
        let stop = skip_space(text, end);
        if stop >= text.len() {
            return Form::Broken;
        }
        if text[stop] == b',' {
            at = stop + 1;
        } else if text[stop] == b'}' {
            return if skip_space(text, stop + 1) == text.len() {
                Form::Plain
            } else {
                Form::Broken
            };
        } else {
            return if text[stop] == b':' {
                Form::Other
            } else {
                Form::Broken
            };
        }
    }
    Form::Broken
}
