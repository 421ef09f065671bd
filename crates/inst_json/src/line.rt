//! The fields of a line, by one pass over a plain line, else from its JSON value.
ghost use Rattle.std.specs.Prelude.{◌≡◌, Ok, Err};
ghost use Rattle.serde_json.specs.Data.{Data};
ghost use Rattle.serde_json.specs.Find.{get};
ghost use Rattle.serde_json.specs.View.{view};
ghost use Rattle.inst_base.specs.declared.fault.Fault.TheVariants.{NotJson};
ghost use Rattle.inst_json.specs.declared.scanning.form.Form.TheVariants.{Plain, Broken};
ghost use Rattle.inst_json.specs.LineFields.{value_found, field_value, fields_of, fields_told};
ghost use Rattle.inst_json.specs.LineFields.{fields_in_order, no_fields};
ghost use Rattle.inst_json.specs.Lines.{json_of};

use crate::scanning::{Field, Fields, Form, scan};
use serde_json::Value;

/// Scans a line in one pass into `fields`, which mean nothing unless the line is plain.
///
/// Requires fields that are all missing.
#[inline(always)]
pub fn scan_line<'a>(line: &'a [u8], fields: &mut Fields<'a>) -> Form
    requires { fields_in_order fields.old ≡ no_fields }
    ensures plain { result ≡ Plain
        → (d : Data) × (json_of line.now ≡ Ok d) × (fields_told fields.new ≡ fields_of d) }
    ensures broken { result ≡ Broken → json_of line.now ≡ Err NotJson }
{
    scan(line, fields)
}

/// Returns member `name` of `value`; `Field::Missing` if there is none or `value` isn't an object.
fn field_at<'v>(value: &'v Value, name: &str) -> Field<'v>
    ensures { field_value result ≡ value_found (get name.now (view value.now)) }
{
    let Some(member) = value.get(name) else {
        return Field::Missing;
    };
    if let Some(text) = member.as_str() {
        return Field::Text(text);
    }
    match member.as_u64() {
        Some(whole) => Field::Whole(whole),
        None => Field::Other,
    }
}

/// Returns the fields of a JSON value that lines know.
#[inline(never)]
pub fn fields_of(value: &Value) -> Fields<'_>
    ensures { fields_told result ≡ fields_of (view value.now) }
{
    Fields {
        cmd: field_at(value, "cmd"),
        who: field_at(value, "who"),
        at: field_at(value, "at"),
        reference: field_at(value, "ref"),
        id: field_at(value, "id"),
        to: field_at(value, "to"),
        from: field_at(value, "from"),
        cents: field_at(value, "cents"),
        stamp: field_at(value, "stamp"),
        reason: field_at(value, "reason"),
        max: field_at(value, "max"),
        skip: field_at(value, "skip"),
        count: field_at(value, "count"),
        step: field_at(value, "step"),
        place: field_at(value, "place"),
        book: field_at(value, "book"),
        event: field_at(value, "event"),
        deadline: field_at(value, "deadline"),
        outcome: field_at(value, "outcome"),
    }
}
