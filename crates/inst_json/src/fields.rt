//! Reading the value of one field.
ghost use Rattle.std.specs.Prelude.{◌≡◌, true, IfOk};
ghost use Rattle.inst_command.specs.Ask.{is_count};
ghost use Rattle.inst_json.specs.LineFields.{field_value};
ghost use Rattle.inst_json.specs.Refusals.{GivesValue};
ghost use Rattle.inst_json.specs.Fields.{text_in, whole_in, code_in, reason_in, count_in, place_in};
ghost use Rattle.inst_json.specs.Fields.{is_there};

use crate::scanning::Field;
use inst_base::{Code, Fault, Reason};
use inst_command::is_count;
use inst_settings::MOST_PLACES;

/// Returns the text in a field.
///
/// # Errors
///
/// [`Fault::BadField`] if the field is missing or isn't a text.
#[inline(always)]
pub fn text(field: Field<'_>) -> Result<&str, Fault>
    ensures { GivesValue (λ text. text.now) result (text_in (field_value field.entry)) }
{
    match field {
        Field::Text(text) => Ok(text),
        Field::Missing | Field::Whole(_) | Field::Other => Err(Fault::BadField),
    }
}

/// Returns the whole number in a field.
///
/// # Errors
///
/// [`Fault::BadField`] if the field is missing or isn't a whole number from 0 to 2^64 - 1.
#[inline(always)]
pub fn whole(field: Field<'_>) -> Result<u64, Fault>
    ensures { result ≡ whole_in (field_value field.entry) }
{
    match field {
        Field::Whole(whole) => Ok(whole),
        Field::Missing | Field::Text(_) | Field::Other => Err(Fault::BadField),
    }
}

/// Returns `true` if the field is present.
#[inline(always)]
pub(crate) fn is_there(field: Field<'_>) -> bool
    ensures { result ≡ is_there (field_value field.entry) }
{
    match field {
        Field::Missing => false,
        Field::Text(_) | Field::Whole(_) | Field::Other => true,
    }
}

/// Returns the participant's code in a field.
///
/// # Errors
///
/// [`Fault::BadField`] if the field is missing or isn't 8 or 11 characters of `A-Z 0-9`.
#[tactic(auto, unfolding(crate::specs::Fields::code_in))]
pub fn code(field: Field<'_>) -> Result<Code, Fault>
    ensures { result ≡ code_in (field_value field.entry) }
{
    Code::new(text(field)?)
}

/// Returns the reason in a field.
///
/// # Errors
///
/// [`Fault::BadField`] if the field is missing or isn't four characters of `A-Z 0-9`.
#[tactic(auto, unfolding(crate::specs::Fields::reason_in))]
pub fn reason(field: Field<'_>) -> Result<Reason, Fault>
    ensures { result ≡ reason_in (field_value field.entry) }
{
    Reason::new(text(field)?)
}

/// Returns the number of entries or lines that a field asks for.
///
/// # Errors
///
/// [`Fault::BadField`] if the field is missing or isn't a whole number from 1 to 100.
#[tactic(auto, unfolding(crate::specs::Fields::count_in))]
pub fn count(field: Field<'_>) -> Result<u32, Fault>
    ensures value { result ≡ count_in (field_value field.entry) }
    ensures fits { IfOk result (λ count. is_count count ≡ true) }
{
    match u32::try_from(whole(field)?) {
        Ok(count) if is_count(count) => Ok(count),
        _ => Err(Fault::BadField),
    }
}

/// Returns the place in a field; `BadField` if it isn't 0 to 1,023.
#[tactic(auto, unfolding(crate::specs::Fields::place_in))]
pub(crate) fn place(field: Field<'_>) -> Result<u16, Fault>
    ensures { result ≡ place_in (field_value field.entry) }
{
    match u16::try_from(whole(field)?) {
        Ok(place) if place < MOST_PLACES => Ok(place),
        _ => Err(Fault::BadField),
    }
}
