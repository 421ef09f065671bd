//! Reading the parts of an event from a line's fields.
ghost use Rattle.std.specs.Prelude.{◌≡◌, true, IfOk};
ghost use Rattle.inst_settings.specs.Settings.{is_participant};
ghost use Rattle.inst_json.specs.LineFields.{field_value, fields_told};
ghost use Rattle.inst_books.specs.Reading.{identifier_in, amount_in, moment_in};
ghost use Rattle.inst_books.specs.Reading.{participant_in, outcome_in};

use inst_base::{Cents, Fault, Ident, Moment};
use inst_command::Outcome;
use inst_json::fields::{code, reason, text, whole};
use inst_json::{Field, Fields, participant};
use inst_settings::Settings;

/// Returns the identifier in a field; `BadField` or `BadIdentifier`.
#[tactic(auto, unfolding(crate::specs::Reading::identifier_in))]
pub(crate) fn identifier(field: Field<'_>) -> Result<Ident, Fault>
    ensures { result ≡ identifier_in (field_value field.entry) }
{
    Ident::new(text(field)?)
}

/// Returns the amount in a field; `BadField` or `BadAmount`.
#[tactic(auto, unfolding(crate::specs::Reading::amount_in))]
pub(crate) fn amount(field: Field<'_>) -> Result<Cents, Fault>
    ensures { result ≡ amount_in (field_value field.entry) }
{
    Cents::new(whole(field)?)
}

/// Returns the moment in a field; `BadField` or `BadMoment`.
#[tactic(auto, unfolding(crate::specs::Reading::moment_in))]
pub(crate) fn moment(settings: &Settings, field: Field<'_>) -> Result<Moment, Fault>
    ensures { result ≡ moment_in settings.now (field_value field.entry) }
{
    Moment::new(settings.base(), whole(field)?)
}

/// Returns the number of the participant whose code is in a field; `BadField` or
/// `UnknownParticipant`.
#[tactic(auto, unfolding(crate::specs::Reading::participant_in))]
pub(crate) fn participant_at(settings: &Settings, field: Field<'_>) -> Result<u8, Fault>
    ensures value { result ≡ participant_in settings.now (field_value field.entry) }
    ensures fits { IfOk result (λ number. is_participant settings.now number ≡ true) }
{
    participant(settings, &code(field)?)
}

/// Returns the outcome of a transfer; `BadField`.
#[tactic(auto, unfolding(crate::specs::Reading::outcome_in))]
pub(crate) fn outcome(line: &Fields<'_>) -> Result<Outcome, Fault>
    ensures { result ≡ outcome_in (fields_told line.now) }
{
    match text(line.outcome)? {
        "accepted" => Ok(Outcome::Accepted),
        "timed_out" => Ok(Outcome::TimedOut),
        "rejected" => Ok(Outcome::Rejected(reason(line.reason)?)),
        _ => Err(Fault::BadField),
    }
}
