//! The names of commands.
ghost use Rattle.std.specs.Prelude.{◌≡◌};
ghost use Rattle.inst_json.specs.LineFields.{field_value};
ghost use Rattle.inst_json.specs.Verb.{verb_of, verb_in};

use crate::fields::text;
use crate::scanning::Field;
use inst_base::Fault;

/// A command by the name in its field `cmd`.
#[derive(Clone, Copy)]
pub(crate) enum Verb {
    Fund,
    Defund,
    Submit,
    Confirm,
    Reject,
    Investigate,
    Fetch,
    Position,
    Statement,
}

/// Returns the verb of this name; `BadField` if no command has it.
#[tactic(auto, unfolding(crate::specs::Verb::verb_of))]
fn verb_of(name: &str) -> Result<Verb, Fault>
    ensures { result ≡ verb_of name.now }
{
    match name {
        "fund" => Ok(Verb::Fund),
        "defund" => Ok(Verb::Defund),
        "submit" => Ok(Verb::Submit),
        "confirm" => Ok(Verb::Confirm),
        "reject" => Ok(Verb::Reject),
        "investigate" => Ok(Verb::Investigate),
        "fetch" => Ok(Verb::Fetch),
        "position" => Ok(Verb::Position),
        "statement" => Ok(Verb::Statement),
        _ => Err(Fault::BadField),
    }
}

/// Returns the verb in a field; `BadField` if it has none.
#[tactic(auto, unfolding(crate::specs::Verb::verb_in))]
pub(crate) fn verb_in(field: Field<'_>) -> Result<Verb, Fault>
    ensures { result ≡ verb_in (field_value field.entry) }
{
    verb_of(text(field)?)
}
