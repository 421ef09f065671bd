//! Refusals of lines.
ghost use Rattle.std.specs.Prelude.{◌≡◌, None};
ghost use Rattle.inst_json.specs.Refusals.{in_field};

use crate::Name;
use inst_base::Fault;

/// The refusal of a line: the fault of its reply, and the field that is refused.
///
/// The field is `None` if the line as a whole is refused: it isn't JSON, it is too long, or reading
/// it failed to allocate.
#[derive(Clone, Copy, Debug, PartialEq, Eq)]
pub struct Refusal {
    pub fault: Fault,
    pub field: Option<Name>,
}

impl From<Fault> for Refusal {
    ghost from_gives = { λ fault refusal. refusal ≡ record { fault = fault; field = None } };

    fn from(fault: Fault) -> Refusal {
        Refusal { fault, field: None }
    }
}

/// Names the field in the refusal of what was read from it.
#[inline(always)]
pub(crate) fn in_field<T>(name: Name, read: Result<T, Fault>) -> Result<T, Refusal>
    ensures { result ≡ in_field name read }
{
    match read {
        Ok(value) => Ok(value),
        Err(fault) => Err(Refusal {
            fault,
            field: Some(name),
        }),
    }
}
