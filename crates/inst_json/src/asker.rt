//! The asker and clock reading that every command line has.
ghost use Rattle.std.specs.Prelude.{◌≡◌, true, IfOk};
ghost use Rattle.inst_settings.specs.Settings.{is_participant};
ghost use Rattle.inst_json.specs.LineFields.{fields_told};
ghost use Rattle.inst_json.specs.Asker.{asker_of, known_of, asking};

use crate::checks::{moment, participant};
use crate::fields::{code, whole};
use crate::refusal::in_field;
use crate::scanning::Fields;
use crate::{Name, Refusal};
use inst_base::{Code, Moment};
use inst_command::{Ask, Command};
use inst_settings::Settings;

/// A line's asker and clock reading, in absolute milliseconds, before they are checked.
#[derive(Clone, Copy)]
pub(crate) struct Asker {
    pub who: Code,
    pub at: u64,
}

/// The participant who asks, and the moment.
#[derive(Clone, Copy)]
pub(crate) struct KnownAsker {
    pub who: u8,
    pub at: Moment,
}

/// Returns the asker of a line, or `BadField`.
#[tactic(auto, unfolding(crate::specs::Asker::asker_of))]
pub(crate) fn asker_of(line: &Fields<'_>) -> Result<Asker, Refusal>
    ensures { result ≡ asker_of (fields_told line.now) }
{
    Ok(Asker {
        who: in_field(Name::Who, code(line.who))?,
        at: in_field(Name::At, whole(line.at))?,
    })
}

impl Asker {
    /// Returns the asker as a participant; `BadMoment` for a reading outside the hub's moments,
    /// then `UnknownParticipant`.
    #[tactic(auto, unfolding(crate::specs::Asker::known_of))]
    pub(crate) fn known(&self, settings: &Settings) -> Result<KnownAsker, Refusal>
        ensures value { result ≡ known_of settings.now self.now }
        ensures fits { IfOk result (λ asker. is_participant settings.now asker.who ≡ true) }
    {
        let at = in_field(Name::At, moment(settings, self.at))?;
        let who = in_field(Name::Who, participant(settings, &self.who))?;
        Ok(KnownAsker { who, at })
    }
}

impl KnownAsker {
    /// Returns the ask of this command.
    pub(crate) fn asks(self, command: Command) -> Ask
        ensures { result ≡ asking self command }
    {
        Ask {
            who: self.who,
            command,
            at: self.at,
        }
    }
}
