//! Commands with their asker and clock reading.
ghost use Rattle.std.specs.Prelude.{◌≡◌};
ghost use Rattle.inst_command.specs.Ask.{ask_fits};

use crate::Command;
use inst_base::Moment;
use inst_settings::Settings;

/// A participant's command, with the clock reading.
///
/// ```text
/// let ask = Ask { who: 0, command: Command::Query(Query::Position), at: Moment::new(0, 1_000)? };
/// ask.fits(&settings) // true if participant 0 exists
/// ```
#[derive(Clone, Copy, Debug, PartialEq, Eq)]
pub struct Ask {
    /// The asker's number.
    pub who: u8,
    pub command: Command,
    pub at: Moment,
}

impl Ask {
    /// Returns `true` if the ask fits a hub with these settings: the asker is a participant, and
    /// the command fits.
    pub fn fits(&self, settings: &Settings) -> bool
        ensures { result ≡ ask_fits settings.now self.now }
    {
        settings.has_participant(self.who) && self.command.fits(settings)
    }
}
