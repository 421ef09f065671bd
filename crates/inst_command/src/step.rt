//! Steps of a hub.
ghost use Rattle.std.specs.Prelude.{◌≡◌};
ghost use Rattle.inst_command.specs.Step.{step_fits};

use crate::Ask;
use inst_base::Moment;
use inst_settings::Settings;

/// A step of a hub. An `index` is that of a place: the number of a transfer among its originator's
/// live transfers, from 0.
#[derive(Clone, Copy, Debug, PartialEq, Eq)]
pub enum Step {
    /// A participant's command.
    Ask(Ask),
    /// Forwards the transfer at this index of the originator `from` to `to`.
    Deliver { from: u8, index: u16, to: u8 },
    /// `who` books the decided outcome of that transfer.
    Learn { who: u8, from: u8, index: u16 },
    /// The originator `who` books the decided outcome of its transfer, or times it out if it is
    /// due.
    Expire { who: u8, index: u16, at: Moment },
}

impl Step {
    /// Returns `true` if the step fits a hub with these settings: its ask fits, and its
    /// participants exist. Any index and any clock reading fit.
    pub fn fits(&self, settings: &Settings) -> bool
        ensures { result ≡ step_fits settings.now self.now }
    {
        match self {
            Step::Ask(ask) => ask.fits(settings),
            Step::Deliver { from, to, .. } => {
                settings.has_participant(*from) && settings.has_participant(*to)
            },
            Step::Learn { who, from, .. } => {
                settings.has_participant(*who) && settings.has_participant(*from)
            },
            Step::Expire { who, .. } => settings.has_participant(*who),
        }
    }
}
