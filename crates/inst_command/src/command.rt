//! The commands of participants.
ghost use Rattle.std.specs.Prelude.{◌≡◌};
ghost use Rattle.inst_command.specs.Ask.{command_fits};

use crate::{Funding, Query, Submission, is_count};
use inst_base::{Ident, Reason};
use inst_settings::Settings;

/// A command of a participant. Participants are given by their numbers.
#[derive(Clone, Copy, Debug, PartialEq, Eq)]
pub enum Command {
    /// Raises the asker's net funding.
    Fund(Funding),
    /// Lowers the asker's net funding.
    Defund(Funding),
    /// Submits a transfer to a beneficiary, with the originator's time stamp (pacs.008).
    Submit(Submission),
    /// Confirms a transfer of the originator `from` that was forwarded to the asker (pacs.002
    /// ACCP).
    Confirm { from: u8, id: Ident },
    /// Rejects a transfer of the originator `from` that was forwarded to the asker (pacs.002 RJCT).
    Reject { from: u8, id: Ident, reason: Reason },
    /// Asks for the state of one of the asker's own transfers, which times out if it is due
    /// (pacs.028).
    Investigate { id: Ident },
    /// Fetches the next unread forwarded transfers, at most `max`, 1 to 100.
    Fetch { max: u32 },
    /// Asks for the asker's position or statement.
    Query(Query),
}

impl Command {
    /// Returns `true` if the command fits a hub with these settings: its participant exists, its
    /// amount is 1 cent to the ceiling, its deadline is a moment, and its `max` or `count` is 1 to
    /// 100.
    pub fn fits(&self, settings: &Settings) -> bool
        ensures { result ≡ command_fits settings.now self.now }
    {
        match self {
            Command::Fund(funding) | Command::Defund(funding) => {
                settings.allows(funding.cents.get())
            }
            Command::Submit(submission) => {
                settings.has_participant(submission.to)
                    && settings.allows(submission.cents.get())
                    && submission.stamp.has_deadline(settings.limit())
            }
            Command::Confirm { from, .. } | Command::Reject { from, .. } => {
                settings.has_participant(*from)
            }
            Command::Fetch { max } => is_count(*max),
            Command::Query(query) => query.fits(),
            Command::Investigate { .. } => true,
        }
    }
}
