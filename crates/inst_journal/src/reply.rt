//! The reply to a participant's command, on its journal.
ghost use Rattle.std.specs.Prelude.{◌≡◌, true, false};
ghost use Rattle.inst_base.specs.Fault.{IsUnlessMemory};
ghost use Rattle.inst_settings.specs.Lawful.{IsSettings};
ghost use Rattle.inst_command.specs.Ask.{command_fits};
ghost use Rattle.inst_journal.specs.Reply.{reply, copies};
ghost use Rattle.inst_journal.specs.Sound.{IsSound};

use crate::Journal;
use crate::handle::handle_command;
use inst_base::{Fault, Moment};
use inst_command::{Command, Outcome, Reply};
use inst_settings::Settings;
use std::alloc::Global;

/// Returns the reply to a command as [`handle_command`](crate::handle_command) gives it, and adds
/// no event.
///
/// # Errors
///
/// As for `handle_command`: the first refusal that applies, or [`Fault::Memory`].
pub fn reply_of(
    alloc: Global,
    settings: &Settings,
    who: u8,
    journal: &Journal,
    command: &Command,
    at: Moment,
    found: Option<Outcome>,
) -> Result<Reply, Fault>
    requires lawful { IsSettings settings.now }
    requires sound { IsSound settings.now who journal.now.events }
    requires fits { command_fits settings.now command.now ≡ true }
    ensures reply { IsUnlessMemory result
        (reply settings.now who journal.now.events command.now at found) }
    ensures no_memory { copies journal.now.events command.now ≡ false →
        result ≡ reply settings.now who journal.now.events command.now at found }
{
    let events = journal.events();
    Ok(handle_command(alloc, settings, who, events, command, at, found)?.reply)
}
