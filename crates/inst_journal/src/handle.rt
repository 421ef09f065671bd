//! The reply to a command, and the event that it adds to the history.
ghost use Rattle.std.specs.Prelude.{◌≡◌, true, false};
ghost use Rattle.inst_base.specs.Fault.{IsUnlessMemory};
ghost use Rattle.inst_settings.specs.Lawful.{IsSettings};
ghost use Rattle.inst_command.specs.Ask.{command_fits};
ghost use Rattle.inst_journal.specs.Reply.{handle, history_after, copies};
ghost use Rattle.inst_journal.specs.Sound.{IsSound};

use crate::Event;
use crate::fundings::{defund, fund};
use crate::queries::{fetch, position};
use crate::statement::statement;
use crate::transfers::{confirm, investigate, reject, submit};
use inst_base::{Fault, Moment};
use inst_command::{Command, Outcome, Query, Reply};
use inst_settings::Settings;
use std::alloc::Global;

/// A reply, and the event that its command adds to the history, if any.
#[derive(Drop)]
pub struct Handled {
    pub reply: Reply,
    pub kept: Option<Event>,
}

/// Handles a command of the participant `who`, read at `at`, on its events. `found` is the outcome
/// that the command's transfer is found to have.
///
/// Cost: visits all events, some of them more than once; a statement, once for each event since the
/// last opening.
///
/// # Errors
///
/// The first refusal of `SelfTransfer` to `Shortage` that applies, or [`Fault::Memory`] if an
/// allocation fails. Only a statement, and a fetch with something unread, allocate.
#[tactic(auto, using(crate::proofs::KeptEventsFit::history_after_sound))]
pub fn handle_command(
    alloc: Global,
    settings: &Settings,
    who: u8,
    events: &[Event],
    command: &Command,
    at: Moment,
    found: Option<Outcome>,
) -> Result<Handled, Fault>
    requires lawful { IsSettings settings.now }
    requires sound { IsSound settings.now who events.now }
    requires fits { command_fits settings.now command.now ≡ true }
    ensures reply { IsUnlessMemory result
        (handle settings.now who events.now command.now at found) }
    ensures no_memory { copies events.now command.now ≡ false →
        result ≡ handle settings.now who events.now command.now at found }

    // With the new event the history is sound again.
    ensures sound { IsSound settings.now who
        (history_after settings.now who events.now command.now at found) }
{
    match command {
        Command::Fund(funding) => fund(settings, events, funding),
        Command::Defund(funding) => defund(settings, events, funding),
        Command::Submit(submission) => submit(settings, who, events, at, submission),
        Command::Confirm { from, id } => confirm(events, *from, *id, found),
        Command::Reject { from, id, .. } => reject(events, *from, *id, found),
        Command::Investigate { id } => investigate(who, events, *id, found),
        Command::Fetch { max } => fetch(alloc, settings, who, events, *max),
        Command::Query(Query::Position) => Ok(Handled {
            reply: position(settings, who, events),
            kept: None,
        }),
        Command::Query(Query::Statement { skip, count }) => {
            statement(alloc, settings, who, events, *skip, *count)
        }
    }
}
