//! One participant's books, and the books of all participants.
ghost use Rattle.std.specs.Prelude.{◌≡◌, true};
ghost use Rattle.inst_command.specs.Ask.{command_fits};
ghost use Rattle.inst_settings.specs.Settings.{is_participant};

use inst_base::{Cents, Fault, Ident, Moment};
use inst_books::{BookFault, append_books, can_open, read_books};
use inst_command::{Command, Line, Reply, Step};
use inst_journal::{Handled, Journal, reply_of};
use inst_ledger::Ledger;
use inst_order::interleaving;
use inst_settings::Settings;
use inst_statement::statement;
use inst_transfers::{Found, Transfers};
use inst_world::World;
use std::alloc::Global;

/// Returns what is available to a participant, and the reply to a command, from its history alone.
pub fn journal(
    alloc: Global,
    world: &World,
    who: u8,
    command: &Command,
    at: Moment,
) -> Result<(u128, Reply), Fault>
    requires participant { is_participant world.now.board.settings who ≡ true }
    requires fits { command_fits world.now.board.settings command.now ≡ true }
{
    let settings = world.settings();
    let journal = world.journal(who); // the stored events, a sound history
    let available = journal.available();
    let reply = reply_of(alloc, settings, who, journal, command, at, None)?;
    Ok((available, reply))
}

/// Returns the first ten lines of a participant's statement.
pub fn statement_of(alloc: Global, world: &World, who: u8) -> Result<Vec<Line>, Fault>
    requires participant { is_participant world.now.board.settings who ≡ true }
{
    let journal = world.journal(who);
    let lines = statement(alloc, journal, 0, 10)?; // lines 1 to 10, if there are so many
    Ok(lines)
}

/// Adds a submitted transfer to a table and finds it.
pub fn transfers(alloc: Global, stamp: Moment) -> Result<Option<Found>, Fault> {
    let id = Ident::new("T1")?;
    let mut table = Transfers::new(alloc, 0, 1_024); // of participant 0; 1,024 transfers expected
    table.reserve()?; // capacity for at least one more
    table.take(id, 1, Cents::new(20_000)?, stamp);
    Ok(table.find(0, &id)) // its side, amount and outcome, and its row in the table
}

/// Lets a ledger answer a command and stores the event.
pub fn ledger(
    alloc: Global,
    ledger: &mut Ledger,
    command: &Command,
    at: Moment,
) -> Result<Reply, Fault> {
    if !command.fits(ledger.settings()) {
        return Err(Fault::BadField);
    }
    let Handled { reply, kept } = ledger.handle(alloc, command, at, None)?; // or a refusal
    if let Some(event) = kept {
        ledger.keep(event)?;
    }
    Ok(reply)
}

/// Reads books and returns their text.
pub fn books(alloc: Global, settings: &Settings, text: &[u8]) -> Result<Vec<u8>, BookFault> {
    let journals = read_books(alloc, settings, text)?; // or `BadLine`
    let mut lines = Vec::new(alloc);
    append_books(settings, &journals, &mut lines)?; // one line for each event
    Ok(lines)
}

/// Opens a hub from journals, if one can open from them.
pub fn audit(alloc: Global, settings: &Settings, journals: &[Journal]) -> Result<World, Fault> {
    if !can_open(alloc, settings, journals)? {
        return Err(Fault::BadSettings);
    }
    Ok(World::open_from(alloc, settings, journals)?)
}

/// Returns steps that explain the journals, if some are found.
pub fn explained(
    alloc: Global,
    settings: &Settings,
    journals: &[Journal],
) -> Result<Vec<Step>, Fault> {
    match interleaving(alloc, settings, journals)? {
        Some(steps) => Ok(steps), // a `World` that runs them has exactly these journals
        None => Err(Fault::BadSettings),
    }
}
