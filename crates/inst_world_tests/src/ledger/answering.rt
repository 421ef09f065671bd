//! Answers the rows by the ledger and by the plain functions on its events, and each statement also
//! by a pass over the events.
ghost use Rattle.std.specs.Prelude.{◌≡◌, true};
ghost use Rattle.inst_command.specs.Ask.{command_fits};
ghost use Rattle.inst_journal.specs.Sound.{Fits};

use crate::comparing::same_at;
use crate::ledger::asked::{ShortAsk, command, outcome};
use crate::ledger::told::{ExpectedReply, is_refused, is_reply};
use inst_base::{Fault, Moment};
use inst_command::{Ask, Command, Outcome, Query};
use inst_fixtures::{End, Shown, are_lines};
use inst_journal::{Event, Handled, handle_command, reply_of};
use inst_ledger::{Ledger, Sending};
use inst_statement::statement;
use std::alloc::Global;
use std::process::Abort;

/// The command, the clock reading, how its transfer ended, and the expected reply.
pub(crate) type Row = (ShortAsk, u64, Option<End>, ExpectedReply);

/// Returns `true` if the plain function that only answers gives this reply.
fn is_answered(
    alloc: Global,
    ledger: &Ledger,
    ask: &Ask,
    found: &Option<Outcome>,
    told: &ExpectedReply,
) -> bool
    requires { command_fits ledger.now.book.settings ask.now.command ≡ true }
{
    let (settings, who) = (ledger.settings(), ledger.who());
    let journal = ledger.journal();
    match reply_of(alloc, settings, who, journal, &ask.command, ask.at, *found) {
        Ok(reply) => is_reply(&reply, told),
        Err(fault) => is_refused(fault, told),
    }
}

/// Returns `true` if the plain function that handles a command gives this reply and this event to
/// store.
fn is_handled(
    alloc: Global,
    ledger: &Ledger,
    ask: &Ask,
    found: &Option<Outcome>,
    told: &ExpectedReply,
    wanted: &Option<Event>,
) -> bool
    requires { command_fits ledger.now.book.settings ask.now.command ≡ true }
{
    let (settings, who) = (ledger.settings(), ledger.who());
    let events = ledger.journal().events();
    match handle_command(alloc, settings, who, events, &ask.command, ask.at, *found) {
        Ok(handled) => is_reply(&handled.reply, told) && handled.kept == *wanted,
        Err(fault) => is_refused(fault, told),
    }
}

/// Compares the replies of the plain functions, and the event to store.
fn plainly(
    rt: &(impl Abort + AllocGlobal),
    ledger: &Ledger,
    ask: &Ask,
    found: &Option<Outcome>,
    told: &ExpectedReply,
    wanted: &Option<Event>,
)
    requires { command_fits ledger.now.book.settings ask.now.command ≡ true }
{
    let is_answered = is_answered(rt.alloc(), ledger, ask, found, told);
    same_at(rt, *ask, is_answered, true);
    let is_handled = is_handled(rt.alloc(), ledger, ask, found, told, wanted);
    same_at(rt, *ask, is_handled, true);
}

/// Compares the statement lines that a pass over the events gives.
pub(crate) fn walks(
    rt: &(impl Abort + AllocGlobal),
    ledger: &Ledger,
    skip: u64,
    count: u32,
    wanted: &[Shown],
) -> Result<(), Fault> {
    let _ = ledger.settings();
    let lines = statement(rt.alloc(), ledger.journal(), skip, count)?;
    let lines = lines.as_slice();
    same_at(rt, lines, are_lines(lines, wanted), true);
    Ok(())
}

/// Does so if the command is that of a statement.
fn by_a_walk(
    rt: &(impl Abort + AllocGlobal),
    ledger: &Ledger,
    asks: &ShortAsk,
    told: &ExpectedReply,
) -> Result<(), Fault> {
    match (asks, told) {
        (ShortAsk::Statement(skip, count), ExpectedReply::Lines(wanted)) => {
            walks(rt, ledger, *skip, *count, wanted)
        }
        _ => Ok(()),
    }
}

/// Stores the event; a submission with reserved capacity.
fn keep(ledger: &mut Ledger, event: Event) -> Result<(), Fault>
    requires { Fits ledger.old.book.settings ledger.old.book.who ledger.old.book.events event }
{
    if let Event::Taken {
        id,
        to,
        cents,
        stamp,
    } = event
    {
        ledger.make_room_for_transfer()?;
        ledger.keep_taken(id, Sending { to, cents, stamp });
    } else {
        ledger.keep(event)?;
    }
    Ok(())
}

/// Returns `true` if `is_new_submission` agrees with `handle`.
fn is_new(ledger: &Ledger, ask: &Ask, handled: &Result<Handled, Fault>) -> bool
    requires { command_fits ledger.now.book.settings ask.now.command ≡ true }
{
    let Command::Submit(submission) = &ask.command else {
        return true;
    };
    let deadline = submission.stamp.deadline(ledger.settings().limit());
    match (
        ledger.is_new_submission(ask.at, submission, deadline),
        handled,
    ) {
        (Ok(is_new), Ok(handled)) => is_new == handled.kept.is_some(),
        (Err(fault), Err(told)) => fault == *told,
        _ => false,
    }
}

/// Returns `true` if the ledger's sums agree with the reply.
fn is_position(ledger: &Ledger, ask: &Ask, told: &ExpectedReply) -> bool {
    match &ask.command {
        Command::Query(Query::Position) => is_reply(&ledger.position_reply(), told),
        _ => true,
    }
}

/// Compares the replies of the ledger and of the plain functions, and stores the event.
fn by_the_ledger(
    rt: &(impl Abort + AllocGlobal),
    ledger: &mut Ledger,
    ask: &Ask,
    found: &Option<Outcome>,
    told: &ExpectedReply,
) -> Result<(), Fault>
    requires { command_fits ledger.old.book.settings ask.now.command ≡ true }
{
    let handled = ledger.handle(rt.alloc(), &ask.command, ask.at, *found);
    same_at(rt, *ask, is_new(ledger, ask, &handled), true);
    same_at(rt, *ask, is_position(ledger, ask, told), true);
    match handled {
        Ok(Handled { reply, kept }) => {
            same_at(rt, *ask, is_reply(&reply, told), true);
            plainly(rt, ledger, ask, found, told, &kept);
            if let Some(event) = kept {
                keep(ledger, event)?;
            }
        }
        Err(fault) => {
            same_at(rt, *ask, is_refused(fault, told), true);
            plainly(rt, ledger, ask, found, told, &None);
        }
    }
    Ok(())
}

/// Returns the ask of the participant `who` at this clock reading.
fn ask(who: u8, asks: &ShortAsk, at: u64) -> Result<Ask, Fault> {
    Ok(Ask {
        who,
        command: command(asks)?,
        at: Moment::new(0, at)?,
    })
}

/// Returns the outcome, if the transfer ended.
fn found(end: &Option<End>) -> Result<Option<Outcome>, Fault> {
    match end {
        None => Ok(None),
        Some(end) => Ok(Some(outcome(end)?)),
    }
}

fn answer(rt: &(impl Abort + AllocGlobal), ledger: &mut Ledger, row: &Row) -> Result<(), Fault> {
    let (asks, at, end, told) = row;
    let found = found(end)?;
    let ask = ask(ledger.who(), asks, *at)?;
    assert!(rt; ask.fits(ledger.settings()));
    by_a_walk(rt, ledger, asks, told)?;
    by_the_ledger(rt, ledger, &ask, &found, told)
}

/// Checks the rows in order.
pub(crate) fn answers(
    rt: &(impl Abort + AllocGlobal),
    ledger: &mut Ledger,
    rows: &[Row],
) -> Result<(), Fault> {
    for row in rows {
        answer(rt, ledger, row)?;
    }
    Ok(())
}
