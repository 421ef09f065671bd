//! Changing the settings of a hub that opens next from the same books.
ghost use Rattle.std.specs.Prelude.{◌≡◌, ◌≤◌, None, length, IfErr, IfOk, IfSome};
ghost use Rattle.inst_settings.specs.declared.ranges.TheConstants.{MOST_PARTICIPANTS};
ghost use Rattle.inst_world.specs.HasRun.{world_settings};
ghost use Rattle.inst_world.specs.NextOpening.{AreClosedBooks};
ghost use Rattle.inst_options.specs.Changes.{changed};
ghost use Rattle.inst_program.specs.Keeping.{IsChanged, NextHub};
ghost use Rattle.inst_program.specs.inner.Changing.{Allows, AreExtended, hub_closed, hub_opening};
ghost use Rattle.inst_program.specs.inner.ExitReason.{status_of_ending};

use crate::exit_reason::ExitReason;
use inst_agenda::Runner;
use inst_base::Fault;
use inst_books::can_open;
use inst_journal::Journal;
use inst_lines::Mode;
use inst_options::{LogFault, SettingChanges, changed_settings};
use inst_settings::{MOST_PARTICIPANTS, Settings};
use inst_world::have_openings_left;
use std::alloc::{AllocError, Global};

/// A hub that was closed, with its books.
#[derive(Drop)]
pub(crate) struct Closed {
    pub(crate) mode: Mode,
    pub(crate) runner: Runner,
    pub(crate) journals: Vec<Journal>,
}

/// What a hub opens from.
#[derive(Drop)]
pub(crate) struct Opening {
    pub(crate) mode: Mode,
    pub(crate) settings: Settings,
    pub(crate) journals: Vec<Journal>,
}

/// Returns what a hub opens from after these changes of the closed one's settings. Who joins has an
/// empty history. Replays the books if anything changes.
///
/// # Errors
///
/// `LastOpening` if the books were opened from too often; `Unfit` if they don't allow the changes,
/// with the name of an option; `Memory`.
pub(crate) fn change(
    alloc: Global,
    closed: Closed,
    changes: &SettingChanges<'_>,
) -> Result<Opening, ExitReason>
    requires closed { AreClosedBooks (world_settings closed.runner.world) closed.journals.items }
    ensures changed { IfOk result (λ next.
        IsChanged changes.now (hub_closed closed) (hub_opening next)) }
    ensures unfit { IfErr result (λ ending. status_of_ending ending ≡ 2 →
        (next : NextHub) → ¬ (IsChanged changes.now (hub_closed closed) next)) }
{
    let Closed {
        mode,
        runner,
        journals,
    } = closed;
    if !have_openings_left(&journals) {
        return Err(ExitReason::Log(LogFault::LastOpening));
    }
    if changes.is_empty() {
        let settings = runner.settings().copy()?;
        return Ok(Opening {
            mode,
            settings,
            journals,
        });
    }
    let mut journals = extended(alloc, journals, runner.settings().participants())?;
    let Some(settings) = allowed(alloc, runner.settings(), changes, &journals)? else {
        let name = unfit_option(alloc, runner.settings(), changes, &journals)?;
        return Err(ExitReason::Unfit(name));
    };
    journals.truncate(usize::from(settings.participants()));
    Ok(Opening {
        mode,
        settings,
        journals,
    })
}

/// Returns the journals with empty ones behind them, for all who may join.
fn extended(
    alloc: Global,
    journals: Vec<Journal>,
    participants: u16,
) -> Result<Vec<Journal>, AllocError>
    requires one_each { length journals.items ≡ participants }
    requires most { participants ≤ MOST_PARTICIPANTS }
    ensures { IfOk result (λ all. AreExtended journals.items all.items) }
{
    let mut all = journals;
    for _number in usize::from(participants)..MOST_PARTICIPANTS {
        all.push(Journal::new(alloc))?;
    }
    Ok(all)
}

/// Returns the settings after these changes, if a hub that has them can open from the first of the
/// journals, one for each participant.
fn allowed(
    alloc: Global,
    settings: &Settings,
    changes: &SettingChanges<'_>,
    journals: &[Journal],
) -> Result<Option<Settings>, AllocError>
    requires { length journals.now ≡ MOST_PARTICIPANTS }
    ensures allows { IfOk result (λ found.
        IfSome found (Allows changes.now settings.now journals.now)) }
    ensures none { IfOk result (λ found. found ≡ None →
        ¬ (Allows changes.now settings.now journals.now (changed changes.now settings.now))) }
{
    let next = match changed_settings(alloc, settings, changes) {
        Ok(next) => next,
        Err(Fault::Memory) => return Err(AllocError),
        Err(_) => return Ok(None),
    };
    if next.base() != settings.base() {
        return Ok(None);
    }
    if !next.codes().starts_with(settings.codes()) {
        return Ok(None);
    }
    let participants = usize::from(next.participants());
    let can = can_open(alloc, &next, &journals[..participants])?;
    Ok(can.then_some(next))
}

/// Returns the name of the first option whose change alone isn't allowed; the margin's if each alone
/// is, since it must be below a limit that changes too.
fn unfit_option(
    alloc: Global,
    settings: &Settings,
    changes: &SettingChanges<'_>,
    journals: &[Journal],
) -> Result<&'static str, AllocError>
    requires { length journals.now ≡ MOST_PARTICIPANTS }
{
    let changes = changes.each_alone();
    for (name, change) in &changes {
        if allowed(alloc, settings, change, journals)?.is_none() {
            return Ok(*name);
        }
    }
    Ok("margin")
}
