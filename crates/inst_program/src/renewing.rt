//! Beginning a new chain of logs with the positions of a closed hub.
ghost use Rattle.std.specs.Prelude.{◌≡◌, IfOk};
ghost use Rattle.inst_world.specs.HasRun.{world_settings};
ghost use Rattle.inst_world.specs.NextOpening.{AreClosedBooks};
ghost use Rattle.inst_program.specs.Keeping.{AreRenewed, IsRenewed};
ghost use Rattle.inst_program.specs.inner.Changing.{hub_closed, hub_opening};

use crate::changing::{Closed, Opening};
use crate::exit_reason::ExitReason;
use inst_base::Fault;
use inst_books::{CarryFault, base_after, carry_positions, first_pending};
use inst_journal::Journal;
use inst_options::{SettingChanges, changed_settings};
use inst_settings::Settings;
use std::alloc::{AllocError, Global};
use std::io::Write;

/// The reference of a funding that carries a position begins with this name; its number follows.
const NAME: &str = "CARRY";

/// Returns what a hub of a new chain opens from, after these changes of the closed one's settings:
/// the positions, as fundings. If a transfer is pending, prints it on `errors`.
///
/// # Errors
///
/// `PendingTransfer`; `Unfit` if the books don't allow the changes, with the name of an option;
/// `Memory`.
pub(crate) fn renew<E: Write>(
    alloc: Global,
    closed: Closed,
    changes: &SettingChanges<'_>,
    errors: &mut E,
) -> Result<Opening, ExitReason>
    requires closed { AreClosedBooks (world_settings closed.runner.world) closed.journals.items }
    ensures { IfOk result (λ next.
        IsRenewed changes.now (hub_closed closed) (hub_opening next)) }
{
    let Closed {
        mode,
        runner,
        journals,
    } = closed;
    let old = runner.settings();
    let settings = renewed_settings(alloc, old, changes, &journals)?;
    match carry_positions(alloc, old, &journals, &settings, NAME) {
        Ok(journals) => Ok(Opening {
            mode,
            settings,
            journals,
        }),
        Err(fault) => Err(uncarried(alloc, old, &journals, fault, errors)?),
    }
}

/// Returns the settings of the new chain.
fn renewed_settings(
    alloc: Global,
    settings: &Settings,
    changes: &SettingChanges<'_>,
    journals: &[Journal],
) -> Result<Settings, ExitReason>
    ensures { IfOk result (λ next. AreRenewed changes.now settings.now journals.now next) }
{
    let least = base_after(settings.base(), journals);
    let base = changes.base.unwrap_or(least);
    if base < least {
        return Err(ExitReason::Unfit("base"));
    }
    let changes = SettingChanges {
        base: Some(base),
        ..*changes
    };
    match changed_settings(alloc, settings, &changes) {
        Ok(next) => Ok(next),
        Err(Fault::Memory) => Err(ExitReason::Fault(Fault::Memory)),
        Err(_) => Err(ExitReason::Unfit(unlawful_option(alloc, settings, &changes))),
    }
}

/// Returns the name of the first option whose change alone makes settings that no hub can have; the
/// margin's if each alone makes others.
fn unlawful_option(
    alloc: Global,
    settings: &Settings,
    changes: &SettingChanges<'_>,
) -> &'static str {
    let changes = changes.each_alone();
    for (name, change) in &changes {
        if changed_settings(alloc, settings, change).is_err() {
            return *name;
        }
    }
    "margin"
}

/// Returns why these books aren't carried. If a transfer is pending, prints it on `errors`.
fn uncarried<E: Write>(
    alloc: Global,
    settings: &Settings,
    journals: &[Journal],
    fault: CarryFault,
    errors: &mut E,
) -> Result<ExitReason, AllocError> {
    match fault {
        CarryFault::Pending(who) => {
            tell_pending(alloc, settings, who, journals, errors)?;
            Ok(ExitReason::PendingTransfer)
        }
        CarryFault::Leaver => Ok(ExitReason::Unfit("participants")),
        CarryFault::TooLarge => Ok(ExitReason::Unfit("fundings")),
        CarryFault::Memory => Ok(ExitReason::Fault(Fault::Memory)),
    }
}

/// Prints the first pending transfer of this originator.
fn tell_pending<E: Write>(
    alloc: Global,
    settings: &Settings,
    who: u8,
    journals: &[Journal],
    errors: &mut E,
) -> Result<(), AllocError> {
    let (Some(journal), Some(code)) = (journals.get(usize::from(who)), settings.code(who)) else {
        return Ok(());
    };
    if let Some(transfer) = first_pending(alloc, settings, who, journal)? {
        let _ = writeln!(
            errors,
            "the transfer '{}' of {} is pending; its deadline is {}",
            transfer.id.text(),
            code.text(),
            transfer.deadline
        );
    }
    Ok(())
}
