//! The public calls: finding steps and checking them by running them.
ghost use Rattle.std.specs.Prelude.{◌≡◌, ◌↔◌, length, IfOk, IfSome, OnSome, IsTrue};
ghost use Rattle.inst_settings.specs.Settings.{participants};
ghost use Rattle.inst_model.specs.Interleaving.{IsInterleaving};
ghost use Rattle.inst_model.specs.Opening.{Opening};
ghost use Rattle.inst_world.specs.HasRun.{journal_of};
ghost use Rattle.inst_world.specs.NextOpening.{opening_from, CanOpenFrom, AreJournalsOf};
ghost use Rattle.inst_order.specs.Order.{ExplainsJournals};

use crate::merge::find_steps;
use inst_command::Step;
use inst_journal::Journal;
use inst_settings::Settings;
use inst_world::World;
use std::alloc::{AllocError, Global};

/// Returns `true` if each step fits these settings.
fn all_fit(settings: &Settings, steps: &[Step]) -> bool
    ensures { IsTrue result ↔ IsInterleaving settings.now steps.now }
{
    steps.iter().all(|step| step.fits(settings))
}

/// Returns steps of a hub with these settings that may leave the journals.
fn fitting_steps(
    alloc: Global,
    settings: &Settings,
    journals: &[Journal],
) -> Result<Option<Vec<Step>>, AllocError>
    ensures one_each { IfOk result (λ found.
        OnSome found (length journals.now ≡ participants settings.now)) }
    ensures fit { IfOk result (λ found.
        IfSome found (λ steps. IsInterleaving settings.now steps.items)) }
{
    if journals.len() != usize::from(settings.participants()) {
        return Ok(None);
    }
    match find_steps(alloc, journals)? {
        Some(steps) if all_fit(settings, &steps) => Ok(Some(steps)),
        _ => Ok(None),
    }
}

/// Returns `true` if both have the same events in the same order.
fn are_equal(one: &Journal, other: &Journal) -> bool
    ensures { IsTrue result ↔ (one.now.events ≡ other.now.events) }
{
    one.events() == other.events()
}

/// Returns `true` if these are the journals of the hub, by participant.
fn has_journals(world: &World, journals: &[Journal]) -> bool
    requires { length journals.now ≡ participants world.now.board.settings }
    ensures { IsTrue result ↔
        AreJournalsOf world.now.board.settings (journal_of world.now) journals.now }
{
    for who in 0..world.settings().participants() {
        if !are_equal(world.journal(who as u8), &journals[usize::from(who)]) {
            return false;
        }
    }
    true
}

/// Returns steps of a hub in one thread that leave exactly these journals after a first opening, if
/// it finds some. There must be one journal for each participant, by number.
///
/// The steps' clock readings are chosen, and aren't those of the calls that were made. `None`
/// promises nothing: journals that no hub can leave give it, such as those of participants that pay
/// each other with money that each has only from the other.
///
/// Takes time linear in the number of events, and allocates the steps and the hub that runs them.
///
/// # Errors
///
/// [`AllocError`] if the steps or the hub that runs them can't be allocated. The journals are only
/// read.
pub fn interleaving(
    alloc: Global,
    settings: &Settings,
    journals: &[Journal],
) -> Result<Option<Vec<Step>>, AllocError>
    ensures headline { IfOk result (λ found.
        IfSome found (λ steps.
        ExplainsJournals settings.now Opening.First steps.items journals.now)) }
{
    let Some(steps) = fitting_steps(alloc, settings, journals)? else {
        return Ok(None);
    };
    let (world, _) = World::run(alloc, settings, &steps)?;
    Ok(has_journals(&world, journals).then_some(steps))
}

/// Returns such steps of a hub that was opened again from the journals `opening`. Each journal of
/// `journals` begins with the participant's journal of `opening`, followed by `Opened`.
///
/// # Errors
///
/// [`AllocError`] if the steps or the hub that runs them can't be allocated. The journals are only
/// read.
pub fn interleaving_from(
    alloc: Global,
    settings: &Settings,
    opening: &[Journal],
    journals: &[Journal],
) -> Result<Option<Vec<Step>>, AllocError>
    requires opening { CanOpenFrom settings.now opening.now }
    ensures headline { IfOk result (λ found.
        IfSome found (λ steps.
        ExplainsJournals settings.now (opening_from opening.now) steps.items journals.now)) }
{
    let Some(steps) = fitting_steps(alloc, settings, journals)? else {
        return Ok(None);
    };
    let (world, _) = World::run_from(alloc, settings, opening, &steps)?;
    Ok(has_journals(&world, journals).then_some(steps))
}
