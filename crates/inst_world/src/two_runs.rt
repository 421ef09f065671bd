//! Two runs, compared for one participant.
ghost use Rattle.std.specs.Prelude.{◌≡◌, true, IfOk};
ghost use Rattle.inst_settings.specs.Settings.{is_participant};
ghost use Rattle.inst_model.specs.Interleaving.{IsInterleaving};
ghost use Rattle.inst_model.specs.Opening.{Opening};
ghost use Rattle.inst_world.specs.HasRun.{journal_of};
ghost use Rattle.inst_world.specs.Headline.{run_of, KeepsTheHeadline, SeesTheSame, GotTheSame};

use crate::trace::Trace;
use crate::world::World;
use inst_command::Step;
use inst_settings::Settings;
use std::alloc::{AllocError, Global};

/// Runs two lists of steps, each on a new hub, and returns both hubs with their answers.
/// Participant `who` gets the same replies, history, position and statement from both, whatever the
/// other participants do.
///
/// Requires steps that fit the settings, and that `who` sees the same in both lists: the same
/// commands at the same clock readings, the same deliveries and the same outcomes.
///
/// ```text
/// let (quiet, busy) = run_both(alloc, &settings, 1, &alone, &among_others)?;
/// // participant 1 has the same replies, position and statement in both
/// ```
///
/// # Errors
///
/// [`AllocError`] if an allocation fails; both hubs are dropped.
pub fn run_both(
    alloc: Global,
    settings: &Settings,
    who: u8,
    one: &[Step],
    other: &[Step],
) -> Result<((World, Trace), (World, Trace)), AllocError>
    requires one { IsInterleaving settings.now one.now }
    requires other { IsInterleaving settings.now other.now }
    requires participant { is_participant settings.now who ≡ true }
    requires same { SeesTheSame settings.now who Opening.First Opening.First one.now other.now }
    ensures one { IfOk result (λ r.
        KeepsTheHeadline settings.now
        (run_of Opening.First one.now (journal_of r.0.0) r.0.1.answers)) }
    ensures other { IfOk result (λ r.
        KeepsTheHeadline settings.now
        (run_of Opening.First other.now (journal_of r.1.0) r.1.1.answers)) }
    ensures isolation { IfOk result (λ r.
        GotTheSame who (run_of Opening.First one.now (journal_of r.0.0) r.0.1.answers)
        (run_of Opening.First other.now (journal_of r.1.0) r.1.1.answers)) }
{
    let first = World::run(alloc, settings, one)?;
    let second = World::run(alloc, settings, other)?;
    Ok((first, second))
}
