//! Closes a hub in one thread, so that another can open from its journals.
ghost use Rattle.std.specs.Prelude.{IfOk};
ghost use Rattle.inst_model.specs.Interleaving.{IsInterleaving};
ghost use Rattle.inst_world.specs.NextOpening.{CanOpenFrom};

use inst_base::Fault;
use inst_command::Step;
use inst_journal::Journal;
use inst_settings::Settings;
use inst_world::World;
use std::alloc::Global;

/// Runs these steps, closes the hub and returns its journals.
///
/// # Errors
///
/// [`Fault::Memory`] if an allocation fails, [`Fault::BadSettings`] if no hub can open from the
/// journals.
pub fn books(alloc: Global, settings: &Settings, steps: &[Step]) -> Result<Vec<Journal>, Fault>
    requires { IsInterleaving settings.now steps.now }
    ensures { IfOk result (λ journals. CanOpenFrom settings.now journals.items) }
{
    let (mut world, _) = World::run(alloc, settings, steps)?;
    world.carry(alloc)?.ok_or(Fault::BadSettings)
}
