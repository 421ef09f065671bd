//! Settings with more participants.
ghost use Rattle.std.specs.Prelude.{◌≡◌, ◌⊎◌, ◌↔◌, ◌++◌, Err, IfOk, IfErr, IsTrue};
ghost use Rattle.inst_settings.specs.Lawful.{IsSettings};
ghost use Rattle.inst_participant.specs.Wider.{widened};
ghost use Rattle.inst_close.specs.NextOpening.{KeepsBaseAndCodes};

use inst_base::{Code, Fault};
use inst_settings::Settings;
use std::alloc::{AllocError, Global};

/// Returns the codes of the participants, followed by these.
fn codes_with(alloc: Global, settings: &Settings, more: &[Code]) -> Result<Vec<Code>, AllocError>
    ensures { IfOk result (λ codes. codes.items ≡ settings.now.codes ++ more.now) }
{
    let mut codes = Vec::new(alloc);
    codes.extend_from_slice(settings.codes())?;
    codes.extend_from_slice(more)?;
    Ok(codes)
}

/// Returns the settings with these codes after the existing ones.
///
/// # Errors
///
/// `BadSettings` if there are then more than 256 codes or one occurs twice;
/// [`Memory`](Fault::Memory) if allocation fails.
pub(crate) fn widened(alloc: Global, settings: &Settings, more: &[Code]) -> Result<Settings, Fault>
    ensures ok { IfOk result (λ s. (s ≡ widened settings.now more.now) × IsSettings s) }
    ensures bad { result ≡ Err Fault.BadSettings → ¬ IsSettings (widened settings.now more.now) }
    ensures only { IfErr result (λ e. (e ≡ Fault.Memory) ⊎ (e ≡ Fault.BadSettings)) }
{
    Settings::check(codes_with(alloc, settings, more)?, settings.numbers())
}

/// Returns `true` if the new settings have the base of the old ones, and codes that begin with
/// their codes.
pub(crate) fn keeps_base_and_codes(old: &Settings, new: &Settings) -> bool
    ensures { IsTrue result ↔ KeepsBaseAndCodes old.now new.now }
{
    new.base() == old.base() && new.codes().starts_with(old.codes())
}
