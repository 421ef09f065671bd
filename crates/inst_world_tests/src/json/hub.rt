//! The hub of the lines, and how it reads them.
ghost use Rattle.std.specs.Prelude.{◌≡◌, IfOk};
ghost use Rattle.inst_settings.specs.Settings.{participants};

use inst_base::{Code, Fault, mention};
use inst_command::{Ask, Command, Step};
use inst_json::{read_command, read_step};
use inst_settings::{HubParameters, Settings};
use std::alloc::Global;

/// The largest ceiling, in cents.
pub(crate) const MOST: u64 = 99_999_999_999;

/// Returns the settings of AAAADEFF, BBBBFRPP and CCCCITMM, numbered 0, 1 and 2, with a limit of
/// 10,000 ms.
pub(crate) fn hub(alloc: Global, ceiling: u64, base: u64) -> Result<Settings, Fault>
    ensures { IfOk result (λ s. participants s ≡ 3) }
{
    let codes = [
        Code::new("AAAADEFF")?,
        Code::new("BBBBFRPP")?,
        Code::new("CCCCITMM")?,
    ];
    let numbers = HubParameters {
        ceiling,
        base,
        ..HubParameters::DEFAULT
    };
    Settings::check(codes.to_vec(alloc)?, numbers)
}

/// Reads a command with this ceiling and base.
pub(crate) fn read(alloc: Global, ceiling: u64, base: u64, line: &[u8]) -> Result<Ask, Fault> {
    let hub = hub(alloc, ceiling, base)?;
    read_command(alloc, &hub, line)
}

/// Returns the fault that reading the line gives, if it does.
pub(crate) fn refusal(alloc: Global, ceiling: u64, base: u64, line: &[u8]) -> Option<Fault> {
    mention::<Command>();
    read(alloc, ceiling, base, line).err()
}

/// Reads a line of a script with the largest ceiling.
pub(crate) fn read_script(alloc: Global, line: &[u8]) -> Result<Step, Fault> {
    let hub = hub(alloc, MOST, 0)?;
    read_step(alloc, &hub, line)
}
