//! The participants of the worked rows, and their settings.
ghost use Rattle.std.specs.Prelude.{◌≡◌, IfOk};
ghost use Rattle.inst_settings.specs.Lawful.{IsSettings, settings_with as their_settings};
ghost use Rattle.inst_model.specs.Rows as rows;

use inst_base::{Code, Fault};
use inst_settings::{HubParameters, Settings};
use std::alloc::Global;

/// The number of `AAAADEFF`.
pub const A: u8 = 0;

/// The number of `BBBBFRPP`.
pub const B: u8 = 1;

/// The number of `CCCCITMM`.
pub const C: u8 = 2;

/// Returns the settings of the worked rows: three participants with 2 places and 4 fundings each, a
/// limit of 10,000 ms, no margin, and time stamps at most 1,000 ms ahead.
///
/// # Errors
///
/// [`Fault::Memory`] if an allocation fails.
pub fn settings(alloc: Global) -> Result<Settings, Fault>
    ensures rows { IfOk result (λ settings. settings ≡ rows.settings) }
    ensures lawful { IfOk result (λ settings. IsSettings settings) }
{
    settings_with(alloc, 2, 0)
}

/// Returns the settings of the same participants with `places` places each and a margin in
/// milliseconds.
///
/// # Errors
///
/// [`Fault::Memory`] if an allocation fails, [`Fault::BadSettings`] if a number is out of its
/// range.
pub fn settings_with(alloc: Global, places: u16, margin: u32) -> Result<Settings, Fault>
    ensures rows { IfOk result (λ settings.
        settings ≡ their_settings rows.settings.codes places 4 10000 margin 1000 99999999999 0) }
    ensures lawful { IfOk result (λ settings. IsSettings settings) }
{
    let codes = [
        Code::new("AAAADEFF")?,
        Code::new("BBBBFRPP")?,
        Code::new("CCCCITMM")?,
    ];
    let numbers = HubParameters {
        places,
        fundings: 4,
        margin,
        ..HubParameters::DEFAULT
    };
    Settings::check(codes.to_vec(alloc)?, numbers)
}
