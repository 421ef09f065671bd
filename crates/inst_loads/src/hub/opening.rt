//! Opens the hub of a load or a stress.
ghost use Rattle.std.specs.Prelude.{IfOk};
ghost use Rattle.inst_model.specs.Opening.{Opening};
ghost use Rattle.inst_hub.specs.Calls.{AreOf};
ghost use Rattle.inst_hub.specs.Opening.{HaveAllParts};
ghost use Rattle.inst_close.specs.Closing.{IsOpenedSo};

use inst_base::{Code, Fault};
use inst_hub::{Hub, Teller};
use inst_settings::{HubParameters, Settings};
use std::alloc::Global;

/// The limit: milliseconds from a time stamp to the deadline.
pub(crate) const LIMIT: u32 = 10_000;

/// The setting `ahead`, in milliseconds.
pub(crate) const AHEAD: u32 = 1_000;

/// The size of a hub, and its margin.
#[derive(Clone, Copy)]
pub(crate) struct Size {
    /// 1 to 100.
    pub(crate) participants: u16,
    /// The places of each participant.
    pub(crate) places: u16,
    /// The margin in milliseconds.
    pub(crate) margin: u32,
}

fn settings(alloc: Global, size: Size) -> Result<Settings, Fault> {
    let mut codes = Vec::new(alloc);
    for number in 0..size.participants {
        let text = format!(in alloc; "BANKDE{}{}", number / 10, number % 10)?;
        codes.push(Code::new(text.as_str())?)?;
    }
    let numbers = HubParameters {
        places: size.places,
        fundings: 4,
        limit: LIMIT,
        margin: size.margin,
        ahead: AHEAD,
        ..HubParameters::DEFAULT
    };
    Settings::check(codes, numbers)
}

/// Opens the hub with a teller for each thread, and one more for the program itself.
pub(crate) fn open(alloc: Global, size: Size, threads: u8) -> Result<(Hub, Vec<Teller>), Fault>
    ensures of { IfOk result (λ r. AreOf r.0 r.1.items) }
    ensures parts { IfOk result (λ r. HaveAllParts r.1.items) }
    ensures opened { IfOk result (λ r. (O : Opening) × IsOpenedSo O r.0) }
{
    Hub::open(alloc, settings(alloc, size)?, threads.saturating_add(1))
}
