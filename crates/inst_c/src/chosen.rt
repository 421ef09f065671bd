//! The settings of a hub, as C gives them.
ghost use Rattle.std.specs.Prelude.{◌≡◌, IfOk, IfErr};
ghost use Rattle.inst_c.specs.Chosen.{mode_of};

use inst_base::Fault;
use inst_lines::Mode;
use inst_settings::{HubParameters, Settings, parse_codes};
use std::alloc::Global;

/// The settings of a hub without its participants. The header has their ranges.
#[repr(C)]
#[derive(Clone, Copy)]
pub struct Chosen {
    /// The base: the first moment, in absolute milliseconds.
    pub base: u64,
    /// The maximum amount of a command, in cents.
    pub ceiling: u64,
    /// From time stamp to deadline, in milliseconds.
    pub limit: u32,
    /// The cut-off before the deadline, in milliseconds: no transfer is accepted any more.
    pub margin: u32,
    /// How far a time stamp may be after the clock reading, in milliseconds.
    pub ahead: u32,
    /// How many live transfers an originator may have.
    pub places: u16,
    /// How many fund and defund commands a participant may have.
    pub fundings: u16,
}

impl Chosen {
    ghost use Rattle.inst_settings.specs.Lawful.{AreOfAHub};
    ghost use Rattle.inst_c.specs.Chosen.{chosen, IsOpenRefusal};

    /// Returns the settings, with the participants whose codes are in the text, separated by
    /// commas.
    ///
    /// # Errors
    ///
    /// `BadSettings` if no hub can have them, `Memory` if an allocation fails.
    pub fn settings(&self, alloc: Global, participants: &[u8]) -> Result<Settings, Fault>
        ensures chosen { IfOk result (λ settings. settings ≡ chosen participants.now self.now) }
        ensures good { IfOk result AreOfAHub }
        ensures fault { IfErr result (IsOpenRefusal (chosen participants.now self.now)) }
    {
        let codes = parse_codes(alloc, participants)?;
        let numbers = HubParameters {
            places: self.places,
            fundings: self.fundings,
            limit: self.limit,
            margin: self.margin,
            ahead: self.ahead,
            ceiling: self.ceiling,
            base: self.base,
        };
        Settings::check(codes, numbers)
    }
}

/// Returns the mode: steps if `is_play`, else commands.
pub fn mode(is_play: bool) -> Mode
    ensures { result ≡ mode_of is_play }
{
    if is_play { Mode::Play } else { Mode::Run }
}
