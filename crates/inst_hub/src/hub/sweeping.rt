//! Sweeps.
ghost use Rattle.std.specs.Prelude.{◌≡◌, true};
ghost use Rattle.inst_settings.specs.Settings.{is_participant};
ghost use Rattle.inst_hub.specs.Calls.{IsTellerOf, TellerKnowsMore};
ghost use Rattle.inst_hub.specs.Sweeping.{IsSweep};

use super::Hub;
use crate::teller::Teller;
use inst_base::Moment;
use std::alloc::AllocError;
use std::sync::Wait;

impl Hub {
    /// Expires, learns and delivers all open work of the participant `who` at clock reading `at`,
    /// under its lock, in the order of [`Participant::sweep`](crate::Participant::sweep). Returns
    /// the number of events stored, at most 2^32 - 1.
    ///
    /// Requires a teller of this hub, and `who` below the number of participants. Blocks while
    /// another thread holds the participant's lock. Cost: linear in its own unbooked transfers, its
    /// live arrivals and the others' used places.
    ///
    /// # Errors
    ///
    /// [`AllocError`] if an event can't be stored; what was done before is kept, and nothing is
    /// done after it.
    pub fn sweep<R: Wait>(
        &self,
        rt: &R,
        teller: &mut Teller,
        who: u8,
        at: Moment,
    ) -> Result<u32, AllocError>
        requires of { IsTellerOf self.now teller.old }
        requires participant { is_participant self.now.settings who ≡ true }
        ensures of { IsTellerOf self.now teller.new }
        ensures knows { TellerKnowsMore teller.old teller.new }
        ensures sweep { IsSweep self.now teller.old who at result teller.new }
    {
        let lock = usize::from(who);
        let mut participant = self.row.take(rt, &mut teller.seat, lock);
        let answer = participant.sweep(at);
        self.row.give(&mut teller.seat, lock, participant);
        answer
    }
}
