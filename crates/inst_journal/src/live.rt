//! The transfers of a journal: forwarded, booked and live ones.
ghost use Rattle.std.specs.Prelude.{◌≡◌};
ghost use Rattle.inst_journal.specs.Booked.{is_forwarded, booked};
ghost use Rattle.inst_journal.specs.Opened.{live_submissions};

use crate::Journal;
use crate::booked::{booked, is_forwarded, live_submissions};
use inst_base::Ident;
use inst_command::Outcome;

impl Journal {
    /// Returns `true` if the transfer of the originator `from` was forwarded to the participant.
    /// Cost: linear in the events.
    pub fn is_forwarded(&self, from: u8, id: &Ident) -> bool
        ensures { result ≡ is_forwarded from id.now self.now.events }
    {
        is_forwarded(self.events(), from, id)
    }

    /// Returns the outcome that the participant has booked for the transfer of the originator
    /// `from`. Cost: linear in the events.
    pub fn booked(&self, from: u8, id: &Ident) -> Option<Outcome>
        ensures { result ≡ booked from id.now self.now.events }
    {
        booked(self.events(), from, id)
    }

    /// Returns the number of live transfers of the participant `who` itself, which is the index of
    /// its next place. Cost: quadratic in the events.
    pub fn live_submissions(&self, who: u8) -> usize
        ensures { result ≡ live_submissions who self.now.events }
    {
        live_submissions(self.events(), who)
    }
}
