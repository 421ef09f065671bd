//! The money of a journal, summed over its events. Except for [`Journal::net`], each call scans the
//! events once for each transfer.
ghost use Rattle.std.specs.Prelude.{◌≡◌};

use crate::{Journal, sums};

impl Journal {
    ghost use Rattle.inst_journal.specs.Sums.{net, credits, debits};
    ghost use Rattle.inst_journal.specs.Money.{reserved, position, available};

    /// Returns the net funding in cents. It is below 0 after credits were defunded.
    pub fn net(&self) -> i128
        ensures { result ≡ net self.now.events }
    {
        sums::funded(self.events()) as i128 - sums::defunded(self.events()) as i128
    }

    /// Returns the sum of the forwarded transfers that are booked accepted, in cents.
    pub fn credits(&self) -> u128
        ensures { result ≡ credits self.now.events }
    {
        sums::credits(self.events())
    }

    /// Returns the sum of the taken transfers that are booked accepted, in cents.
    pub fn debits(&self) -> u128
        ensures { result ≡ debits self.now.events }
    {
        sums::debits(self.events())
    }

    /// Returns the sum of the taken transfers without a booked outcome, in cents.
    pub fn reserved(&self) -> u128
        ensures { result ≡ reserved self.now.events }
    {
        sums::reserved(self.events())
    }

    /// Returns the position in cents: net funding and credits, less debits.
    pub fn position(&self) -> u128
        ensures { result ≡ position self.now.events }
    {
        sums::position(self.events())
    }

    /// Returns what is available in cents: the position less what is reserved.
    pub fn available(&self) -> u128
        ensures { result ≡ available self.now.events }
    {
        sums::available(self.events())
    }
}
