//! A transfer as one participant's history has it, and the result of looking one up.
ghost use Rattle.std.specs.Prelude.{◌≡◌};
ghost use Rattle.inst_transfers.specs.Held.{row_in, time_in};

use inst_base::{Cents, Ident, Moment};
use inst_command::{Entry, Outcome};

/// The participant's role in a transfer: originator (`Own`) or beneficiary (`Other`).
#[derive(Clone, Copy)]
pub enum Side {
    Own { to: u8, stamp: Moment },
    Other { deadline: Moment },
}

/// A transfer as the participant's history has it.
#[derive(Clone, Copy)]
pub struct Transfer {
    pub cents: Cents,
    pub side: Side,
    pub outcome: Option<Outcome>,
}

/// A transfer that was looked up, with its position in the table.
///
/// The position stays valid until the next transfer is entered, so no second lookup by key is
/// needed.
#[derive(Clone, Copy)]
pub struct Found {
    pub from: u8,
    pub id: Ident,
    pub position: usize,
    pub transfer: Transfer,
}

impl Side {
    /// Returns the deadline in milliseconds since base; for an own transfer, its time stamp.
    pub(crate) fn time(&self) -> Moment
        ensures { result ≡ time_in self.now }
    {
        match self {
            Side::Own { stamp, .. } => *stamp,
            Side::Other { deadline } => *deadline,
        }
    }
}

impl Transfer {
    /// Returns the entry of this transfer at its key. For an own transfer its `deadline` is the time
    /// stamp.
    pub(crate) fn entry(&self, from: u8, id: Ident) -> Entry
        ensures { result ≡ row_in ((from, id), self.now) }
    {
        Entry {
            from,
            id,
            cents: self.cents,
            deadline: self.side.time(),
        }
    }
}

impl Found {
    /// Returns the transfer's entry. For an own transfer its `deadline` is the time stamp.
    pub fn entry(&self) -> Entry
        ensures { result ≡ row_in ((self.now.from, self.now.id), self.now.transfer) }
    {
        self.transfer.entry(self.from, self.id)
    }
}
