//! The events of a history.

use inst_base::{Cents, Ident, Moment};
use inst_command::{Funding, Outcome};

/// An event of a participant's history. Repeats, queries and refused commands add no event.
#[derive(Clone, Copy, Debug, PartialEq, Eq)]
pub enum Event {
    /// The participant's net funding was raised.
    Funded(Funding),
    /// The participant's net funding was lowered.
    Defunded(Funding),
    /// The participant's submission was taken, and its amount reserved.
    Taken {
        id: Ident,
        to: u8,
        cents: Cents,
        stamp: Moment,
    },
    /// A transfer of the originator `from` was forwarded to the participant.
    Forwarded {
        from: u8,
        id: Ident,
        cents: Cents,
        deadline: Moment,
    },
    /// The participant booked the outcome of the transfer of the originator `from`. For a transfer
    /// of its own, that is the participant itself.
    Booked {
        from: u8,
        id: Ident,
        outcome: Outcome,
    },
    /// The participant fetched this number of forwarded transfers.
    Fetched {
        count: u32,
    },
    /// The hub was opened again from the books.
    Opened,
}
