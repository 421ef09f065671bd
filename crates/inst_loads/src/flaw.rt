//! Errors that a load, a stress or a worked row with allocation failures finds.
use inst_base::Fault;
use std::alloc::{AllocError, AllocFailed};
use std::fmt::{self, Display, Formatter};
use thiserror::Error;

/// An error that a round or a row finds in the hub.
#[derive(Clone, Copy, Debug, Error)]
pub(crate) enum Flaw {
    /// An allocation that must succeed failed, or a command that must be accepted was refused.
    #[error("Refused: {}", .0.name())]
    Refused(#[from] Fault),
    /// Not all transfers of a load were accepted.
    #[error("NotAllSettled: {settled} of {transfers} transfers were settled")]
    NotAllSettled { settled: u32, transfers: u32 },
    /// A reply concerns a transfer, and there is no ticket.
    #[error("NoTicket: a reply concerns a transfer, but there is no ticket")]
    NoTicket,
    /// Tickets of one place have different identifiers, or a repeat with other contents was taken.
    #[error("OtherTransfer: one place has two identifiers or two contents")]
    OtherTransfer,
    /// A reply has an earlier state than its teller had seen, or another outcome.
    #[error("ReplyWentBack: a reply has less than the teller had seen")]
    ReplyWentBack,
    /// A peek returns an earlier state than its teller knew, or another outcome.
    #[error("PeekWentBack: a peek shows less than the teller knew")]
    PeekWentBack,
    /// Two tellers got or see different outcomes of one transfer.
    #[error("TellersDiffer: two tellers have different outcomes")]
    TellersDiffer,
    /// A transfer is pending though its originator asked for it after its deadline.
    #[error("StillPending: a transfer is pending at the end")]
    StillPending,
    /// A sweep finds something new, though each call had to do its follow-up at the other side.
    #[error("NotTold: a call didn't let the other side learn what it had done")]
    NotTold,
    /// A sweep finds something new after every participant was swept.
    #[error("StillNew: a sweep finds something new at the end")]
    StillNew,
    /// A transfer was fetched twice, or nobody submitted it.
    #[error("StrangeEntry: a transfer was fetched twice, or was never submitted")]
    StrangeEntry,
    /// A transfer that is accepted, rejected or pending was never fetched.
    #[error("NotHandedOut: a transfer wasn't fetched by its beneficiary")]
    NotHandedOut,
    /// A position isn't the sum of the reserved and the available amount.
    #[error("Unbalanced: reserved and available don't sum to the position")]
    Unbalanced,
    /// Something is reserved though no transfer is pending.
    #[error("StillReserved: cents are reserved at the end")]
    StillReserved,
    /// A position differs from what the outcomes of the transfers give.
    #[error("OtherPosition: a position doesn't match the outcomes")]
    OtherPosition,
    /// The positions don't sum to the funding, in cents.
    #[error("OtherSum: the positions sum to {positions} cents, the funding to {funding}")]
    OtherSum { positions: u64, funding: u64 },
    /// The lines of a statement don't add up to the position, one by one.
    #[error("OtherStatement: the lines of a statement don't add up to the position")]
    OtherStatement,
    /// No steps of a hub in one thread were found that leave the books.
    #[error("NoInterleaving: no single-threaded run was found that leaves the books")]
    NoInterleaving,
    /// Not all memory could be taken.
    #[error("NoHoard: the free memory could not all be allocated")]
    NoHoard,
    /// A call still fails to allocate with the most memory that is tried.
    #[error("NeverServed: a call failed to allocate until the end")]
    NeverServed,
    /// An answer isn't the row's.
    #[error("OtherAnswer: an answer isn't the one of its row")]
    OtherAnswer,
    /// A call that failed to allocate changed something that it must not.
    #[error("Changed: a call that failed to allocate changed something")]
    Changed,
    /// A call that promises not to allocate failed to allocate.
    #[error("Needless: a call that needn't allocate failed to allocate")]
    Needless,
    /// A call that must allocate never failed to.
    #[error("NeverRefused: a call that allocates never failed to")]
    NeverRefused,
}

/// Returns `OtherSum` if the positions don't sum to the funding.
pub(crate) fn check_sum(positions: u64, funding: u64) -> Result<(), Flaw> {
    if positions != funding {
        return Err(Flaw::OtherSum { positions, funding });
    }
    Ok(())
}

impl From<AllocError> for Flaw {
    fn from(_error: AllocError) -> Flaw {
        Flaw::Refused(Fault::Memory)
    }
}

impl<T: Drop> From<AllocFailed<T>> for Flaw {
    fn from(_error: AllocFailed<T>) -> Flaw {
        Flaw::Refused(Fault::Memory)
    }
}

/// A flaw with its round, from 0, and the thread whose teller found it; `None` for the teller that
/// no thread has.
#[derive(Clone, Copy)]
pub(crate) struct Failure {
    pub(crate) flaw: Flaw,
    pub(crate) thread: Option<u8>,
    pub(crate) round: u32,
}

impl Flaw {
    /// Returns this flaw, found by this thread's teller.
    pub(crate) fn of(self, thread: u8) -> Failure {
        Failure {
            flaw: self,
            thread: Some(thread),
            round: 0,
        }
    }
}

impl Failure {
    /// Returns this failure with its round.
    pub(crate) fn in_round(self, round: u32) -> Failure {
        Failure { round, ..self }
    }
}

impl From<Flaw> for Failure {
    fn from(flaw: Flaw) -> Failure {
        Failure {
            flaw,
            thread: None,
            round: 0,
        }
    }
}

impl From<Fault> for Failure {
    fn from(fault: Fault) -> Failure {
        Failure::from(Flaw::Refused(fault))
    }
}

impl From<AllocError> for Failure {
    fn from(_error: AllocError) -> Failure {
        Failure::from(Flaw::Refused(Fault::Memory))
    }
}

impl<T: Drop> From<AllocFailed<T>> for Failure {
    fn from(_error: AllocFailed<T>) -> Failure {
        Failure::from(Flaw::Refused(Fault::Memory))
    }
}

impl Display for Failure {
    fn fmt<W: fmt::Write>(&self, f: &mut Formatter<W>) -> fmt::Result {
        let Failure {
            flaw,
            thread,
            round,
        } = self;
        match thread {
            Some(thread) => write!(f, "round {round}, thread {thread}: {flaw}"),
            None => write!(f, "round {round}: {flaw}"),
        }
    }
}
