//! Replies to commands, and answers to steps.
ghost use Rattle.std.specs.Prelude.{◌≡◌};
ghost use Rattle.inst_command.specs.Refusals.{refusals_told};

use crate::{Entries, Lines, State};
use inst_base::{Fault, Ident, Moment};
use std::alloc::AllocError;

/// The reply to a command. Money is in cents.
#[derive(Debug, Drop)]
pub enum Reply {
    /// The funding with this reference is done.
    Done {
        reference: Ident,
    },
    /// The submission is taken, and its transfer has this deadline.
    Taken {
        id: Ident,
        deadline: Moment,
    },
    /// The state of a transfer of the originator `from`.
    State {
        from: u8,
        id: Ident,
        state: State,
    },
    /// The fetched transfers.
    Inbox {
        entries: Entries,
    },
    /// The position, the part of it that is reserved, and the part that is available.
    Position {
        position: u64,
        reserved: u64,
        available: u64,
    },
    /// The requested statement lines.
    Statement {
        lines: Lines,
    },
    /// The command was refused and changed nothing.
    Refused(Fault),
}

/// The answer to a step: the reply to an ask; for another step, `true` if it booked or forwarded
/// something.
#[derive(Debug, Drop)]
pub enum Answer {
    Reply(Reply),
    New(bool),
}

/// Makes each refusal but `Memory` a reply.
///
/// # Errors
///
/// [`AllocError`] if the refusal is [`Fault::Memory`].
pub fn refusals_told(answer: Result<Reply, Fault>) -> Result<Reply, AllocError>
    ensures { result ≡ refusals_told answer }
{
    match answer {
        Ok(reply) => Ok(reply),
        Err(Fault::Memory) => Err(AllocError),
        Err(fault) => Ok(Reply::Refused(fault)),
    }
}
