//! The errors of a hub with a log.
ghost use Rattle.std.specs.Prelude.{◌≡◌};
ghost use Rattle.inst_logged.specs.declared.error.LoggedError.TheVariants.{Log};
ghost use Rattle.inst_log.specs.declared.error.LogError.TheVariants.{Disk, Memory};
ghost use Rattle.inst_logged.specs.inner.Errors.{of_chain};

use inst_chain::{ChainError, Prefix};
use inst_log::LogError;
use std::alloc::AllocError;
use std::io;
use thiserror::Error;

/// Why a call of a hub with a log failed. Make a new hub and open the log again.
#[derive(Clone, Copy, Debug, Error)]
pub enum LoggedError {
    /// The log failed, or writing the replies did.
    #[error(transparent)]
    Log(LogError),
    /// Reading the input failed.
    #[error("reading the input failed")]
    Read,
    /// The books that follow the log's settings aren't books that a hub can open from.
    #[error("a hub can't open from the books after the log's settings")]
    Books,
    /// The log is damaged after this prefix. It is unchanged.
    #[error("the log is damaged after line {}, byte {}", .0.lines, .0.bytes)]
    Damaged(Prefix),
    /// The log has no mark with the digest that was asked for. It is unchanged.
    #[error("the log doesn't contain the digest that was asked for")]
    OtherDigest,
    /// The log's file hasn't the size that the hub left it with: another program truncated it or
    /// wrote to it.
    #[error("the log was changed by another program")]
    Changed,
}

impl From<LogError> for LoggedError {
    ghost from_gives = { λ error result. result ≡ Log error };

    fn from(error: LogError) -> LoggedError {
        LoggedError::Log(error)
    }
}

impl From<AllocError> for LoggedError {
    ghost from_gives = { λ _ result. result ≡ Log Memory };

    fn from(_: AllocError) -> LoggedError {
        LoggedError::Log(LogError::Memory)
    }
}

impl From<io::Error> for LoggedError {
    ghost from_gives = { λ error result. result ≡ Log (Disk error) };

    fn from(error: io::Error) -> LoggedError {
        LoggedError::Log(LogError::Disk(error))
    }
}

impl From<ChainError> for LoggedError {
    ghost from_gives = { λ error result. result ≡ of_chain error };

    fn from(error: ChainError) -> LoggedError {
        match error {
            ChainError::Log(error) => LoggedError::Log(error),
            ChainError::Damaged(right) => LoggedError::Damaged(right),
        }
    }
}
