//! The errors of a log with marks.
ghost use Rattle.std.specs.Prelude.{◌≡◌};
ghost use Rattle.inst_log.specs.declared.error.LogError.TheVariants.{Disk, Memory};
ghost use Rattle.inst_chain.specs.declared.error.ChainError.TheVariants.{Log};

use crate::prefix::Prefix;
use inst_log::LogError;
use std::alloc::AllocError;
use std::io;
use thiserror::Error;

/// Why a log with marks couldn't be verified.
#[derive(Clone, Copy, Debug, Error)]
pub enum ChainError {
    /// Reading the log failed.
    #[error("{0}")]
    Log(LogError),
    /// The log is damaged after this prefix: the next mark is wrong, or the log doesn't end with a
    /// mark and a byte 0. It is unchanged.
    #[error("the log is damaged after line {}, byte {}", .0.lines, .0.bytes)]
    Damaged(Prefix),
}

impl From<LogError> for ChainError {
    ghost from_gives = { λ error fault. fault ≡ Log error };

    fn from(error: LogError) -> ChainError {
        ChainError::Log(error)
    }
}

impl From<io::Error> for ChainError {
    ghost from_gives = { λ error fault. fault ≡ Log (Disk error) };

    fn from(error: io::Error) -> ChainError {
        ChainError::Log(LogError::Disk(error))
    }
}

impl From<AllocError> for ChainError {
    ghost from_gives = { λ _ fault. fault ≡ Log Memory };

    fn from(_: AllocError) -> ChainError {
        ChainError::Log(LogError::Memory)
    }
}
