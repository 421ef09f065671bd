//! Errors of a drill.
ghost use Rattle.std.specs.Prelude.{◌≡◌};

use inst_base::Fault;
use std::alloc::AllocError;
use thiserror::Error;

/// Why a drill ended before its last opening was reported.
#[derive(Clone, Copy, Debug, PartialEq, Eq, Error)]
pub enum DrillError {
    /// `BadSettings`, `Memory` or `WriteFault`.
    #[error("{}", .0.name())]
    Fault(Fault),
    /// No run of a hub in one thread was found that leaves the books of an opening.
    #[error("no single-threaded run was found that leaves the books of an opening")]
    NoInterleaving,
}

impl From<Fault> for DrillError {
    ghost use Rattle.inst_drill.specs.declared.error.DrillError.TheVariants as error;

    ghost from_gives = { λ fault result. result ≡ error.Fault fault };

    fn from(fault: Fault) -> DrillError {
        DrillError::Fault(fault)
    }
}

impl From<AllocError> for DrillError {
    ghost use Rattle.inst_base.specs.declared.fault.Fault.TheVariants.{Memory};
    ghost use Rattle.inst_drill.specs.declared.error.DrillError.TheVariants as error;

    ghost from_gives = { λ _ result. result ≡ error.Fault Memory };

    fn from(_error: AllocError) -> DrillError {
        DrillError::Fault(Fault::Memory)
    }
}
