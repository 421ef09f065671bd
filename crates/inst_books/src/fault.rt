//! Errors of reading books.
ghost use Rattle.std.specs.Prelude.{◌≡◌};
ghost use Rattle.inst_books.specs.declared.fault.BookFault.TheVariants.{Memory};

use std::alloc::AllocError;
use thiserror::Error;

/// An error in reading books.
#[derive(Clone, Copy, Debug, PartialEq, Eq, Error)]
pub enum BookFault {
    /// A line isn't an event of a participant's book.
    #[error("a line isn't an event of a participant's book")]
    BadLine,
    /// An allocation failed.
    #[error("an allocation failed")]
    Memory,
}

impl From<AllocError> for BookFault {
    ghost from_gives = { λ _ fault. fault ≡ Memory };

    fn from(_error: AllocError) -> BookFault {
        BookFault::Memory
    }
}
