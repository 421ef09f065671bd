//! The errors of a command line.
ghost use Rattle.std.specs.Prelude.{◌≡◌};

use crate::bad_option::BadOption;
use clap::Error;
use inst_base::Fault;
use std::alloc::AllocError;

/// Why the words of a command line ask for no task.
#[derive(Drop)]
pub enum WordsError<'a> {
    /// They are wrong, or ask for help or the version; the error has the text to print.
    Words(Error),
    /// This option's value, with the others, isn't allowed: `BadSettings`.
    Option(BadOption<'a>),
    /// `Memory` if an allocation fails; `BadSettings` if no single option shows why.
    Fault(Fault),
}

impl<'a> From<AllocError> for WordsError<'a> {
    ghost use Rattle.inst_base.specs.declared.fault.Fault.TheVariants.{Memory};
    ghost use Rattle.inst_options.specs.declared.error.WordsError.TheVariants as error;

    ghost from_gives = { λ _ result. result ≡ error.Fault Memory };

    fn from(_error: AllocError) -> WordsError<'a> {
        WordsError::Fault(Fault::Memory)
    }
}
