//! The contents of a fund or defund command.

use inst_base::{Cents, Ident};

/// The amount that a fund command adds to the asker's net funding, or a defund command takes from
/// it.
#[derive(Clone, Copy, Debug, PartialEq, Eq)]
pub struct Funding {
    /// The reference, which identifies the command among the asker's fund and defund commands
    /// together.
    pub reference: Ident,
    pub cents: Cents,
}
