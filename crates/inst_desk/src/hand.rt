//! Hands.
ghost use Rattle.std.specs.Prelude.{◌≡◌};
ghost use Rattle.crossbeam_queue.specs.Passes.{view};
ghost use Rattle.inst_desk.specs.Account.{counted};

use crate::rule::DeskPass;

/// One thread's access to a desk. Contracts see the jobs that it put and those that it took.
#[derive(Drop)]
pub struct Hand {
    pub(crate) seat: DeskPass,
    pub(crate) puts: u64,
    pub(crate) takes: u64,
    pub ghost counts_puts: { puts ≡ counted (view seat).put },
    pub ghost counts_takes: { takes ≡ counted (view seat).taken },
}
