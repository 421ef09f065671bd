//! What the threads of a crew begin with.
ghost use Rattle.std.specs.Prelude.{◌≡◌, length, IfOk};
ghost use Rattle.inst_crew.specs.inner.Workers.{hands_of, workers_tellers};

use crate::sweep::Sweep;
use inst_desk::Hand;
use inst_hub::Teller;
use std::alloc::{AllocError, Global};

/// One thread's hand and teller.
#[derive(Drop)]
pub(crate) struct Worker {
    pub(crate) hand: Hand,
    pub(crate) teller: Teller,
}

/// The workers and the sweep of a crew.
#[derive(Drop)]
pub(crate) struct Roster {
    /// One for each hand.
    pub(crate) workers: Vec<Worker>,
    pub(crate) sweep: Option<Sweep>,
}

/// Makes a worker of each hand, with the teller at the same position.
pub(crate) fn workers(
    alloc: Global,
    hands: Vec<Hand>,
    tellers: Vec<Teller>,
) -> Result<Vec<Worker>, AllocError>
    requires { length tellers.items ≡ length hands.items }
    ensures hands { IfOk result (λ all. hands_of all.items ≡ hands.items) }
    ensures tellers { IfOk result (λ all. workers_tellers all.items ≡ tellers.items) }
{
    let mut all = Vec::new(alloc);
    let mut tellers = tellers.into_iter();
    for hand in hands {
        let Some(teller) = tellers.next() else {
            unreachable!()
        };
        all.push(Worker { hand, teller })?;
    }
    Ok(all)
}
