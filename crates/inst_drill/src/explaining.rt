//! Steps of a hub in one thread that explain what the threads did.
ghost use Rattle.std.specs.Prelude.{IfOk, IfSome};
ghost use Rattle.inst_order.specs.Order.{ExplainsBooks};
ghost use Rattle.inst_participant.specs.Together.{histories};
ghost use Rattle.inst_drill.specs.inner.Chain.{opening_of};

use inst_close::Books;
use inst_command::Step;
use std::alloc::{AllocError, Global};

/// What a drill leaves.
#[derive(Drop)]
pub struct DrillResult {
    /// The books of its last opening.
    pub books: Books,
    /// Steps of a hub in one thread that leave the books of the first opening.
    pub steps: Vec<Step>,
}

/// Returns steps of a hub in one thread that leave these books, if it finds some. That hub opens
/// from the books `before`, or for the first time.
pub(crate) fn explain(
    alloc: Global,
    books: &Books,
    before: &Option<Books>,
) -> Result<Option<Vec<Step>>, AllocError>
    ensures { IfOk result (λ found.
        IfSome found (λ steps.
        ExplainsBooks books.now.settings (opening_of before.now) steps.items
        (histories books.now.books))) }
{
    match before {
        Some(before) => books.interleaving_from(alloc, before),
        None => books.interleaving(alloc),
    }
}
