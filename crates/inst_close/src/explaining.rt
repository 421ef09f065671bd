//! One order of steps that explains the books of a closed hub.
ghost use Rattle.std.specs.Prelude.{IfOk, IfSome};
ghost use Rattle.inst_model.specs.Opening.{Opening};
ghost use Rattle.inst_participant.specs.Together.{histories};
ghost use Rattle.inst_order.specs.Order.{ExplainsBooks};

use crate::Books;
use inst_books::can_open;
use inst_command::Step;
use inst_order::{interleaving, interleaving_from};
use std::alloc::{AllocError, Global};

impl Books {
    /// Returns steps of a hub in one thread that leave exactly these books after a first opening,
    /// if it finds some.
    ///
    /// All that is proved of a run (`KeepsTheHeadline` in the specs of `inst_world`) then holds of
    /// a run of these steps. Their clock readings are not those of the calls that were made. `None`
    /// says nothing about the books.
    ///
    /// Takes time linear in the number of events. Allocates the steps, a copy of the books and the
    /// hub that runs the steps.
    ///
    /// # Errors
    ///
    /// [`AllocError`] if the steps or the hub that runs them can't be allocated; the books are
    /// unchanged.
    pub fn interleaving(&self, alloc: Global) -> Result<Option<Vec<Step>>, AllocError>
        ensures headline { IfOk result (λ found.
            IfSome found (λ steps.
            ExplainsBooks self.now.settings Opening.First steps.items (histories self.now.books))) }
    {
        let journals = self.copies(alloc)?;
        interleaving(alloc, self.settings(), &journals)
    }

    /// Returns such steps of a hub that was opened from the books `before`, as by
    /// [`open_next`](Books::open_next), [`open_wider`](Books::open_wider) or
    /// [`open_under`](Books::open_under). Participants that joined have empty books there.
    ///
    /// Also returns `None` if no hub of these settings can be opened from `before`.
    ///
    /// # Errors
    ///
    /// [`AllocError`] if the steps or the hub that runs them can't be allocated; both books are
    /// unchanged.
    pub fn interleaving_from(
        &self,
        alloc: Global,
        before: &Books,
    ) -> Result<Option<Vec<Step>>, AllocError>
        ensures headline { IfOk result (λ found.
            IfSome found (λ steps.
            ExplainsBooks self.now.settings
            (Opening.FromBooks (histories before.now.books)) steps.items
            (histories self.now.books))) }
    {
        let joined = self.slots.len().saturating_sub(before.slots.len());
        let opening = before.copies_and(alloc, joined)?;
        if !can_open(alloc, self.settings(), &opening)? {
            return Ok(None);
        }
        let journals = self.copies(alloc)?;
        interleaving_from(alloc, self.settings(), &opening, &journals)
    }
}
