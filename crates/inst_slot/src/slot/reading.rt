//! Lookups in a slot's tables and totals.
ghost use Rattle.std.specs.Prelude.{◌≡◌, ◌<◌, ◌^◌, IfOk};
ghost use Rattle.inst_journal.specs.Money.{position};
ghost use Rattle.inst_journal.specs.Statement.{statement_part};
ghost use Rattle.inst_slot.specs.OwnState.{own_state};

use super::Slot;
use inst_command::{Lines, State};
use std::alloc::{AllocError, Global};

impl Slot {
    /// Returns the state of the own live transfer at this index as the books have it; `Unused` if
    /// there is none.
    pub fn own_state(&self, index: u16) -> State
        ensures { result ≡ own_state self.now.who self.now.events index }
    {
        let Some(found) = self.ledger.own_found(index) else {
            return State::Unused;
        };
        let booked = found.transfer.outcome;
        match booked {
            Some(outcome) => State::Decided(outcome),
            None => State::Pending,
        }
    }

    /// Returns the position in cents: net funding and credits, less debits.
    pub fn position(&self) -> u128
        ensures value { result ≡ position self.now.events }
        ensures within { result < 2 ^ 64 }
    {
        self.ledger.position()
    }

    /// Returns at most `count` lines of the participant's statement since the last opening, after
    /// the first `skip`.
    ///
    /// Cost: linear in the lines returned.
    ///
    /// # Errors
    ///
    /// [`AllocError`] if the lines can't be allocated.
    pub fn statement(&self, alloc: Global, skip: u64, count: u32) -> Result<Lines, AllocError>
        ensures { IfOk result (λ lines. lines ≡ statement_part self.now.events skip count) }
    {
        self.ledger.statement(alloc, skip, count)
    }
}
