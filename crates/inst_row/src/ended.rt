//! The values of a row of locks that has ended.
ghost use Rattle.std.specs.Prelude.{◌≡◌, ◌≢◌, ℕ, ◌<◌, ◌%◌, ◌^◌, true, false, slice_index_or};
ghost use Rattle.std.specs.Mem.Slots.{slots_items, slots_filled, slots_len, IsFull};
ghost use Rattle.inst_row.specs.declared.row.TheConstants.{STRIDE};
ghost use Rattle.inst_row.specs.Place.{place};

use crate::row::STRIDE;
use atomic_table::Closed;
use std::alloc::Global;

/// The values of a row that has ended, by the numbers of their locks. Take out each one, then call
/// [`free`](EndedRow::free).
pub struct EndedRow<T> {
    closed: Closed<Option<T>, Global>,
    locks: usize,
    ghost slots: { slots_len closed.slots ≡ place locks },
    ghost fits: { place locks < 2 ^ 64 },
    ghost between: { (k : ℕ) → k < slots_len closed.slots → k % STRIDE ≢ 0 →
        slice_index_or (slots_filled closed.slots) k false ≡ false },
}

impl<T: Drop> EndedRow<T> {
    ghost use Rattle.inst_row.specs.Ended.{Lies, IsOut, OthersStay, locks_of};

    /// Empties the slots between those of the locks, so that only the values are left.
    pub(crate) fn of(mut closed: Closed<Option<T>, Global>, locks: usize) -> EndedRow<T>
        requires slots { slots_len closed.slots ≡ place locks }
        requires full { IsFull closed.slots }
        ensures locks { locks_of result ≡ locks }
        ensures items { slots_items result.closed.slots ≡ slots_items closed.slots }
        ensures there { (p : ℕ) → p < locks →
            slice_index_or (slots_filled result.closed.slots) (place p) false ≡ true }
    {
        for slot in 0..closed.slot_count() {
            if slot % STRIDE != 0 {
                drop(closed.take(slot));
            }
        }
        EndedRow { closed, locks }
    }

    /// Returns the number of locks that the row had.
    pub fn len(&self) -> usize
        ensures { result ≡ locks_of self.now }
    {
        self.locks
    }

    /// Takes out the value of the lock.
    pub fn take(&mut self, lock: usize) -> T
        requires lock { lock < locks_of self.old }
        requires lies { (x : T) × Lies lock x self.old }
        ensures value { Lies lock result self.old }
        ensures out { IsOut lock self.new }
        ensures others { OthersStay lock self.old self.new }
    {
        let Some(value) = self.closed.take(lock * STRIDE) else {
            unreachable!()
        };
        value
    }

    /// Frees the memory, once every value is taken out.
    pub fn free(self)
        requires out { (p : ℕ) → p < locks_of self → IsOut p self }
    {
        let EndedRow { closed, locks: _ } = self;
        closed.free();
    }
}
