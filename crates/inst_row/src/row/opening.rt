//! Opening a row of locks.
ghost use Rattle.std.specs.Prelude.{◌≡◌, ℕ, ◌<◌, length, slice_get, slice_index_or, Some, None};
ghost use Rattle.std.specs.Prelude.{IfOk};
ghost use Rattle.inst_row.specs.Seated.{IsOn, HasAll, view_of};
ghost use Rattle.inst_row.specs.Row.{row_id, key_of, size};
ghost use Rattle.inst_row.specs.Place.{place};
ghost use Rattle.inst_row.specs.View.{fronts_of};
ghost use Rattle.inst_row.specs.declared.row.TheConstants.{MOST_SEATS};

use super::{LockRow, STRIDE};
use crate::lawful::Lawful;
use crate::row_start::RowStart;
use crate::seat::RowSeat;
use atomic_table::Table;
use std::alloc::{AllocError, Global};
use std::snapshot::Snapshot;

impl<T: Drop, E, K, L: Lawful<T, E, K>> LockRow<T, E, K, L> {
    /// Opens a row over these values, and returns it with a seat that has all parts and has seen
    /// the history of each value.
    ///
    /// Each value must be there and keep its law. The row has 8 words and 8 slots for each value.
    ///
    /// # Errors
    ///
    /// [`AllocError`] if the row can't be allocated; the values are dropped.
    pub fn open(
        alloc: Global,
        values: Vec<Option<T>>,
        about: &K,
    ) -> Result<(LockRow<T, E, K, L>, RowSeat<T, E, K>), AllocError>
        requires values { (p : ℕ) → p < length values.items →
            (x : T) × (slice_get values.items p ≡ Some (Some x)) × L.law about.now p x }
        ensures row { IfOk result (λ r. (size r.0 ≡ length values.items)
            × (key_of r.0 ≡ about.now)) }
        ensures seat { IfOk result (λ r. IsOn (row_id r.0) about.now r.1 × HasAll r.1) }
        ensures parts { IfOk result (λ r. (view_of r.1).parts ≡ MOST_SEATS) }
        ensures seen { IfOk result (λ r.
            (view_of r.1).fronts ≡ fronts_of L.history 0 values.items) }
    {
        let locks = values.len();
        let Some(places) = locks.checked_mul(STRIDE) else {
            return Err(AllocError);
        };
        let words = vec![in alloc; 0; places]?;
        let key = RowStart {
            about: Snapshot::of(about),
            values: Snapshot::of(&values),
        };
        let slots = spread(alloc, values, places)?;
        match Table::new(alloc, words.as_slice(), slots, &key) {
            Ok((table, seat)) => Ok((LockRow { table, locks }, RowSeat { seat })),
            Err(_) => Err(AllocError),
        }
    }

    /// Returns the number of locks.
    pub fn len(&self) -> usize
        ensures { result ≡ size self.now }
    {
        self.locks
    }
}

/// Puts each value into the slot of its lock, and nothing into the slots between.
fn spread<T: Drop>(
    alloc: Global,
    mut values: Vec<Option<T>>,
    places: usize,
) -> Result<Vec<Option<T>>, AllocError>
    requires { places ≡ place (length values.items) }
    ensures len { IfOk result (λ slots. length slots.items ≡ places) }
    ensures values { IfOk result (λ slots. (p : ℕ) → p < length values.items →
        slice_index_or slots.items (place p) None ≡ slice_index_or values.items p None) }
{
    let mut slots = Vec::with_capacity(alloc, places)?;
    slots.resize_with(places, || None)?;
    while let Some(value) = values.pop() {
        slots[values.len() * STRIDE] = value;
    }
    Ok(slots)
}
