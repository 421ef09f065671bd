//! The row of locks.
ghost use Rattle.std.specs.Prelude.{◌≡◌, ◌<◌, ◌^◌};
ghost use Rattle.inst_row.specs.Place.{place};

mod closing;
mod locking;
mod opening;
mod seating;

use crate::lawful::Lawful;
use crate::row_start::RowStart;
use crate::rule::Guarding;
use crate::view::RowView;
use atomic_table::Table;
use std::alloc::Global;

/// How many parts a row has, and so the most seats that can take its locks.
pub const MOST_SEATS: u64 = 16;

/// The words of 8 bytes in a cache line of 64. The words of two locks are this far apart, and so
/// are their slots: threads that take different locks would contend for a shared line.
pub(crate) const STRIDE: usize = 8;

/// Values behind locks, by number from 0. Threads share the row by reference, each with its own
/// [`RowSeat`].
///
/// `T` is a value, `E` an entry of its history, `K` the key that the row is opened with; `L` is the
/// law of the values. Only `open` allocates, and only `take` blocks.
///
/// ```text
/// let (row, mut seat) = LockRow::open(alloc, values, &about)?;
/// let mut value = row.take(rt, &mut seat, 3);
/// value.change();
/// row.give(&mut seat, 3, value);
/// ```
#[derive(Drop)]
pub struct LockRow<T, E, K, L: Lawful<T, E, K>> {
    table: Table<Option<T>, RowView<E, K>, RowStart<T, K>, Guarding<L>, Global>,
    locks: usize,
    ghost words: { table.shared.table_id.words ≡ place locks },
    ghost slots: { table.shared.table_id.slots ≡ place locks },
    ghost fits: { place locks < 2 ^ 64 },
}
