//! The end of a row of locks.
ghost use Rattle.std.specs.Prelude.{◌≡◌, ℕ, ◌<◌};
ghost use Rattle.inst_row.specs.Ended.{Lies, locks_of};
ghost use Rattle.inst_row.specs.Seated.{IsOn, HasAll, HasSeen, GoesOn};
ghost use Rattle.inst_row.specs.Row.{row_id, key_of, size};

use super::LockRow;
use crate::ended::EndedRow;
use crate::lawful::Lawful;
use crate::seat::RowSeat;

impl<T: Drop, E, K, L: Lawful<T, E, K>> LockRow<T, E, K, L> {
    /// Ends the row and returns its values. The seat must have all parts.
    ///
    /// Each value is there and keeps its law. Its history is one that the seat has seen, and
    /// extends all that the seat has seen of it.
    pub fn take_apart(self, seat: RowSeat<T, E, K>) -> EndedRow<T>
        requires on { IsOn (row_id self) (key_of self) seat }
        requires all { HasAll seat }
        ensures enough { locks_of result ≡ size self }
        ensures values { (p : ℕ) → p < size self →
            (x : T) × Lies p x result × L.law (key_of self) p x × GoesOn p (L.history x) seat
            × HasSeen p (L.history x) seat }
    {
        let LockRow { table, locks } = self;
        let RowSeat { seat } = seat;
        EndedRow::of(table.close_with(seat), locks)
    }
}
