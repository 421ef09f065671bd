//! Seats.
use crate::view::RowView;
use atomic_table::Seat;

/// One caller's access to a row of locks. It knows the histories that it found and left; with at
/// least one part it may take a lock.
#[derive(Drop)]
pub struct RowSeat<T, E, K> {
    pub(crate) seat: Seat<Option<T>, RowView<E, K>>,
}
