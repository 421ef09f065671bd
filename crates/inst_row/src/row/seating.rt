//! Splitting and joining seats.
ghost use Rattle.std.specs.Prelude.{◌≡◌, ◌+◌, ◌<◌};
ghost use Rattle.inst_row.specs.Seated.{IsOn, IsIdle, IsFree, HasJoined, HasMet, Halves};
ghost use Rattle.inst_row.specs.Row.{row_id, key_of, size};

use super::LockRow;
use crate::lawful::Lawful;
use crate::seat::RowSeat;
use crate::steps::{TellFront, UniteSeats};

impl<T, E, K, L: Lawful<T, E, K>> LockRow<T, E, K, L> {
    /// Splits off a new seat with one of the seat's parts. It has seen as much as the old seat.
    ///
    /// A seat without parts takes no lock until it is joined with another.
    pub fn split(&self, seat: &mut RowSeat<T, E, K>) -> RowSeat<T, E, K>
        requires some { 0 < size self.now }
        requires on { IsOn (row_id self.now) (key_of self.now) seat.old }
        requires free { IsFree seat.old }
        ensures on { IsOn (row_id self.now) (key_of self.now) seat.new
            × IsOn (row_id self.now) (key_of self.now) result }
        ensures halves { Halves seat.old seat.new result }
    {
        RowSeat {
            seat: self.table.shared.split_seat::<TellFront>(&mut seat.seat),
        }
    }

    /// Joins two seats into one that has the parts of both and has seen what either had seen.
    pub fn join(&self, seat: &mut RowSeat<T, E, K>, other: RowSeat<T, E, K>)
        requires some { 0 < size self.now }
        requires on { IsOn (row_id self.now) (key_of self.now) seat.old
            × IsOn (row_id self.now) (key_of self.now) other }
        requires idle { IsIdle seat.old × IsIdle other }
        ensures { HasJoined (row_id self.now) (key_of self.now) seat.old other seat.new }
    {
        let RowSeat { seat: other } = other;
        self.table
            .shared
            .join_seat::<UniteSeats>(&mut seat.seat, other);
    }

    /// Lets each of two seats see what either had seen. The seats keep their parts.
    pub fn meet(&self, one: &mut RowSeat<T, E, K>, two: &mut RowSeat<T, E, K>)
        requires some { 0 < size self.now }
        requires on { IsOn (row_id self.now) (key_of self.now) one.old
            × IsOn (row_id self.now) (key_of self.now) two.old }
        requires free { IsFree one.old × IsFree two.old }
        ensures one { HasMet (row_id self.now) (key_of self.now) one.old two.old one.new }
        ensures two { HasMet (row_id self.now) (key_of self.now) two.old one.old two.new }
    {
        let part = self.split(one);
        self.join(two, part);
        let part = self.split(two);
        self.join(one, part);
    }
}
