//! Boards of one hub that share or unite what they know.
ghost use Rattle.std.specs.Prelude.{◌≡◌};
ghost use Rattle.inst_cell.specs.Held.{view_of, Stays, AtOneTable};
ghost use Rattle.inst_cell.specs.Meeting.{KnowsBoth, KnowsTruth, Vouches, HasRolesOfBoth};

use super::SharedBoard;
use crate::steps::{Tell, Unite, Vouching};

impl SharedBoard {
    /// Lets each of two boards know what either knew.
    ///
    /// A board already knew what the other knew of the openings of its own places, and of its own
    /// participants' answers (`Vouches`). Costs one atomic load for each board.
    pub fn meet(&mut self, other: &mut SharedBoard)
        requires one { AtOneTable self.old other.old }
        ensures mine { KnowsBoth self.old other.old self.new }
        ensures yours { KnowsBoth self.old other.old other.new }
        ensures truly { KnowsTruth self.new × KnowsTruth other.new }
        ensures vouches { Vouches self.old other.old × Vouches other.old self.old }
        ensures stays { Stays self.old self.new × Stays other.old other.new }
    {
        self.inform(other);
        other.inform(self);
    }

    /// Unites two boards into one, with the roles and the knowledge of both.
    ///
    /// Each already knew what the other knew of the openings of its own places, and of its own
    /// participants' answers (`Vouches`).
    pub fn join(&mut self, other: SharedBoard)
        requires one { AtOneTable self.old other }
        ensures both { KnowsBoth self.old other self.new }
        ensures truly { KnowsTruth self.new }
        ensures vouches { Vouches self.old other × Vouches other self.old }
        ensures roles { HasRolesOfBoth self.old other self.new }
        ensures one { AtOneTable self.old self.new }
    {
        let mut other = other;
        self.meet(&mut other);
        let SharedBoard { seat, .. } = other;
        let shared = &self.table.shared;
        shared.join_seat::<Unite>(&mut self.seat, seat);
        shared.load::<Vouching>(&mut self.seat, 5);
    }

    /// Lets the other board know what this one knows.
    pub(crate) fn inform(&mut self, other: &mut SharedBoard)
        requires one { AtOneTable self.old other.old }
        ensures yours { KnowsBoth self.old other.old other.new }
        ensures truly { KnowsTruth other.new }
        ensures vouches { Vouches other.old self.old }
        ensures stays { Stays self.old self.new × Stays other.old other.new }
        ensures same { view_of self.new ≡ view_of self.old }
        ensures own { (view_of other.new).facts ≡ (view_of other.old).facts }
    {
        let shared = &self.table.shared;
        let copy = shared.split_seat::<Tell>(&mut self.seat);
        shared.join_seat::<Unite>(&mut other.seat, copy);
        other.table.shared.load::<Vouching>(&mut other.seat, 5);
    }
}
