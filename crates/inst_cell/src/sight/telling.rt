//! Knowledge that passes between a slot's board and a sight.
ghost use Rattle.std.specs.Prelude.{◌≡◌, ◌↔◌};
ghost use Rattle.inst_board.specs.declared.about.About.TheVariants.{Opened};
ghost use Rattle.inst_board.specs.declared.about.Fact.{Fact};
ghost use Rattle.inst_board.specs.Standing.{about};
ghost use Rattle.inst_cell.specs.Held.{knows, Stays, AtOneTable};
ghost use Rattle.inst_cell.specs.Meeting.{KnowsBoth, KnowsTruth, Vouches};
ghost use Rattle.inst_cell.specs.Seen.{board_of_sight};

use super::Sight;
use crate::{SharedBoard, Ticket};
use inst_command::Place;

impl SharedBoard {
    /// Lets the sight know all that the board knows, and returns a ticket that names the place.
    ///
    /// The board must know that the place is opened; the board's own knowledge is unchanged.
    pub fn tell(&mut self, sight: &mut Sight, place: Place) -> Ticket
        requires one { AtOneTable self.old (board_of_sight sight.old) }
        requires opened { knows self.old (about place Opened) }
        ensures told { KnowsBoth self.old (board_of_sight sight.old) (board_of_sight sight.new) }
        ensures same { (f : Fact) → knows self.new f ↔ knows self.old f }
        ensures stays { Stays self.old self.new
            × Stays (board_of_sight sight.old) (board_of_sight sight.new) }
        ensures ticket { result ≡ place }
    {
        self.inform(&mut sight.board);
        Ticket::of(place)
    }

    /// Lets the board know what the sight knew, and consumes the sight.
    ///
    /// The board already knew what the sight knew of the openings of the board's own places, and of
    /// its own participants' answers (`Vouches`).
    pub fn join_sight(&mut self, sight: Sight)
        requires one { AtOneTable self.old (board_of_sight sight) }
        ensures both { KnowsBoth self.old (board_of_sight sight) self.new }
        ensures truly { KnowsTruth self.new }
        ensures vouches { Vouches self.old (board_of_sight sight) }
        ensures stays { Stays self.old self.new }
    {
        self.join(sight.board);
    }
}
