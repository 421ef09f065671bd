//! Reading a ticket's place, and sights that share what they know.
ghost use Rattle.std.specs.Prelude.{◌≡◌, ◌≢◌};
ghost use Rattle.inst_command.specs.declared.outcome.Outcome.{Outcome};
ghost use Rattle.inst_command.specs.declared.outcome.State.TheVariants.{Unused};
ghost use Rattle.inst_command.specs.declared.outcome.State.TheVariants.{Decided as IsDecided};
ghost use Rattle.inst_board.specs.declared.about.About.TheVariants.{Opened, Decided};
ghost use Rattle.inst_board.specs.Standing.{about};
ghost use Rattle.inst_cell.specs.Held.{Stays, AtOneTable};
ghost use Rattle.inst_cell.specs.Meeting.{KnowsBoth};
ghost use Rattle.inst_cell.specs.Seen.{board_of_sight, sight_knows, Peeks};

use super::Sight;
use crate::Ticket;
use inst_board::{Board, Look};
use inst_command::State;

impl Sight {
    /// Returns the state of the ticket's place, as its words show it now.
    ///
    /// Never returns less than the sight knows: not `Unused` if the place is known to be opened,
    /// and the outcome if one is known. The sight knows what it read from then on. Costs one atomic
    /// load, and five more if the place is opened.
    pub fn peek(&mut self, ticket: &Ticket) -> State
        ensures peek { Peeks self.old ticket.now result self.new }
        ensures opened { sight_knows self.old (about ticket.now Opened) → result ≢ Unused }
        ensures outcome { (o : Outcome) → sight_knows self.old (about ticket.now (Decided o)) →
            result ≡ IsDecided o }
        ensures shown { (o : Outcome) → result ≡ IsDecided o →
            sight_knows self.new (about ticket.now (Decided o)) }
        ensures stays { Stays (board_of_sight self.old) (board_of_sight self.new) }
    {
        match self.board.look(ticket.place()) {
            Look::Unused => State::Unused,
            Look::Pending(_, _) => State::Pending,
            Look::Decided(_, outcome) => State::Decided(outcome),
        }
    }

    /// Lets each of two sights know what either knew.
    pub fn meet(&mut self, other: &mut Sight)
        requires one { AtOneTable (board_of_sight self.old) (board_of_sight other.old) }
        ensures mine { KnowsBoth (board_of_sight self.old) (board_of_sight other.old)
            (board_of_sight self.new) }
        ensures yours { KnowsBoth (board_of_sight self.old) (board_of_sight other.old)
            (board_of_sight other.new) }
        ensures stays { Stays (board_of_sight self.old) (board_of_sight self.new)
            × Stays (board_of_sight other.old) (board_of_sight other.new) }
    {
        self.board.meet(&mut other.board);
    }

    /// Unites two sights into one that knows what both knew.
    pub fn join(&mut self, other: Sight)
        requires one { AtOneTable (board_of_sight self.old) (board_of_sight other) }
        ensures both { KnowsBoth (board_of_sight self.old) (board_of_sight other)
            (board_of_sight self.new) }
        ensures stays { Stays (board_of_sight self.old) (board_of_sight self.new) }
    {
        self.board.join(other.board);
    }
}
