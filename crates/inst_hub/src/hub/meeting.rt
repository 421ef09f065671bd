//! Peeks, and tellers that share what they know.
ghost use Rattle.std.specs.Prelude.{◌≡◌, ◌≢◌};
ghost use Rattle.inst_command.specs.declared.outcome.Outcome.{Outcome};
ghost use Rattle.inst_command.specs.declared.outcome.State.TheVariants.{Unused};
ghost use Rattle.inst_command.specs.declared.outcome.State.TheVariants.{Decided as IsDecided};
ghost use Rattle.inst_board.specs.declared.about.About.TheVariants.{Opened, Decided};
ghost use Rattle.inst_board.specs.Standing.{about};
ghost use Rattle.inst_cell.specs.Seen.{Peeks};
ghost use Rattle.inst_hub.specs.declared.hub.Hub.{Hub};
ghost use Rattle.inst_hub.specs.Calls.{IsTellerOf, TellerKnowsMore, KnowBoth, knows_of};

use super::Hub;
use crate::teller::Teller;
use inst_cell::Ticket;
use inst_command::State;

impl Teller {
    /// Returns the transfer's current state, never an earlier one than this teller has seen.
    ///
    /// A ticket is valid while its hub is open; `Books::told` of `inst_close` returns its state
    /// afterwards. Reads the outcome word of the place. Doesn't block or allocate.
    pub fn peek(&mut self, ticket: &Ticket) -> State
        ensures peek { Peeks self.old.sight ticket.now result self.new.sight }
        ensures opened { knows_of self.old (about ticket.now Opened) → result ≢ Unused }
        ensures outcome { (o : Outcome) → knows_of self.old (about ticket.now (Decided o)) →
            result ≡ IsDecided o }
        ensures shown { (o : Outcome) → result ≡ IsDecided o →
            knows_of self.new (about ticket.now (Decided o)) }
        ensures of { (hub : Hub) → IsTellerOf hub self.old → IsTellerOf hub self.new }
        ensures knows { TellerKnowsMore self.old self.new }
    {
        self.sight.peek(ticket)
    }
}

impl Hub {
    /// Lets each of two tellers know what either knew, of places and of histories.
    ///
    /// Requires two tellers of this hub. Doesn't block or allocate.
    pub fn meet(&self, one: &mut Teller, two: &mut Teller)
        requires of { IsTellerOf self.now one.old × IsTellerOf self.now two.old }
        ensures of { IsTellerOf self.now one.new × IsTellerOf self.now two.new }
        ensures knows { KnowBoth one.old two.old one.new × KnowBoth two.old one.old two.new }
    {
        one.sight.meet(&mut two.sight);
        self.row.meet(&mut one.seat, &mut two.seat);
    }
}
