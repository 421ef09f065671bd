//! Laws about what two boards of one hub know.
ghost use Rattle.std.specs.Prelude.{◌≡◌};
ghost use Rattle.inst_command.specs.declared.outcome.Outcome.{Outcome};
ghost use Rattle.inst_board.specs.declared.about.About.TheVariants.{Decided};
ghost use Rattle.inst_board.specs.Standing.{about};
ghost use Rattle.inst_cell.specs.Held.{knows, Stays, AtOneTable};
ghost use Rattle.inst_cell.specs.Meeting.{KnowsBoth};

use crate::SharedBoard;
use inst_command::Place;

/// Proves that two boards of one table never know different outcomes of a place. At run time the
/// boards meet ([`SharedBoard::meet`]).
pub fn same_outcome(first: &mut SharedBoard, second: &mut SharedBoard, place: Place)
    requires one { AtOneTable first.old second.old }
    ensures same { (o z : Outcome) → knows first.old (about place (Decided o)) →
        knows second.old (about place (Decided z)) → o ≡ z }
    ensures both { KnowsBoth first.old second.old first.new
        × KnowsBoth first.old second.old second.new }
    ensures stays { Stays first.old first.new × Stays second.old second.new }
{
    first.meet(second);
}
