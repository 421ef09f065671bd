//! The kinds of step on the shared words. Each type's contract says what the seat that takes the
//! step learns.
use crate::View;
use atomic_table::{Join, Play, Split};

/// A load of an outcome word.
pub struct Loading;

impl Play<(), View> for Loading {
    ghost use Rattle.inst_cell.specs.Steps.{loads};

    ghost then = { loads };
}

/// A load of a terms word.
pub struct LoadingTerm;

impl Play<(), View> for LoadingTerm {
    ghost use Rattle.inst_cell.specs.Steps.{loads_term};

    ghost then = { loads_term };
}

/// A load that shows that all the seat knows is true of the words. Its value is not used.
pub struct Vouching;

impl Play<(), View> for Vouching {
    ghost use Rattle.inst_cell.specs.Steps.{vouches};

    ghost then = { vouches };
}

/// A store of a terms word.
pub struct Noting;

impl Play<(), View> for Noting {
    ghost use Rattle.inst_cell.specs.Steps.{notes_term};

    ghost then = { notes_term };
}

/// The store of an outcome word that opens a place.
pub struct PlaceOpening;

impl Play<(), View> for PlaceOpening {
    ghost use Rattle.inst_cell.specs.Steps.{opens};

    ghost then = { opens };
}

/// The compare-exchange that accepts, rejects or times out.
pub struct Deciding;

impl Play<(), View> for Deciding {
    ghost use Rattle.inst_cell.specs.Steps.{decides_word};

    ghost then = { decides_word };
}

/// The split that moves a seat's first role to a new seat, which knows as much.
pub struct HandOver;

impl Split<View> for HandOver {
    ghost use Rattle.inst_cell.specs.View.{without_role, with_role};

    ghost left = { without_role };

    ghost right = { with_role };
}

/// The split that makes a new seat without roles, which knows as much.
pub struct Tell;

impl Split<View> for Tell {
    ghost use Rattle.inst_cell.specs.View.{same_view, informed_view};

    ghost left = { same_view };

    ghost right = { informed_view };
}

/// The join of two seats into one with the roles and the knowledge of both.
pub struct Unite;

impl Join<View> for Unite {
    ghost use Rattle.inst_cell.specs.View.{united_view, nobody};

    ghost both = { united_view };

    ghost spent = { nobody };
}
