//! Laws of slots over boards: functions without a body, whose contract is the law.
ghost use Rattle.inst_slot.specs.Laws.{NewBooksAreLawful, AToldPlaceIsKnown, AnyMayOpenFirst};
ghost use Rattle.inst_slot.specs.Laws.{OthersMayOpen, LawfulWhereTheSameIsKnown};

use inst_board::Board;

/// Law: a board of which nothing is known is lawful for empty books.
pub fn new_books_are_lawful<B: Board>()
    ensures { NewBooksAreLawful B.settings B.knows B.has_role }
{}

/// Law: if `place_of` returns a place, the board's holder knows it as opened, with that identifier.
pub fn a_told_place_is_known<B: Board>()
    ensures { AToldPlaceIsKnown B.settings B.knows B.has_role }
{}

/// Law: over a board of which nothing is known, the books of any participant may be opened again.
pub fn any_may_open_first<B: Board>()
    ensures { AnyMayOpenFirst B.settings B.knows B.has_role }
{}

/// Law: after the books of one participant were opened again, those of another still may be.
pub fn others_may_open<B: Board>()
    ensures { OthersMayOpen B.settings B.knows B.has_role B.stays }
{}

/// Law: books that are lawful over one board are lawful over another, of any kind, whose holder has
/// the participant's role and knows the same.
pub fn books_are_lawful_where_the_same_is_known<B: Board, C: Board>()
    ensures { LawfulWhereTheSameIsKnown B.settings B.knows B.has_role C.settings C.knows C.has_role }
{}
