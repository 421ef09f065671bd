//! Laws of books over one board. A function without a body states the law in its contract, and the
//! verifier proves it.
ghost use Rattle.inst_participant.specs.Together.{TogetherTheyFit, SettledBooksAreClosed};
ghost use Rattle.inst_participant.specs.InTheBooks.{WhatIsKnownIsTold};
ghost use Rattle.inst_participant.specs.Wider.{ClosedBooksStayClosedWider, ClosedBooksOpenNext};
ghost use Rattle.inst_participant.specs.Wider.{ClosedBooksOpenWider};

use inst_board::Board;

/// Proves that the books of a hub's participants fit each other if all are lawful over one board.
pub fn together_books_fit<B: Board>()
    ensures { TogetherTheyFit B.settings B.knows B.has_role }
{}

/// Proves that such books are closed once each participant has booked every known outcome and
/// received every pending transfer.
pub fn settled_books_are_closed<B: Board>()
    ensures { SettledBooksAreClosed B.settings B.knows B.has_role }
{}

/// Proves that settled books have all that the board knows of a place that it knows to be opened.
pub fn what_is_known_is_told<B: Board>()
    ensures { WhatIsKnownIsTold B.settings B.knows B.has_role }
{}

/// Proves that closed books can be opened from, up to 500 times, also if participants join after
/// the existing ones.
pub fn closed_books_open()
    ensures wider { ClosedBooksStayClosedWider }
    ensures next { ClosedBooksOpenNext }
    ensures open_wider { ClosedBooksOpenWider }
{}
