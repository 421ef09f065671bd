//! Laws of books as text, and of a new chain: functions without a body, whose contract is the law.
ghost use Rattle.inst_books.specs.Laws.{AnEventReadsBack, AnEventIsAPlainLine, ALineTellsItsEvent};
ghost use Rattle.inst_books.specs.Laws.{ASoundHistoryCanBeWritten, BooksReadBack};
ghost use Rattle.inst_books.specs.Laws.{BooksArePlainLines, ATextTellsWhatItsLinesSay};
ghost use Rattle.inst_books.specs.Laws.{ATextTellsItsBooks};
ghost use Rattle.inst_books.specs.Positions.{NoOldSubmissionIsTaken};

/// The line of an event is read as the event, in the same book.
pub fn an_event_reads_back()
    ensures { AnEventReadsBack }
{}

/// The line of an event begins with a brace, and is printable ASCII without a newline.
pub fn an_event_is_a_plain_line()
    ensures { AnEventIsAPlainLine }
{}

/// Two events with the same line are the same, and of one book.
pub fn a_line_tells_its_event()
    ensures { ALineTellsItsEvent }
{}

/// A sound history of a participant can be written.
pub fn a_sound_history_can_be_written()
    ensures { ASoundHistoryCanBeWritten }
{}

/// The text of all books is read as the books.
pub fn books_read_back()
    ensures { BooksReadBack }
{}

/// Each line of books begins with a brace and is printable ASCII without a newline; a log of these
/// lines has them unescaped.
pub fn books_are_plain_lines()
    ensures { BooksArePlainLines }
{}

/// The books read from a text have what its lines say, even if lines of several books are mixed.
pub fn a_text_tells_what_its_lines_say()
    ensures { ATextTellsWhatItsLinesSay }
{}

/// Books with the same text are the same.
pub fn a_text_tells_its_books()
    ensures { ATextTellsItsBooks }
{}

/// A hub whose base is after the time stamps of other books takes none of their submissions again, at
/// any clock reading.
pub fn no_old_submission_is_taken()
    ensures { NoOldSubmissionIsTaken }
{}
