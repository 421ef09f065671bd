//! Laws of hubs over journals: functions without a body, whose contract is the law.
ghost use Rattle.inst_world.specs.NextOpening.{JournalsCanOpen};

/// Law: if books can be opened from, so can journals that have these books, one for each
/// participant in order, whatever the books say of other numbers.
pub fn journals_of_books_can_open()
    ensures { JournalsCanOpen }
{}
