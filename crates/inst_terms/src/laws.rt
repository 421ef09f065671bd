//! The laws of a place's words. Each is a function without a body whose contract is the law, so the
//! verifier proves it.
ghost use Rattle.inst_terms.specs.Laws.{DifferentTermsHaveDifferentWords};
ghost use Rattle.inst_terms.specs.Laws.{DifferentWordsHaveDifferentNumbers};
ghost use Rattle.inst_terms.specs.Laws.{OneDecidedWord, OneDeadline, NothingSeenGoesBack};
ghost use Rattle.inst_terms.specs.Laws.{EachDecidedWordIsInTime, WhatIsInTime};
ghost use Rattle.inst_terms.specs.Laws.{EachOutcomeInTimeMayStand, WhatIsSeen};
ghost use Rattle.inst_terms.specs.Rows.{WordsOfTheFormat};

/// Different terms have different words.
pub fn different_terms_have_different_words()
    ensures { DifferentTermsHaveDifferentWords }
{}

/// Different outcome words have different numbers.
pub fn different_words_have_different_numbers()
    ensures { DifferentWordsHaveDifferentNumbers }
{}

/// Among all its words a place has at most one decided word.
pub fn one_decided_word()
    ensures { OneDecidedWord }
{}

/// The deadline of a place never changes.
pub fn one_deadline()
    ensures { OneDeadline }
{}

/// The state that a word of a place shows never goes back.
pub fn nothing_seen_goes_back()
    ensures { NothingSeenGoesBack }
{}

/// A place is accepted more than the margin before its deadline, rejected before its deadline, and
/// timed out at it or after it.
pub fn each_outcome_is_in_time()
    ensures { EachDecidedWordIsInTime }
{}

/// An acceptance is in time more than the margin before the deadline, a rejection before the
/// deadline, and a time-out at it or after it.
pub fn what_is_in_time()
    ensures { WhatIsInTime }
{}

/// A place may get each outcome that is in time, and keep it.
pub fn each_outcome_in_time_may_stand()
    ensures { EachOutcomeInTimeMayStand }
{}

/// States are ordered: unused, pending, decided. A decided state is followed only by itself, and a
/// word shows its own state.
pub fn what_is_seen()
    ensures { WhatIsSeen }
{}

/// The worked values of the format, computed. This crate's README has them as a table.
pub fn words_of_the_format()
    ensures { WordsOfTheFormat }
{}
