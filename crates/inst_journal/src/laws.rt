//! The laws of a participant's books. Each is a function without a body whose contract is the law,
//! so the verifier proves it.
ghost use Rattle.inst_journal.specs.Laws.{NothingIsOverdrawn, EachTakenAmountIsInOnePlace};
ghost use Rattle.inst_journal.specs.Laws.{AnOwnBookingHasTheOwnNumber};
ghost use Rattle.inst_journal.specs.Laws.{ATakenAmountIsWhereItIsBooked};
ghost use Rattle.inst_journal.specs.Laws.{ATransferIsBookedOnce, WhatIsKeptFits};
ghost use Rattle.inst_journal.specs.Pages.{AnInboxIsInOrderOfArrival, AFetchHandsOutTheNextPage};
ghost use Rattle.inst_journal.specs.Repeats.{ARepeatIsTheVerySame, ARepeatIsAnsweredAgain};
ghost use Rattle.inst_journal.specs.Repeats.{WhatIsToldIsKept, AKeyIsKeptOnce};
ghost use Rattle.inst_journal.specs.Taking.{ACommandIsKeptWhereItMay};
ghost use Rattle.inst_journal.specs.Answering.{APartyIsToldTheOutcome, OthersAreToldNothing};
ghost use Rattle.inst_journal.specs.Lines.{LinesCountFromOne, AnOpeningBeginsAStatement};
ghost use Rattle.inst_journal.specs.Lines.{AStatementLeadsToThePosition, AStatementIsReadByParts};
ghost use Rattle.inst_journal.specs.Lines.{ALineTellsAnEvent};
ghost use Rattle.inst_journal.specs.Living.{TheLiveHavePlaces, AnOpeningKeepsTheBooks};
ghost use Rattle.inst_journal.specs.Living.{AnOpeningGivesBack};

/// Neither the position nor what is available is ever below 0.
pub fn nothing_is_overdrawn()
    ensures { NothingIsOverdrawn }
{}

/// The amount of a taken transfer is reserved, debited or released, and only one of them.
pub fn each_taken_amount_is_in_one_place()
    ensures { EachTakenAmountIsInOnePlace }
{}

/// A participant books the outcome of its own transfer under its own number.
pub fn an_own_booking_has_the_own_number()
    ensures { AnOwnBookingHasTheOwnNumber }
{}

/// The amount of a taken transfer is reserved until an outcome is booked, then debited if it is
/// accepted and free otherwise.
pub fn a_taken_amount_is_where_it_is_booked()
    ensures { ATakenAmountIsWhereItIsBooked }
{}

/// A history books a transfer at most once.
pub fn a_transfer_is_booked_once()
    ensures { ATransferIsBookedOnce }
{}

/// The event that a command adds leaves a sound history sound.
pub fn what_is_kept_fits()
    ensures { WhatIsKeptFits }
{}

/// The pages of an inbox, joined, are the arrivals in order. A fetch of at least one returns an
/// empty page only at their end.
pub fn an_inbox_is_read_in_order()
    ensures arrivals { AnInboxIsInOrderOfArrival }
    ensures pages { AFetchHandsOutTheNextPage }
{}

/// A repeat is a command all of whose contents are kept. It gets its reply again at any clock
/// reading and whatever is full or short, and adds no event.
pub fn a_repeat_is_answered_again()
    ensures same { ARepeatIsTheVerySame }
    ensures answered { ARepeatIsAnsweredAgain }
{}

/// The replies `Done` and `Taken` are given exactly if the history afterwards has the command's
/// event.
pub fn what_is_told_is_kept()
    ensures { WhatIsToldIsKept }
{}

/// A submission is taken, and a fund or defund command done anew, exactly if nothing speaks against
/// it: the key is new, a place or funding is free, and the amount of a submission or defunding is
/// available. A submission also needs another participant, a clock reading before its deadline, and
/// a time stamp within the tolerated skew.
pub fn a_command_is_kept_where_it_may()
    ensures { ACommandIsKeptWhereItMay }
{}

/// A beneficiary that confirms or rejects a forwarded transfer, and an originator that investigates
/// its own, gets the outcome that it has booked; else it gets the one that is found, and books it.
/// Other participants are refused.
pub fn a_party_is_told_the_outcome()
    ensures party { APartyIsToldTheOutcome }
    ensures others { OthersAreToldNothing }
{}

/// A funding reference is kept at most once, and so is the identifier of an own transfer.
pub fn a_key_is_kept_once()
    ensures { AKeyIsKeptOnce }
{}

/// The lines of a statement are numbered from 1 since the last opening, and lead from the position
/// then to the present one.
pub fn a_statement_leads_to_the_position()
    ensures numbers { LinesCountFromOne }
    ensures anew { AnOpeningBeginsAStatement }
    ensures positions { AStatementLeadsToThePosition }
    ensures parts { AStatementIsReadByParts }
{}

/// A line states a funding, a defunding or an accepted transfer that the books have, with the other
/// participant, the key and the amount.
pub fn a_line_tells_an_event()
    ensures { ALineTellsAnEvent }
{}

/// A transfer without a booked outcome is live, and an originator has no more live transfers than
/// places.
pub fn the_live_have_places()
    ensures { TheLiveHavePlaces }
{}

/// An opening leaves the money and the keys unchanged. A booked transfer is no longer live, and all
/// fundings are free again.
pub fn an_opening_keeps_the_books()
    ensures keeps { AnOpeningKeepsTheBooks }
    ensures gives_back { AnOpeningGivesBack }
{}
