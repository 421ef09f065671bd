//! The laws of all participants together, over every list of steps, of any length and in any order.
//! Each is a function without a body whose contract is the law.
ghost use Rattle.inst_model.specs.Isolation.{EqualViewsGiveEqualReplies};
ghost use Rattle.inst_model.specs.OneOutcome.{AnsweredIsTheOutcome, BookedIsTheOutcome};
ghost use Rattle.inst_model.specs.OneOutcome.{OutcomeStays};
ghost use Rattle.inst_model.specs.Once.{MoneyIsSettledOnce};
ghost use Rattle.inst_model.specs.ClosedBooks.{ClosedBooksSumToTheNet};
ghost use Rattle.inst_model.specs.Conservation.{MoneyIsConserved};
ghost use Rattle.inst_model.specs.Locality.{OutcomeIsLocal};
ghost use Rattle.inst_model.specs.InTime.{EachOutcomeIsInTime};
ghost use Rattle.inst_model.specs.Deciders.{EachOutcomeIsAPartys};
ghost use Rattle.inst_model.specs.Learning.{LearningBooks, ExpiryBooks, AskingTells};
ghost use Rattle.inst_model.specs.Learning.{DeliveryForwards, NothingDecidedIsDelivered};
ghost use Rattle.inst_model.specs.Places.{PlacesName, IdentifiersName};
ghost use Rattle.inst_model.specs.SoundAndFit.{HistoriesAreSound, HistoriesFit};
ghost use Rattle.inst_model.specs.AtTheOpening.{AnOpeningBeginsFromItsBooks};
ghost use Rattle.inst_model.specs.LivePlaces.{TheLiveHaveTheirPlaces};
ghost use Rattle.inst_model.specs.BothSides.{TheLiveAreTheSameOnBothSides};
ghost use Rattle.inst_model.specs.BothSides.{AtAnOpeningTheLiveHaveCome};
ghost use Rattle.inst_model.specs.Closing.{ThereIsAClosing, ClosingCloses, ClosingDecidesNothing};
ghost use Rattle.inst_model.specs.Closing.{ClosingOnlyTells};
ghost use Rattle.inst_model.specs.Closing.{ClosingSettlesUp, ClosingAgainAddsNothing};
ghost use Rattle.inst_model.specs.Closing.{ClosingLeavesNothingToTell};
ghost use Rattle.inst_model.specs.Closing.{NothingLeftIsClosed};
ghost use Rattle.inst_model.specs.NextOpening.{ClosedBooksCanOpen, TheNextBeginsWithTheOutcomes};
ghost use Rattle.inst_model.specs.NextOpening.{AnOutcomeStaysOverTheNext, AHubOpensAgain};
ghost use Rattle.inst_model.specs.NextOpening.{AnOutcomeStaysForGood};
ghost use Rattle.inst_model.specs.StepByStep.{TheFirstThatWantsDecides, AViewGrowsByWhatIsSeen};
ghost use Rattle.inst_model.specs.StepByStep.{AtMostOneEntryIsSeen, RepliesAreInTheTrace};

/// The first step that gives a transfer an outcome decides it. A participant sees at most one entry
/// of a step. Each step has one answer.
pub fn the_hub_goes_step_by_step()
    ensures outcome { TheFirstThatWantsDecides }
    ensures view { AViewGrowsByWhatIsSeen }
    ensures entry { AtMostOneEntryIsSeen }
    ensures replies { RepliesAreInTheTrace }
{}

/// A participant that begins with the same history and sees the same in two interleavings gets the
/// same replies, history, money and statement.
pub fn equal_views_give_equal_replies()
    ensures { EqualViewsGiveEqualReplies }
{}

/// An outcome that a participant gets in a reply or has booked is the transfer's outcome, which
/// never changes.
pub fn a_transfer_has_one_outcome()
    ensures answered { AnsweredIsTheOutcome }
    ensures booked { BookedIsTheOutcome }
    ensures stays { OutcomeStays }
{}

/// An outcome is in time for the clock reading that decided it.
pub fn each_outcome_is_in_time()
    ensures { EachOutcomeIsInTime }
{}

/// Only the beneficiary's confirmation accepts a transfer, and only its rejection rejects it. A
/// transfer times out at a step of one of its parties.
pub fn each_outcome_is_a_partys()
    ensures { EachOutcomeIsAPartys }
{}

/// A party that learns of a decided transfer, asks for it or lets it expire has the outcome booked;
/// one that asks also gets it in the reply. A pending transfer that is delivered has come to its
/// beneficiary, and a decided one is not delivered.
pub fn what_is_decided_is_learnt()
    ensures learnt { LearningBooks }
    ensures expired { ExpiryBooks }
    ensures asked { AskingTells }
    ensures delivered { DeliveryForwards }
    ensures undelivered { NothingDecidedIsDelivered }
{}

/// A transfer's money is settled or released at most once.
pub fn money_is_settled_once()
    ensures { MoneyIsSettledOnce }
{}

/// Positions sum to the net funding plus what is untold, and no participant is overdrawn.
pub fn money_is_conserved()
    ensures { MoneyIsConserved }
{}

/// Each history is sound, and the histories fit each other.
pub fn histories_are_sound_and_fit()
    ensures sound { HistoriesAreSound }
    ensures fit { HistoriesFit }
{}

/// The outcome of a transfer depends only on the steps on it, whatever its place.
pub fn an_outcome_is_local()
    ensures { OutcomeIsLocal }
{}

/// A place and an identifier name the same live transfer, and a place keeps its transfer as long as
/// the hub is open.
pub fn a_name_is_for_good()
    ensures places { PlacesName }
    ensures identifiers { IdentifiersName }
{}

/// The positions of books that are sound and closed, however they came about, sum to the net
/// funding.
pub fn closed_books_sum_to_the_net()
    ensures { ClosedBooksSumToTheNet }
{}

/// A hub that is opened begins from its books: nothing is untold, each statement is empty, and the
/// money is that of the books.
pub fn an_opening_begins_from_its_books()
    ensures { AnOpeningBeginsFromItsBooks }
{}

/// The live transfers of an originator have places, and keep them until the hub closes.
pub fn the_live_have_their_places()
    ensures { TheLiveHaveTheirPlaces }
{}

/// A forwarded transfer is live on both sides or on neither. At an opening each live transfer is
/// forwarded and pending.
pub fn the_live_are_the_same_on_both_sides()
    ensures both { TheLiveAreTheSameOnBothSides }
    ensures at_an_opening { AtAnOpeningTheLiveHaveCome }
{}

/// A closing forwards and books all that is left, and decides nothing. Afterwards the books are
/// sound and closed.
pub fn a_closing_closes_the_books()
    ensures there_is_one { ThereIsAClosing }
    ensures closes { ClosingCloses }
    ensures decides_nothing { ClosingDecidesNothing }
    ensures only_tells { ClosingOnlyTells }
    ensures settles_up { ClosingSettlesUp }
    ensures again { ClosingAgainAddsNothing }
    ensures nothing_left { ClosingLeavesNothingToTell }
    ensures enough { NothingLeftIsClosed }
{}

/// Closed books can be opened again, up to 500 times, and an outcome stays through all openings.
pub fn closed_books_open_again()
    ensures opens { ClosedBooksCanOpen }
    ensures begins { TheNextBeginsWithTheOutcomes }
    ensures stays { AnOutcomeStaysOverTheNext }
    ensures again { AHubOpensAgain }
    ensures for_good { AnOutcomeStaysForGood }
{}
