//! Repeats of kept commands, and the keys that a history has.
ghost use Rattle.std.specs.Prelude.{◌≡◌};
ghost use Rattle.inst_journal.specs.Keys.{is_fund_repeat, is_defund_repeat, is_this_submission};
ghost use Rattle.inst_journal.specs.Keys.{is_submission_repeat};
ghost use Rattle.inst_journal.specs.Keys.{refers, has_reference, fundings};

use crate::Event;
use crate::opened::current;
use inst_base::Ident;
use inst_command::{Funding, Submission};

/// Returns `true` if the history has exactly this funding.
pub(crate) fn is_fund_repeat(events: &[Event], funding: &Funding) -> bool
    ensures { result ≡ is_fund_repeat funding.now events.now }
{
    events.iter().any(|event| matches!(event, Event::Funded(other) if other == funding))
}

/// Returns `true` if the history has exactly this defunding.
pub(crate) fn is_defund_repeat(events: &[Event], funding: &Funding) -> bool
    ensures { result ≡ is_defund_repeat funding.now events.now }
{
    events.iter().any(|event| matches!(event, Event::Defunded(other) if other == funding))
}

/// Returns `true` if the history has exactly this submission.
pub(crate) fn is_submission_repeat(events: &[Event], submission: &Submission) -> bool
    ensures { result ≡ is_submission_repeat submission.now events.now }
{
    events
        .iter()
        .any(|event| is_this_submission(event, submission))
}

/// Returns `true` if the event is exactly this submission.
fn is_this_submission(event: &Event, submission: &Submission) -> bool
    ensures { result ≡ is_this_submission submission.now event.now }
{
    match *event {
        Event::Taken {
            id,
            to,
            cents,
            stamp,
        } => {
            id == submission.id
                && to == submission.to
                && cents == submission.cents
                && stamp == submission.stamp
        }
        _ => false,
    }
}

/// Returns `true` if a fund or defund command of the history has this reference.
pub(crate) fn has_reference(events: &[Event], reference: &Ident) -> bool
    ensures { result ≡ has_reference reference.now events.now }
{
    events.iter().any(|event| refers(event, reference))
}

/// Returns `true` if the event is a fund or defund command with this reference.
fn refers(event: &Event, reference: &Ident) -> bool
    ensures { result ≡ refers reference.now event.now }
{
    match event {
        Event::Funded(funding) | Event::Defunded(funding) => funding.reference == *reference,
        _ => false,
    }
}

/// Returns the number of fund and defund commands since the last opening.
pub(crate) fn fundings(events: &[Event]) -> usize
    ensures { result ≡ fundings events.now }
{
    current(events)
        .iter()
        .filter(|event| matches!(event, Event::Funded(_) | Event::Defunded(_)))
        .count()
}
