//! Submissions, confirmations, rejections and investigations.
ghost use Rattle.std.specs.Prelude.{◌≡◌, true, if◌then◌else◌};
ghost use Rattle.inst_base.specs.Moment.{is_moment};
ghost use Rattle.inst_base.specs.TimeLimit.{deadline_of};
ghost use Rattle.inst_journal.specs.Reply.{submit, state_reply, still_pending, answer_forwarded};
ghost use Rattle.inst_journal.specs.Reply.{confirm, reject, investigate};

use crate::Event;
use crate::booked::{booked, is_forwarded, is_taken, live_submissions};
use crate::handle::Handled;
use crate::keys::is_submission_repeat;
use crate::sums::available;
use inst_base::{Fault, Ident, Moment};
use inst_command::{Outcome, Reply, State, Submission};
use inst_settings::Settings;

/// Takes a submission and reserves its amount. Refuses, in this order: `SelfTransfer`, `Duplicate`,
/// `StampAhead`, `Expired`, `Full`, `Shortage`. A repeat is recognised before `Duplicate`.
pub(crate) fn submit(
    settings: &Settings,
    who: u8,
    events: &[Event],
    at: Moment,
    submission: &Submission,
) -> Result<Handled, Fault>
    requires { is_moment (deadline_of settings.now.limit submission.now.stamp) ≡ true }
    ensures { result ≡ submit settings.now who events.now at submission.now }
{
    let &Submission {
        id,
        to,
        cents,
        stamp,
    } = submission;
    let deadline = stamp.deadline(settings.limit());
    let reply = Reply::Taken { id, deadline };
    if to == who {
        return Err(Fault::SelfTransfer);
    }
    if is_submission_repeat(events, submission) {
        return Ok(Handled { reply, kept: None });
    }
    if is_taken(events, &id) {
        return Err(Fault::Duplicate);
    }
    if stamp.is_ahead(settings.ahead(), at) {
        return Err(Fault::StampAhead);
    }
    if at.is_due(deadline) {
        return Err(Fault::Expired);
    }
    if live_submissions(events, who) >= usize::from(settings.places()) {
        return Err(Fault::Full);
    }
    if u128::from(cents.get()) > available(events) {
        return Err(Fault::Shortage);
    }
    let event = Event::Taken {
        id,
        to,
        cents,
        stamp,
    };
    Ok(Handled {
        reply,
        kept: Some(event),
    })
}

/// Returns the reply with a transfer's state.
fn told(from: u8, id: Ident, state: State) -> Reply
    ensures { result ≡ Reply.State from id state }
{
    Reply::State { from, id, state }
}

/// Replies that the transfer is pending, and adds no event; doesn't allocate.
pub fn still_pending(from: u8, id: Ident) -> Result<Handled, Fault>
    ensures { result ≡ still_pending from id }
{
    Ok(Handled {
        reply: told(from, id, State::Pending),
        kept: None,
    })
}

/// Returns the reply to a party that has booked the outcome `known` and finds the outcome `found`.
///
/// It is `pending` if there is neither; else the outcome, `known` before `found`, and a found
/// outcome is booked if there is no known one. Doesn't allocate.
pub fn standing(
    from: u8,
    id: Ident,
    pending: Result<Handled, Fault>,
    known: Option<Outcome>,
    found: Option<Outcome>,
) -> Result<Handled, Fault>
    ensures { result ≡ state_reply from id pending known found }
{
    let is_new = known.is_none();
    match known.or(found) {
        None => pending,
        Some(outcome) => Ok(decided(from, id, is_new, &outcome)),
    }
}

/// Returns the reply with the outcome and, if it is new, the event that books it.
fn decided(from: u8, id: Ident, is_new: bool, outcome: &Outcome) -> Handled
    ensures reply { result.reply ≡ Reply.State from id (State.Decided outcome.now) }
    ensures kept { result.kept
        ≡ (if is_new then Some (Event.Booked from id outcome.now) else None) }
{
    let reply = told(from, id, State::Decided(*outcome));
    if !is_new {
        return Handled { reply, kept: None };
    }
    let event = Event::Booked {
        from,
        id,
        outcome: *outcome,
    };
    Handled {
        reply,
        kept: Some(event),
    }
}

/// Books the outcome that is found of a forwarded transfer; replies `pending` without an outcome.
/// Refuses `UnknownTransfer` if the transfer wasn't forwarded.
fn answer_forwarded(
    events: &[Event],
    from: u8,
    id: Ident,
    pending: Result<Handled, Fault>,
    found: Option<Outcome>,
) -> Result<Handled, Fault>
    ensures { result ≡ answer_forwarded events.now from id pending found }
{
    if !is_forwarded(events, from, &id) {
        return Err(Fault::UnknownTransfer);
    }
    standing(from, id, pending, booked(events, from, &id), found)
}

/// Books the outcome that is found of a forwarded transfer. Refuses `Expired` without one: the
/// confirmation was then read in the margin before the deadline.
pub(crate) fn confirm(
    events: &[Event],
    from: u8,
    id: Ident,
    found: Option<Outcome>,
) -> Result<Handled, Fault>
    ensures { result ≡ confirm events.now from id found }
{
    answer_forwarded(events, from, id, Err(Fault::Expired), found)
}

/// Books the outcome that is found of a forwarded transfer.
pub(crate) fn reject(
    events: &[Event],
    from: u8,
    id: Ident,
    found: Option<Outcome>,
) -> Result<Handled, Fault>
    ensures { result ≡ reject events.now from id found }
{
    answer_forwarded(events, from, id, still_pending(from, id), found)
}

/// Books the outcome that is found of a taken transfer. Refuses `UnknownTransfer` if it wasn't
/// taken.
pub(crate) fn investigate(
    who: u8,
    events: &[Event],
    id: Ident,
    found: Option<Outcome>,
) -> Result<Handled, Fault>
    ensures { result ≡ investigate who events.now id found }
{
    if !is_taken(events, &id) {
        return Err(Fault::UnknownTransfer);
    }
    standing(
        who,
        id,
        still_pending(who, id),
        booked(events, who, &id),
        found,
    )
}
