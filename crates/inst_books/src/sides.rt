//! Comparing both sides of each transfer.
ghost use Rattle.std.specs.Prelude.{◌≡◌, ◌↔◌, ◌≤◌, ℕ, IsTrue, length};
ghost use Rattle.std.specs.List.{All};
ghost use Rattle.inst_base.specs.TimeLimit.{deadline_of};
ghost use Rattle.inst_journal.specs.Booked.{first_some, booked};
ghost use Rattle.inst_ledger.specs.Kept.{sending_of, forwarding_of};
ghost use Rattle.inst_books.specs.inner.Agreeing.{IsReleased, IsReceived, IsSent, Agrees};
ghost use Rattle.inst_books.specs.inner.Agreeing.{ledger_histories};

use inst_base::{Cents, Ident, Moment, mention};
use inst_command::Outcome;
use inst_journal::Event;
use inst_ledger::{Forwarding, Ledger, Sending};

/// Returns `true` for an outcome that releases the amount.
fn is_released(outcome: &Option<Outcome>) -> bool
    ensures { IsTrue result ↔ IsReleased outcome.now }
{
    matches!(outcome, Some(Outcome::Rejected(_) | Outcome::TimedOut))
}

/// Returns `true` if both sides have booked the same outcome, or neither has one.
fn is_same(one: &Option<Outcome>, other: &Option<Outcome>) -> bool
    ensures { IsTrue result ↔ (one.now ≡ other.now) }
{
    one == other
}

/// Returns `true` if a transfer with this time stamp has this deadline.
fn is_deadline(stamp: Moment, limit: u32, deadline: Moment) -> bool
    ensures { IsTrue result ↔ (deadline_of limit stamp ≡ deadline) }
{
    deadline.past_base() == stamp.past_base() + u64::from(limit)
}

/// Returns `true` if the forwarding agrees with the submission, and the outcome booked `there` with
/// the originator's, `here`.
fn is_received(
    came: &Option<Forwarding>,
    sent: &Sending,
    limit: u32,
    here: &Option<Outcome>,
    there: &Option<Outcome>,
) -> bool
    ensures { IsTrue result ↔
        IsReceived sent.now.cents (deadline_of limit sent.now.stamp) here.now there.now came.now }
{
    match came {
        Some(forwarding) => {
            forwarding.cents == sent.cents
                && is_deadline(sent.stamp, limit, forwarding.deadline)
                && is_same(there, here)
        }
        None => is_released(here),
    }
}

/// Returns `true` if the submission agrees with the transfer forwarded to the beneficiary `to`.
fn is_sent(sent: &Option<Sending>, limit: u32, to: u8, cents: Cents, deadline: Moment) -> bool
    ensures { IsTrue result ↔ IsSent limit to cents deadline sent.now }
{
    match sent {
        Some(sending) => {
            sending.to == to
                && sending.cents == cents
                && is_deadline(sending.stamp, limit, deadline)
        }
        None => false,
    }
}

/// Returns the details of the transfer as it was forwarded to participant `who`.
fn forwarding(ledgers: &[Ledger], who: u8, from: u8, id: &Ident) -> Option<Forwarding>
    ensures { result
        ≡ first_some (forwarding_of (from, id.now)) (ledger_histories ledgers.now who) }
{
    ledgers.get(usize::from(who))?.forwarding(from, id)
}

/// Returns the details of the transfer as participant `who` submitted it.
fn sending(ledgers: &[Ledger], who: u8, id: &Ident) -> Option<Sending>
    ensures { result ≡ first_some (sending_of id.now) (ledger_histories ledgers.now who) }
{
    ledgers.get(usize::from(who))?.sending(id)
}

/// Returns the outcome that participant `who` has booked for the transfer.
fn booked(ledgers: &[Ledger], who: u8, from: u8, id: &Ident) -> Option<Outcome>
    ensures { result ≡ booked from id.now (ledger_histories ledgers.now who) }
{
    ledgers.get(usize::from(who))?.booked(from, id)
}

/// Returns `true` if an event of participant `who` agrees with the other side. Makes at most three
/// table lookups.
fn agrees(ledgers: &[Ledger], limit: u32, who: u8, event: &Event) -> bool
    ensures { IsTrue result ↔ Agrees limit (ledger_histories ledgers.now) who event.now }
{
    match event {
        Event::Taken {
            id,
            to,
            cents,
            stamp,
        } => is_received(
            &forwarding(ledgers, *to, who, id),
            &Sending {
                to: *to,
                cents: *cents,
                stamp: *stamp,
            },
            limit,
            &booked(ledgers, who, who, id),
            &booked(ledgers, *to, who, id),
        ),
        Event::Forwarded {
            from,
            id,
            cents,
            deadline,
        } => is_sent(&sending(ledgers, *from, id), limit, who, *cents, *deadline),
        Event::Funded(_)
        | Event::Defunded(_)
        | Event::Booked { .. }
        | Event::Fetched { .. }
        | Event::Opened => true,
    }
}

/// Returns `true` if each of these events of participant `who` agrees with the other side.
fn all_agree(ledgers: &[Ledger], limit: u32, who: u8, events: &[Event]) -> bool
    ensures { IsTrue result ↔ All (Agrees limit (ledger_histories ledgers.now) who) events.now }
{
    mention::<Outcome>();
    events
        .iter()
        .all(|event| agrees(ledgers, limit, who, event))
}

/// Returns `true` if the ledgers agree on each transfer, event by event.
pub(crate) fn books_agree(ledgers: &[Ledger], limit: u32) -> bool
    requires { length ledgers.now ≤ 256 }
    ensures { IsTrue result ↔
        ((p : ℕ) →
        All (Agrees limit (ledger_histories ledgers.now) p) (ledger_histories ledgers.now p)) }
{
    for (who, ledger) in ledgers.iter().enumerate() {
        if !all_agree(ledgers, limit, who as u8, ledger.journal().events()) {
            return false;
        }
    }
    true
}
