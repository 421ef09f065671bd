//! The plain sums over a history, in cents.
ghost use Rattle.std.specs.Prelude.{◌≡◌, ◌+◌, ◌*◌, ◌≤◌, length, sum_by, if◌then◌else◌};
ghost use Rattle.inst_base.specs.declared.cents.TheConstants.{MOST_CENTS};
ghost use Rattle.inst_journal.specs.Sums.{if_accepted, amount_unbooked, funding, defunding, credit};
ghost use Rattle.inst_journal.specs.Sums.{debit, reservation};
ghost use Rattle.inst_journal.specs.Sums.{funded, defunded, credits, debits};
ghost use Rattle.inst_journal.specs.Booked.{is_forwarding};
ghost use Rattle.inst_journal.specs.Keys.{is_funding};
ghost use Rattle.inst_journal.specs.Money.{reserved, position, available};

use crate::Event;
use crate::booked::{booked, own_booked};
use inst_base::Cents;
use inst_command::Outcome;

/// Returns the amount if the outcome is `Accepted`, else 0.
fn if_accepted(outcome: Option<Outcome>, cents: Cents) -> u64
    ensures value { result ≡ if_accepted outcome cents }
    ensures within { result ≤ MOST_CENTS }
{
    match outcome {
        Some(Outcome::Accepted) => cents.get(),
        _ => 0,
    }
}

/// Returns the amount if no outcome is booked, else 0.
fn if_unbooked(outcome: Option<Outcome>, cents: Cents) -> u64
    ensures value { result ≡ amount_unbooked outcome cents }
    ensures within { result ≤ MOST_CENTS }
{
    match outcome {
        None => cents.get(),
        Some(_) => 0,
    }
}

/// Returns what the event adds to the net funding.
fn funding(event: &Event) -> u64
    ensures value { result ≡ funding event.now }
    ensures within { result ≤ (if is_funding event.now then MOST_CENTS else 0) }
{
    match event {
        Event::Funded(funding) => funding.cents.get(),
        _ => 0,
    }
}

/// Returns what the event takes from the net funding.
fn defunding(event: &Event) -> u64
    ensures value { result ≡ defunding event.now }
    ensures within { result ≤ MOST_CENTS }
{
    match event {
        Event::Defunded(funding) => funding.cents.get(),
        _ => 0,
    }
}

/// Returns what the event credits: the amount of a forwarded transfer that is booked accepted.
fn credit(events: &[Event], event: &Event) -> u64
    ensures value { result ≡ credit events.now event.now }
    ensures within { result ≤ (if is_forwarding event.now then MOST_CENTS else 0) }
{
    match event {
        Event::Forwarded {
            from,
            id,
            cents,
            ..
        } => if_accepted(booked(events, *from, id), *cents),
        _ => 0,
    }
}

/// Returns what the event debits: the amount of a taken transfer that is booked accepted.
fn debit(events: &[Event], event: &Event) -> u64
    ensures value { result ≡ debit events.now event.now }
    ensures within { result ≤ MOST_CENTS }
{
    match event {
        Event::Taken { id, cents, .. } => if_accepted(own_booked(events, id), *cents),
        _ => 0,
    }
}

/// Returns what the event reserves: the amount of a taken transfer without a booked outcome.
fn reservation(events: &[Event], event: &Event) -> u64
    ensures value { result ≡ reservation events.now event.now }
    ensures within { result ≤ MOST_CENTS }
{
    match event {
        Event::Taken { id, cents, .. } => if_unbooked(own_booked(events, id), *cents),
        _ => 0,
    }
}

/// Returns the sum of all fundings.
pub(crate) fn funded(events: &[Event]) -> u128
    ensures value { result ≡ funded events.now }
    ensures within { result ≤ length events.now * MOST_CENTS }
    ensures counted { result ≤ sum_by (λ event. if is_funding event then MOST_CENTS
        else 0) events.now }
{
    let mut total = 0;
    for event in events {
        total += u128::from(funding(event));
    }
    total
}

/// Returns the sum of all defundings.
pub(crate) fn defunded(events: &[Event]) -> u128
    ensures value { result ≡ defunded events.now }
    ensures within { result ≤ length events.now * MOST_CENTS }
{
    let mut total = 0;
    for event in events {
        total += u128::from(defunding(event));
    }
    total
}

/// Returns the sum of the forwarded transfers that are booked accepted.
pub(crate) fn credits(events: &[Event]) -> u128
    ensures value { result ≡ credits events.now }
    ensures within { result ≤ length events.now * MOST_CENTS }
    ensures counted { result ≤ sum_by (λ event. if is_forwarding event then MOST_CENTS
        else 0) events.now }
{
    let mut total = 0;
    for event in events {
        total += u128::from(credit(events, event));
    }
    total
}

/// Returns the sum of the taken transfers that are booked accepted.
pub(crate) fn debits(events: &[Event]) -> u128
    ensures value { result ≡ debits events.now }
    ensures within { result ≤ length events.now * MOST_CENTS }
{
    let mut total = 0;
    for event in events {
        total += u128::from(debit(events, event));
    }
    total
}

/// Returns the sum of the taken transfers without a booked outcome.
pub(crate) fn reserved(events: &[Event]) -> u128
    ensures value { result ≡ reserved events.now }
    ensures within { result ≤ length events.now * MOST_CENTS }
{
    let mut total = 0;
    for event in events {
        total += u128::from(reservation(events, event));
    }
    total
}

/// Returns net funding and credits, less debits.
pub(crate) fn position(events: &[Event]) -> u128
    ensures value { result ≡ position events.now }
    ensures counted { result ≤ sum_by (λ event. if is_funding event then MOST_CENTS
        else 0) events.now
        + sum_by (λ event. if is_forwarding event then MOST_CENTS else 0) events.now }
{
    let came_in = funded(events) + credits(events);
    came_in.saturating_sub(defunded(events) + debits(events))
}

/// Returns the position less what is reserved.
pub(crate) fn available(events: &[Event]) -> u128
    ensures { result ≡ available events.now }
{
    position(events).saturating_sub(reserved(events))
}
