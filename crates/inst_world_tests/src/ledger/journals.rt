//! Journals without a ledger.
use crate::comparing::same;
use inst_base::{Cents, Fault, Ident, Moment};
use inst_command::{Funding, Outcome};
use inst_journal::{Event, Journal};
use std::process::Abort;

/// Checks that the journal and a copy of it have only this event.
fn has_one(rt: &impl Abort, journal: &Journal, event: Event) -> Result<(), Fault> {
    same(rt, journal.events(), [event].as_slice());
    same(rt, journal.copy()?.events(), [event].as_slice());
    Ok(())
}

/// Reserving capacity adds no event, and pushing adds one.
fn pushes_one(rt: &impl Abort, journal: &mut Journal) -> Result<(), Fault> {
    let funded = Event::Funded(Funding {
        reference: Ident::new("F1")?,
        cents: Cents::new(50_000)?,
    });
    same(rt, journal.events().len(), 0);
    journal.reserve()?;
    same(rt, journal.events().len(), 0);
    journal.push(funded)?;
    has_one(rt, journal, funded)
}

#[test]
fn reserves_and_pushes(rt: HostRuntime) -> Result<(), Fault> {
    let mut journal = Journal::new(rt.alloc());
    pushes_one(&rt, &mut journal)
}

#[test]
fn begins_empty_with_room(rt: HostRuntime) -> Result<(), Fault> {
    let mut journal = Journal::with_room(rt.alloc(), 3)?;
    pushes_one(&rt, &mut journal)
}

/// Returns the event that takes a transfer of 100 cents to participant 1.
fn taken(id: Ident) -> Result<Event, Fault> {
    Ok(Event::Taken {
        id,
        to: 1,
        cents: Cents::new(100)?,
        stamp: Moment::new(0, 1000)?,
    })
}

/// Returns six events of participant 0: its first transfer is settled before the hub opens again,
/// its third is taken afterwards. Participant 2 sends one with the identifier of the first.
fn events(ids: [Ident; 3]) -> Result<[Event; 6], Fault> {
    let [first, second, third] = ids;
    Ok([
        taken(first)?,
        taken(second)?,
        Event::Booked {
            from: 0,
            id: first,
            outcome: Outcome::Accepted,
        },
        Event::Opened,
        taken(third)?,
        Event::Forwarded {
            from: 2,
            id: first,
            cents: Cents::new(100)?,
            deadline: Moment::new(0, 1000)?,
        },
    ])
}

fn push_all(journal: &mut Journal, events: &[Event]) -> Result<(), Fault> {
    for event in events {
        journal.push(*event)?;
    }
    Ok(())
}

/// Checks that the journal has one opening, and that T2 and T3 are live.
fn has_two_live(rt: &impl Abort, journal: &Journal) {
    let openings = (journal.openings(), journal.has_openings_left());
    same(rt, openings, (1, true));
    same(rt, journal.live_submissions(0), 2);
}

/// Checks that T1 of participant 0 is booked and T1 of participant 2 was forwarded.
fn has_two_of_one_name(rt: &impl Abort, journal: &Journal, id: &Ident) {
    let booked = [journal.booked(0, id), journal.booked(2, id)];
    same(rt, booked, [Some(Outcome::Accepted), None]);
    let forwarded = [journal.is_forwarded(2, id), journal.is_forwarded(0, id)];
    same(rt, forwarded, [true, false]);
}

/// T1 is settled before the hub opens again, T2 is carried, and T3 is taken after the opening.
fn opens_with_two_live(rt: &impl Abort, journal: &mut Journal) -> Result<(), Fault> {
    let first = Ident::new("T1")?;
    let ids = [first, Ident::new("T2")?, Ident::new("T3")?];
    push_all(journal, &events(ids)?)?;
    has_two_live(rt, journal);
    has_two_of_one_name(rt, journal, &first);
    Ok(())
}

#[test]
fn tells_what_is_live_and_booked(rt: HostRuntime) -> Result<(), Fault> {
    let mut journal = Journal::new(rt.alloc());
    opens_with_two_live(&rt, &mut journal)
}

/// A journal can be opened from 500 times, and not once more.
fn opens_often(rt: &impl Abort, journal: &mut Journal) -> Result<(), Fault> {
    for _ in 0..499 {
        journal.push(Event::Opened)?;
    }
    same(rt, journal.has_openings_left(), true);
    journal.push(Event::Opened)?;
    same(rt, journal.has_openings_left(), false);
    Ok(())
}

#[test]
fn is_opened_from_500_times(rt: HostRuntime) -> Result<(), Fault> {
    let mut journal = Journal::new(rt.alloc());
    opens_often(&rt, &mut journal)
}
