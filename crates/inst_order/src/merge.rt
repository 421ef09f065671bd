//! Puts the events of all journals in one order, and finds the step that adds each.
//!
//! Two kinds of event wait for one in another journal. A transfer is delivered after it was taken.
//! Its originator books an acceptance or a rejection after its beneficiary, and a time-out after
//! the delivery, if there is one. Each participant's events are visited in order up to the first
//! that waits, and from there on once the event that it waits for has its step. So each event is
//! visited a few times, with one table look-up each time.
//!
//! No contract depends on the steps: they are run, and the journals of that run are compared.
ghost use Rattle.std.specs.Prelude.{◌≤◌, length};
ghost use Rattle.inst_settings.specs.declared.ranges.TheConstants.{MOST_PARTICIPANTS};

use crate::asking::{answer, ask_first, ask_last, submit};
use crate::progress::Progress;
use inst_base::Ident;
use inst_command::{Command, Outcome, Step, Submission};
use inst_journal::{Event, Journal};
use inst_settings::MOST_PARTICIPANTS;
use std::alloc::{AllocError, Global};
use std::collections::HashMap;

/// Returns the number of events before the current opening: those up to the last `Opened`, or none
/// at a first opening.
fn carried_count(events: &[Event]) -> usize
    ensures { result ≤ length events.now }
{
    let last = events
        .iter()
        .rposition(|event| matches!(event, Event::Opened));
    match last {
        Some(index) => index + 1,
        None => 0,
    }
}

/// The steps of the events that are in order so far.
#[derive(Drop)]
struct Merge {
    /// The number of events that need steps.
    count: usize,
    /// By originator, the number of its places in use.
    places: [u16; MOST_PARTICIPANTS],
    /// By originator and identifier.
    transfers: HashMap<(u8, Ident), Progress>,
    /// The participants whose next event may have its step.
    ready: Vec<u8>,
    steps: Vec<Step>,
}

impl Merge {
    /// Makes a merge of no journals.
    fn new(alloc: Global) -> Merge {
        Merge {
            count: 0,
            places: [0; MOST_PARTICIPANTS],
            transfers: HashMap::new(alloc),
            ready: Vec::new(alloc),
            steps: Vec::new(alloc),
        }
    }

    /// Adds the journal of the participant `who`, and returns its events that need steps: those of
    /// the current opening.
    fn add<'a>(&mut self, who: u8, events: &'a [Event]) -> Result<&'a [Event], AllocError> {
        let (carried, current) = events.split_at(carried_count(events));
        self.note_booked(who, carried)?;
        self.note_carried(who, carried)?;
        self.note_deliveries(current)?;
        self.count = self.count.saturating_add(current.len());
        self.ready.push(who)?;
        Ok(current)
    }

    /// Notes the originator's transfers whose outcomes were booked before the opening.
    fn note_booked(&mut self, who: u8, carried: &[Event]) -> Result<(), AllocError> {
        for event in carried {
            if let Event::Booked { from, id, .. } = event
                && *from == who
            {
                self.progress(who, *id)?.is_booked = true;
            }
        }
        Ok(())
    }

    /// Gives the other carried transfers their places.
    fn note_carried(&mut self, who: u8, carried: &[Event]) -> Result<(), AllocError> {
        for event in carried {
            if let Event::Taken { id, .. } = event {
                self.take(who, *id)?;
            }
        }
        Ok(())
    }

    /// Notes the transfers that are to be delivered.
    fn note_deliveries(&mut self, current: &[Event]) -> Result<(), AllocError> {
        for event in current {
            if let Event::Forwarded { from, id, .. } = event {
                self.progress(*from, *id)?.awaits_delivery = true;
            }
        }
        Ok(())
    }

    /// Visits the participant's next events up to one that waits, and returns the rest.
    fn advance<'a>(&mut self, who: u8, events: &'a [Event]) -> Result<&'a [Event], AllocError> {
        for (index, event) in events.iter().enumerate() {
            if !self.find_step(who, event)? {
                return Ok(&events[index..]);
            }
        }
        Ok(&[])
    }

    /// Returns the notes on a transfer.
    fn progress(&mut self, from: u8, id: Ident) -> Result<&mut Progress, AllocError> {
        Ok(self.transfers.entry((from, id))?.or_insert(Progress::NONE))
    }

    /// Lets the participant advance, if there is one.
    fn wake(&mut self, waiting: Option<u8>) -> Result<(), AllocError> {
        if let Some(who) = waiting {
            self.ready.push(who)?;
        }
        Ok(())
    }

    /// Finds the step that adds this event; returns `false` if the event waits for another.
    fn find_step(&mut self, who: u8, event: &Event) -> Result<bool, AllocError> {
        let step = match *event {
            Event::Funded(funding) => Some(ask_first(who, Command::Fund(funding))),
            Event::Defunded(funding) => Some(ask_first(who, Command::Defund(funding))),
            Event::Taken {
                id,
                to,
                cents,
                stamp,
            } => {
                self.take(who, id)?;
                let submission = Submission {
                    id,
                    to,
                    cents,
                    stamp,
                };
                Some(submit(who, submission))
            }
            Event::Forwarded { from, id, .. } => self.deliver(from, id, who)?,
            Event::Booked { from, id, outcome } if from == who => self.investigate(
                who, id, &outcome,
            )?,
            Event::Booked { from, id, outcome } => self.answer(who, from, id, outcome)?,
            Event::Fetched { count } => Some(ask_first(who, Command::Fetch { max: count })),
            Event::Opened => None,
        };
        let Some(step) = step else {
            return Ok(false);
        };
        self.steps.push(step)?;
        Ok(true)
    }

    /// Gives the transfer the originator's next place, unless its outcome was booked before the
    /// opening.
    fn take(&mut self, who: u8, id: Ident) -> Result<(), AllocError> {
        let place = self.places[usize::from(who)];
        let progress = self.progress(who, id)?;
        let waiting = progress.waiting.take();
        if !progress.is_booked {
            progress.place = Some(place);
            self.places[usize::from(who)] = place.saturating_add(1);
        }
        self.wake(waiting)
    }

    /// Returns the step that delivers the transfer to its beneficiary, or `None` if it wasn't taken
    /// yet.
    fn deliver(&mut self, from: u8, id: Ident, to: u8) -> Result<Option<Step>, AllocError> {
        let progress = self.progress(from, id)?;
        let Some(index) = progress.place else {
            progress.waiting = Some(to);
            return Ok(None);
        };
        progress.awaits_delivery = false;
        let waiting = progress.waiting.take();
        self.wake(waiting)?;
        Ok(Some(Step::Deliver { from, index, to }))
    }

    /// Returns the step in which the beneficiary books the outcome.
    fn answer(
        &mut self,
        who: u8,
        from: u8,
        id: Ident,
        outcome: Outcome,
    ) -> Result<Option<Step>, AllocError> {
        let progress = self.progress(from, id)?;
        progress.is_answered = true;
        let waiting = progress.waiting.take();
        self.wake(waiting)?;
        Ok(Some(answer(who, from, id, outcome)))
    }

    /// Returns the step in which the originator books the outcome, or `None` if it may not yet. An
    /// investigation at the last moment books the outcome, or a time-out if there is none.
    fn investigate(
        &mut self,
        who: u8,
        id: Ident,
        outcome: &Outcome,
    ) -> Result<Option<Step>, AllocError> {
        let progress = self.progress(who, id)?;
        if !progress.may_book(outcome) {
            progress.waiting = Some(who);
            return Ok(None);
        }
        Ok(Some(ask_last(who, Command::Investigate { id })))
    }
}

/// Returns a step for each event of the current opening, in an order in which no event precedes one
/// that it waits for, or `None` if there is no such order. Visits each event a few times.
pub(crate) fn find_steps(
    alloc: Global,
    journals: &[Journal],
) -> Result<Option<Vec<Step>>, AllocError>
    requires { length journals.now ≤ MOST_PARTICIPANTS }
{
    let mut merge = Merge::new(alloc);
    let mut left = add_all(alloc, &mut merge, journals)?;
    // Each event wakes one participant at most.
    for _ in 0..merge.count.saturating_add(left.len()) {
        let Some(who) = merge.ready.pop() else {
            break;
        };
        if let Some(events) = left.get_mut(usize::from(who)) {
            *events = merge.advance(who, *events)?;
        }
    }
    let is_done = merge.steps.len() == merge.count;
    Ok(is_done.then_some(merge.steps))
}

/// Adds each journal, and returns the events that need steps, by participant.
fn add_all<'a>(
    alloc: Global,
    merge: &mut Merge,
    journals: &'a [Journal],
) -> Result<Vec<&'a [Event]>, AllocError>
    requires { length journals.now ≤ MOST_PARTICIPANTS }
{
    let mut left = Vec::new(alloc);
    for (who, journal) in journals.iter().enumerate() {
        left.push(merge.add(who as u8, journal.events())?)?;
    }
    Ok(left)
}
