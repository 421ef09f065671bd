//! What tellers note of transfers, from replies and peeks.
ghost use Rattle.std.specs.Prelude.{◌<◌};
ghost use Rattle.inst_loads.specs.declared.stress.sights.TheConstants.{ALL_PLACES};

use crate::flaw::Flaw;
use crate::stress::transfer::PARTICIPANTS;
use inst_base::{Fault, Ident, mention};
use inst_command::{Command, Entry, Outcome, Place, Reply, State};
use inst_hub::Ticket;
use std::alloc::Global;

/// The number of places of each participant in a stress.
pub(crate) const PLACES: u16 = 64;

/// The number of places of the hub in a stress.
pub(crate) const ALL_PLACES: u16 = PARTICIPANTS * PLACES;

/// What a teller noted last of a transfer.
#[derive(Clone, Copy)]
pub(crate) struct ToldTransfer {
    pub(crate) ticket: Ticket,
    pub(crate) id: Ident,
    /// The beneficiary and the amount in cents, if a submission was taken.
    pub(crate) contents: Option<(u8, u64)>,
    pub(crate) state: State,
}

/// Returns `true` if a transfer may get from the first state to the second.
fn goes_on(before: State, after: State) -> bool {
    match before {
        State::Decided(_) => after == before,
        State::Unused | State::Pending => after != State::Unused,
    }
}

/// Merges what two notes have of the contents. Fails with `OtherTransfer` if they differ.
fn both(one: Option<(u8, u64)>, two: Option<(u8, u64)>) -> Result<Option<(u8, u64)>, Flaw> {
    if one.is_some() && two.is_some() && one != two {
        return Err(Flaw::OtherTransfer);
    }
    Ok(one.or(two))
}

impl ToldTransfer {
    /// Returns the transfer of a reply, with what the command and the reply say of it.
    pub(crate) fn of(command: &Command, reply: &Reply, ticket: Ticket) -> Option<ToldTransfer> {
        let (id, contents, state) = match (command, reply) {
            (Command::Submit(submission), Reply::Taken { id, .. }) => {
                (
                    *id,
                    Some((submission.to, submission.cents.get())),
                    State::Pending,
                )
            }
            (_, Reply::State { id, state, .. }) => (*id, None, *state),
            _ => return None,
        };
        Some(ToldTransfer {
            ticket,
            id,
            contents,
            state,
        })
    }

    /// Merges with a later note. Fails with `OtherTransfer` if that is of another transfer, and
    /// with `flaw` if its state can't come later.
    fn then(self, later: ToldTransfer, flaw: Flaw) -> Result<ToldTransfer, Flaw> {
        if self.id != later.id {
            return Err(Flaw::OtherTransfer);
        }
        if !goes_on(self.state, later.state) {
            return Err(flaw);
        }
        let contents = both(self.contents, later.contents)?;
        Ok(ToldTransfer { contents, ..later })
    }

    /// Merges with another teller's note. Fails with `TellersDiffer` if both have outcomes and
    /// these differ.
    fn beside(self, other: ToldTransfer) -> Result<ToldTransfer, Flaw> {
        match other.state {
            State::Decided(_) => self.then(other, Flaw::TellersDiffer),
            State::Unused | State::Pending => other.then(self, Flaw::TellersDiffer),
        }
    }
}

/// A teller's notes of the transfers at all places, the fetched entries, and the number of calls.
#[derive(Drop)]
pub(crate) struct Sights {
    places: Vec<Option<ToldTransfer>>,
    entries: Vec<Entry>,
    pub(crate) calls: u64,
    /// The number of calls that failed to allocate.
    pub(crate) refused: u64,
}

/// Returns the index of this place's note.
fn index_of(place: Place) -> usize {
    usize::from(place.owner) * usize::from(PLACES) + usize::from(place.index)
}

/// Returns the place with this number.
pub(crate) fn place_of(number: u16) -> Place
    requires { number < ALL_PLACES }
{
    Place {
        owner: (number / PLACES) as u8,
        index: number % PLACES,
    }
}

impl Sights {
    /// Returns empty notes, with capacity for the entries of all places, so that noting doesn't
    /// allocate.
    pub(crate) fn new(alloc: Global) -> Result<Sights, Flaw> {
        mention::<(State, Outcome)>();
        let mut places = Vec::new(alloc);
        for _place in 0..ALL_PLACES {
            places.push(None)?;
        }
        Ok(Sights {
            places,
            entries: Vec::with_capacity(alloc, usize::from(ALL_PLACES))?,
            calls: 0,
            refused: 0,
        })
    }

    pub(crate) fn places(&self) -> &[Option<ToldTransfer>] {
        self.places.as_slice()
    }

    pub(crate) fn entries(&self) -> &[Entry] {
        self.entries.as_slice()
    }

    /// Returns the note of this place, if there is one.
    pub(crate) fn at(&self, place: Place) -> Option<ToldTransfer> {
        *self.places.get(index_of(place))?
    }

    /// Notes what was seen after all that is noted, or fails if the two don't fit.
    pub(crate) fn note(&mut self, sight: ToldTransfer, flaw: Flaw) -> Result<(), Flaw> {
        mention::<Outcome>();
        let noted = match self.at(sight.ticket.place()) {
            Some(before) => before.then(sight, flaw)?,
            None => sight,
        };
        self.put(noted)
    }

    fn put(&mut self, sight: ToldTransfer) -> Result<(), Flaw> {
        match self.places.get_mut(index_of(sight.ticket.place())) {
            Some(slot) => {
                *slot = Some(sight);
                Ok(())
            }
            None => Err(Flaw::OtherTransfer),
        }
    }

    /// Counts a call that failed to allocate, and ignores its error.
    pub(crate) fn pass_refused(&mut self, ended: Result<(), Flaw>) -> Result<(), Flaw> {
        match ended {
            Err(Flaw::Refused(Fault::Memory)) => {
                self.refused = self.refused.saturating_add(1);
                Ok(())
            }
            ended => ended,
        }
    }

    /// Notes fetched entries.
    pub(crate) fn fetch(&mut self, entries: &[Entry]) -> Result<(), Flaw> {
        for entry in entries {
            self.entries.push(*entry)?;
        }
        Ok(())
    }

    /// Merges the notes of another teller into these.
    pub(crate) fn add(&mut self, other: &Sights) -> Result<(), Flaw> {
        self.calls = self.calls.saturating_add(other.calls);
        self.refused = self.refused.saturating_add(other.refused);
        self.fetch(other.entries())?;
        for slot in other.places() {
            if let Some(sight) = slot {
                self.add_one(*sight)?;
            }
        }
        Ok(())
    }

    fn add_one(&mut self, sight: ToldTransfer) -> Result<(), Flaw> {
        mention::<Outcome>();
        let noted = match self.at(sight.ticket.place()) {
            Some(before) => before.beside(sight)?,
            None => sight,
        };
        self.put(noted)
    }
}
