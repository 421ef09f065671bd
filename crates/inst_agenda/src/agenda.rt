//! The agenda of a run: the transfers that the next follow-up visits, and those that wait for a
//! moment.
ghost use Rattle.std.specs.Prelude.{◌≡◌, [], true, OnOk};
ghost use Rattle.inst_agenda.specs.inner.Agenda.{Notes, Waits, TakesAnyDue, MovesDue, TakesAnyNext};
ghost use Rattle.inst_agenda.specs.inner.Agenda.{AreInOrder, WaitNoLater, PopsDue};

use inst_base::Moment;
use inst_command::Place;
use std::alloc::{AllocError, Global};
use std::collections::{BTreeSet, VecDeque};
use std::marker::Model;

/// A waiting place: its moment, originator and index.
type Entry = (Moment, (u8, u16));

/// The places that the next follow-up visits, in order of originator and index, and the places that
/// wait for a moment.
///
/// Before its moment nothing is left to do for a waiting transfer. A place that waits for no
/// earlier moment than the others, as most do, is added and removed in constant time. Any other
/// call costs O(log n) of their number.
#[derive(Drop)]
pub struct Agenda {
    /// Waiting places, their moments in order.
    row: VecDeque<Entry>,
    /// Waiting places whose moments came out of order.
    others: BTreeSet<Entry>,
    next: BTreeSet<(u8, u16)>,
}

impl Model for Agenda {
    ghost use Rattle.std.specs.Prelude.{◌++◌};
    ghost use Rattle.inst_agenda.specs.Agenda.{Agenda as TheAgenda};
    ghost use Rattle.inst_agenda.specs.inner.Agenda.{AreInOrder};

    ghost Value = { TheAgenda };

    ghost view = { λ agenda. record {
      waiting = agenda.row.items ++ agenda.others.keys;
      next = agenda.next.keys;
    } };

    ghost invariant = { λ agenda. AreInOrder agenda.row.items };
}

impl Agenda {
    /// Returns an empty agenda; allocates nothing.
    pub(crate) fn new(alloc: Global) -> Self
        ensures { result ≡ record { waiting = []; next = [] } }
    {
        Agenda {
            row: VecDeque::new(alloc),
            others: BTreeSet::new(alloc),
            next: BTreeSet::new(alloc),
        }
    }

    /// Adds a place that the next follow-up visits.
    pub(crate) fn note(&mut self, place: Place) -> Result<(), AllocError>
        ensures ok { OnOk result (Notes self.old self.new place) }
    {
        self.next.insert((place.owner, place.index))?;
        Ok(())
    }

    /// Lets a place wait for this moment.
    pub(crate) fn wait(&mut self, moment: Moment, place: Place) -> Result<(), AllocError>
        ensures ok { OnOk result (Waits self.old self.new moment place) }
    {
        let entry = (moment, (place.owner, place.index));
        if is_last(&self.row, moment) {
            self.row.push_back(entry)?;
        } else {
            self.others.insert(entry)?;
        }
        Ok(())
    }

    /// Removes a waiting place whose moment has come at `at`, if there is one.
    fn take_due(&mut self, at: Moment) -> Option<(Moment, Place)>
        ensures { TakesAnyDue self.old self.new at result }
    {
        if let Some((moment, (owner, index))) = pop_due(&mut self.row, at) {
            return Some((moment, Place { owner, index }));
        }
        let &(moment, (owner, index)) = self.others.first()?;
        if !at.is_due(moment) {
            return None;
        }
        self.others.pop_first();
        Some((moment, Place { owner, index }))
    }

    /// Moves all places whose moment has come at `at` to those that are visited next.
    pub(crate) fn move_due(&mut self, at: Moment) -> Result<(), AllocError>
        ensures ok { OnOk result (MovesDue self.old self.new at) }
    {
        while let Some((_, place)) = self.take_due(at) {
            self.note(place)?;
        }
        Ok(())
    }

    /// Removes the first place that is visited next.
    pub(crate) fn take_next(&mut self) -> Option<Place>
        ensures { TakesAnyNext self.old self.new result }
    {
        let (owner, index) = self.next.pop_first()?;
        Some(Place { owner, index })
    }
}

/// Returns `true` if no place of the row waits for a later moment.
fn is_last(row: &VecDeque<Entry>, moment: Moment) -> bool
    requires { AreInOrder row.now.items }
    ensures { result ≡ true → WaitNoLater row.now.items moment }
{
    match row.back() {
        Some(last) => last.0 <= moment,
        None => true,
    }
}

/// Removes the first place of the row if its moment has come at `at`.
fn pop_due(row: &mut VecDeque<Entry>, at: Moment) -> Option<Entry>
    requires { AreInOrder row.old.items }
    ensures { PopsDue row.old.items row.new.items at result }
{
    let first = row.front()?;
    if !at.is_due(first.0) {
        return None;
    }
    row.pop_front()
}
