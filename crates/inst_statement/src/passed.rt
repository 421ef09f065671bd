//! The transfers that a pass over a history has met, by their keys.
ghost use Rattle.std.specs.Prelude.{◌≡◌, [], ◌∷◌, ◌++◌, List, OnOk};
ghost use Rattle.inst_journal.specs.declared.event.Event.{Event as Passed};
ghost use Rattle.inst_journal.specs.Booked.{first_some};
ghost use Rattle.inst_statement.specs.inner.Movement.{came, sent, movement_of, accepted_movement};
ghost use Rattle.inst_statement.specs.inner.Kept.{AreKept, IsNewTransfer};

use crate::movement::Movement;
use indexmap::IndexMap;
use inst_base::{Cents, Ident};
use inst_command::{LineKind, Outcome};
use inst_journal::Event;
use std::alloc::{AllocError, Global};

/// The transfers that were taken and forwarded so far, by their keys.
#[derive(Drop)]
pub(crate) struct PassedTransfers {
    taken: IndexMap<Ident, (u8, Cents)>,
    forwarded: IndexMap<(u8, Ident), Cents>,
}

impl PassedTransfers {
    /// Makes tables without transfers.
    pub(crate) fn new(alloc: Global) -> Self
        ensures { AreKept [] result.taken result.forwarded }
    {
        PassedTransfers {
            taken: IndexMap::new(alloc),
            forwarded: IndexMap::new(alloc),
        }
    }

    /// Stores the transfer of an event, if it has one.
    pub(crate) fn keep(&mut self, event: &Event) -> Result<(), AllocError>
        ensures kept { (front : List Passed) → IsNewTransfer front event.now →
            AreKept front self.old.taken self.old.forwarded →
            OnOk result (AreKept (front ++ event.now ∷ []) self.new.taken self.new.forwarded) }
    {
        match event {
            Event::Taken { id, to, cents, .. } => {
                self.taken.insert(*id, (*to, *cents))?;
            }
            Event::Forwarded {
                from,
                id,
                cents,
                ..
            } => {
                self.forwarded.insert((*from, *id), *cents)?;
            }
            _ => {}
        }
        Ok(())
    }

    /// Returns the amount of a forwarded transfer, if it was met.
    fn came(&self, from: u8, id: &Ident) -> Option<Cents>
        ensures { (front : List Passed) → AreKept front self.now.taken self.now.forwarded →
            result ≡ first_some (came from id.now) front }
    {
        self.forwarded.get(&(from, *id)).copied()
    }

    /// Returns the beneficiary and the amount of a taken transfer, if it was met.
    fn sent(&self, id: &Ident) -> Option<(u8, Cents)>
        ensures { (front : List Passed) → AreKept front self.now.taken self.now.forwarded →
            result ≡ first_some (sent id.now) front }
    {
        self.taken.get(id).copied()
    }

    /// Returns the movement of an accepted transfer.
    fn accepted(&self, from: u8, id: &Ident) -> Option<Movement>
        ensures { (front : List Passed) → AreKept front self.now.taken self.now.forwarded →
            result ≡ accepted_movement front from id.now }
    {
        if let Some(cents) = self.came(from, id) {
            return Some(Movement {
                kind: LineKind::Received,
                other: Some(from),
                cents,
            });
        }
        let (to, cents) = self.sent(id)?;
        Some(Movement {
            kind: LineKind::Paid,
            other: Some(to),
            cents,
        })
    }

    /// Returns the movement of a booked transfer, if it was accepted.
    fn booked(&self, from: u8, id: &Ident, outcome: &Outcome) -> Option<Movement>
        ensures { (front : List Passed) → AreKept front self.now.taken self.now.forwarded →
            result ≡ movement_of front (Passed.Booked from id.now outcome.now) }
    {
        match outcome {
            Outcome::Accepted => self.accepted(from, id),
            _ => None,
        }
    }

    /// Returns the movement of an event, if it has one.
    pub(crate) fn movement(&self, event: &Event) -> Option<Movement>
        ensures { (front : List Passed) → AreKept front self.now.taken self.now.forwarded →
            result ≡ movement_of front event.now }
    {
        match event {
            Event::Funded(funding) => Some(Movement {
                kind: LineKind::Funded,
                other: None,
                cents: funding.cents,
            }),
            Event::Defunded(funding) => Some(Movement {
                kind: LineKind::Defunded,
                other: None,
                cents: funding.cents,
            }),
            Event::Booked { from, id, outcome } => self.booked(*from, id, outcome),
            _ => None,
        }
    }
}
