//! The store of a participant's history.
ghost use Rattle.std.specs.Prelude.{◌≡◌, ◌<◌, ◌≤◌, [], ◌∷◌, ◌++◌, OnOk, OnErr, IfOk, IsOk};

use crate::Event;
use inst_base::mention;
use inst_command::Outcome;
use std::alloc::{AllocError, Global};
use std::marker::Model;

/// A participant's history: its events, oldest first.
///
/// ```text
/// let mut journal = Journal::new(alloc);
/// journal.push(Event::Funded(Funding { reference, cents }))?; // 500 cents
/// journal.position()                                          // 500
/// ```
#[derive(Drop)]
pub struct Journal {
    events: Vec<Event>,
}

impl Model for Journal {
    ghost use Rattle.std.specs.Prelude.{◌-◌, vec_len, vec_capacity};
    ghost use Rattle.inst_journal.specs.History.{History};

    ghost Value = { History };

    ghost view = { λ journal. record {
      events = journal.events.items;
      room = vec_capacity journal.events - vec_len journal.events;
    } };
}

impl Journal {
    /// Makes an empty journal; doesn't allocate.
    pub fn new(alloc: Global) -> Self
        ensures { result.events ≡ [] }
    {
        Journal {
            events: Vec::new(alloc),
        }
    }

    /// Makes an empty journal with capacity for `count` events.
    ///
    /// # Errors
    ///
    /// [`AllocError`] if the capacity can't be allocated.
    pub fn with_room(alloc: Global, count: usize) -> Result<Self, AllocError>
        ensures events { IfOk result (λ journal. journal.events ≡ []) }
        ensures room { IfOk result (λ journal. count ≤ journal.room) }
    {
        Ok(Journal {
            events: Vec::with_capacity(alloc, count)?,
        })
    }

    /// Copies the journal, event by event.
    ///
    /// # Errors
    ///
    /// [`AllocError`] if the copy can't be allocated.
    pub fn copy(&self) -> Result<Journal, AllocError>
        ensures ok { IfOk result (λ journal. journal.events ≡ self.now.events) }
    {
        Ok(Journal {
            events: self.events.clone()?,
        })
    }

    /// Returns the events, oldest first.
    pub fn events(&self) -> &[Event]
        ensures { result.now ≡ self.now.events }
    {
        self.events.as_slice()
    }

    /// Reserves capacity for one more event.
    ///
    /// # Errors
    ///
    /// [`AllocError`] if it can't be allocated. The events are unchanged.
    pub fn reserve(&mut self) -> Result<(), AllocError>
        ensures events { self.new.events ≡ self.old.events }
        ensures room { OnOk result (0 < self.new.room) }
    {
        self.events.try_reserve(1)?;
        Ok(())
    }

    /// Appends an event. It can't fail if there is capacity for it.
    ///
    /// # Errors
    ///
    /// [`AllocError`] if an allocation fails. The events are unchanged.
    pub fn push(&mut self, event: Event) -> Result<(), AllocError>
        ensures ok { OnOk result (self.new.events ≡ self.old.events ++ event ∷ []) }
        ensures err { OnErr result (self.new.events ≡ self.old.events) }
        ensures room { 0 < self.old.room → IsOk result }
    {
        mention::<Outcome>();
        Ok(self.events.push(event)?)
    }
}
