//! Own live transfers without a booked outcome, in the order of their deadlines.
ghost use Rattle.std.specs.Prelude.{◌≡◌, ℕ, ◌<◌, ◌^◌, ◌++◌, ◌∷◌, [], ◌+◌, ◌&&◌, nat_eq, not};
ghost use Rattle.std.specs.Prelude.{length, IfOk, OnOk, OnErr};
ghost use Rattle.inst_due.specs.Due.{has, Adds, IsLeast, comes_after};
ghost use Rattle.inst_journal.specs.Opened.{carried};
ghost use Rattle.inst_slot.specs.Waiting.{IsWaiting};

use inst_base::Moment;
use inst_due::Due;
use inst_journal::Event;
use inst_ledger::Ledger;
use std::alloc::{AllocError, Global};
use std::marker::Model;

/// The deadlines of the own live transfers in the order of their places, and the pairs of deadline
/// and index of those without a booked outcome.
#[derive(Drop)]
pub(crate) struct Waiting {
    deadlines: Vec<Moment>,
    due: Due,
}

impl Model for Waiting {
    ghost use Rattle.inst_slot.specs.Waiting.{Deadlines};
    ghost use Rattle.inst_slot.specs.inner.Waiting.{AreTimed};

    ghost Value = { Deadlines };

    ghost view = { λ w. record { deadlines = w.deadlines.items; pairs = w.due } };

    ghost invariant = { λ w. AreTimed w.deadlines.items w.due };
}

impl Waiting {
    /// Returns an empty value; allocates nothing.
    pub(crate) fn new(alloc: Global) -> Self
        ensures { (result.deadlines ≡ []) × (result.pairs ≡ []) }
    {
        Waiting {
            deadlines: Vec::new(alloc),
            due: Due::new(alloc),
        }
    }

    /// Adds the next transfer. On allocation failure nothing changes.
    pub(crate) fn add(&mut self, deadline: Moment) -> Result<(), AllocError>
        requires { length self.old.deadlines < 2 ^ 16 }
        ensures deadlines { OnOk result (self.new.deadlines ≡ self.old.deadlines ++ deadline ∷ []) }
        ensures pairs { OnOk result
            (Adds self.old.pairs self.new.pairs deadline (length self.old.deadlines)) }
        ensures err { OnErr result (self.new ≡ self.old) }
    {
        let index = self.deadlines.as_slice().len() as u16;
        self.deadlines.try_reserve(1)?;
        self.due.add(deadline, index)?;
        self.deadlines.push_reserved(deadline);
        Ok(())
    }

    /// Removes the pair with this index.
    pub(crate) fn take_out(&mut self, index: u16)
        ensures deadlines { self.new.deadlines ≡ self.old.deadlines }
        ensures pairs { (d k : ℕ) →
            has self.new.pairs d k ≡ (has self.old.pairs d k && not (nat_eq k index)) }
    {
        if let Some(deadline) = self.deadlines.as_slice().get(usize::from(index)) {
            self.due.take_out(*deadline, index);
        }
    }

    /// Returns the first pair after this one.
    pub(crate) fn after(&self, pair: Option<(Moment, u16)>) -> Option<(Moment, u16)>
        ensures { IsLeast self.now.pairs (comes_after pair) result }
    {
        self.due.next_after(pair)
    }
}

/// Returns the deadlines that are live in books that end with an opening.
pub(crate) fn carried_waiting(alloc: Global, ledger: &Ledger) -> Result<Waiting, AllocError>
    requires { carried ledger.now.book.events ≡ ledger.now.book.events }
    ensures ok { IfOk result (λ w.
        IsWaiting ledger.now.book.settings ledger.now.book.who ledger.now.book.events w) }
{
    let mut waiting = Waiting::new(alloc);
    for event in ledger.journal().events() {
        if let Event::Taken { id, stamp, .. } = event {
            if ledger.booked(ledger.who(), id).is_none() {
                waiting.add(stamp.deadline(ledger.settings().limit()))?;
            }
        }
    }
    Ok(waiting)
}
