//! A table of transfers by originator and identifier, with their sums.
ghost use Rattle.std.specs.Prelude.{◌≡◌, ℕ, ◌+◌, ◌<◌, ◌≤◌, ◌^◌, length, slice_get, Some, None};
ghost use Rattle.std.specs.Prelude.{OnOk, IfSome};
ghost use Rattle.std.specs.Map.{keys_of};
ghost use Rattle.inst_journal.specs.declared.event.Event.{Event};
ghost use Rattle.inst_journal.specs.Sums.{if_accepted};
ghost use Rattle.inst_transfers.specs.State.{empty_table, step};
ghost use Rattle.inst_transfers.specs.Held.{IsLookedUp, FindsAt, FindsOwn, IsFound, CoversEntry};
ghost use Rattle.inst_transfers.specs.Held.{AreApart};
ghost use Rattle.inst_transfers.specs.Held.{AreRising, found_at, rows_in, state_in};
ghost use Rattle.inst_transfers.specs.inner.Held.{waits_at, FindsIndex};

use crate::transfer::{Found, Side, Transfer};
use indexmap::IndexMap;
use inst_base::{Cents, Ident, Moment};
use inst_command::{Entry, Outcome};
use inst_journal::Event;
use std::alloc::{AllocError, Global};
use std::marker::Model;

/// The transfers of one participant, by originator and identifier.
///
/// The table only grows: a transfer keeps its position.
#[derive(Drop)]
pub struct Transfers {
    who: u8,
    table: IndexMap<(u8, Ident), Transfer>,
    own: Vec<usize>,
    reserved: u128,
    credits: u128,
    debits: u128,
    /// The position of the transfer that was entered or booked last.
    last: usize,
    /// The number of transfers for which the first reservation makes capacity.
    expected: usize,
}

impl Model for Transfers {
    ghost use Rattle.std.specs.Prelude.{◌-◌, min, vec_len, vec_capacity};
    ghost use Rattle.indexmap.specs.IndexMap.{keys, spare};
    ghost use Rattle.inst_transfers.specs.Held.{Held, ArePositions};

    ghost Value = { Held };

    ghost view = { λ t. record {
      who = t.who;
      entries = t.table.entries;
      positions = t.own.items;
      reserved = t.reserved;
      credits = t.credits;
      debits = t.debits;
      room = min (spare t.table) (vec_capacity t.own - vec_len t.own);
    } };

    ghost invariant = { λ t. ArePositions t.who (keys t.table) t.own.items };
}

impl Transfers {
    /// Returns an empty table for `who`; allocates nothing. The first
    /// [`reserve`](Transfers::reserve) makes capacity for `expected` transfers.
    pub fn new(alloc: Global, who: u8, expected: usize) -> Transfers
        ensures who { result.who ≡ who }
        ensures state { state_in result ≡ empty_table }
    {
        Transfers {
            who,
            table: IndexMap::new(alloc),
            own: Vec::new(alloc),
            reserved: 0,
            credits: 0,
            debits: 0,
            last: 0,
            expected,
        }
    }

    /// Returns the transfer with this originator and identifier, or `None`.
    ///
    /// Cost: one hash look-up; none for the transfer that was entered or booked last, since tickets
    /// and follow-ups ask for that one next.
    pub fn find(&self, from: u8, id: &Ident) -> Option<Found>
        ensures { IsLookedUp self.now from id.now result }
    {
        match self.find_last(from, id) {
            Some(found) => Some(found),
            None => self.find_by_key(from, id),
        }
    }

    /// Returns the transfer that was entered or booked last if it has this key.
    fn find_last(&self, from: u8, id: &Ident) -> Option<Found>
        ensures { IfSome result (λ found. IsLookedUp self.now from id.now (Some found)) }
    {
        let (key, transfer) = self.table.get_index(self.last)?;
        if key.0 != from || key.1 != *id {
            return None;
        }
        Some(Found {
            from,
            id: *id,
            position: self.last,
            transfer: *transfer,
        })
    }

    /// Looks a transfer up by its key's hash.
    fn find_by_key(&self, from: u8, id: &Ident) -> Option<Found>
        ensures { IsLookedUp self.now from id.now result }
    {
        let (position, _, transfer) = self.table.get_full(&(from, *id))?;
        Some(Found {
            from,
            id: *id,
            position,
            transfer: *transfer,
        })
    }

    /// Returns the transfer at this position of the table, without hashing.
    pub fn at(&self, position: usize) -> Option<Found>
        ensures { FindsAt self.now position result }
    {
        let (key, transfer) = self.table.get_index(position)?;
        Some(Found {
            from: key.0,
            id: key.1,
            position,
            transfer: *transfer,
        })
    }

    /// Returns the entry of the transfer at this position of the table, without hashing.
    pub fn entry_at(&self, position: usize) -> Option<Entry>
        ensures { result ≡ slice_get (rows_in self.now.entries) position }
    {
        let (key, transfer) = self.table.get_index(position)?;
        Some(transfer.entry(key.0, key.1))
    }

    /// Returns the number of transfers.
    pub fn len(&self) -> usize
        ensures count { result ≡ length self.now.entries }
        ensures apart { AreApart (rows_in self.now.entries) }
    {
        self.table.len()
    }

    /// Reserves capacity for one more transfer; in an empty table, for all that are expected.
    ///
    /// Memory is touched only as it is used.
    ///
    /// # Errors
    ///
    /// [`AllocError`] if it can't be allocated; only the capacity may have changed.
    pub fn reserve(&mut self) -> Result<(), AllocError>
        ensures same { self.new ≡ record self.old { room = self.new.room } }
        ensures room { OnOk result (0 < self.new.room) }
    {
        let more = if self.table.is_empty() {
            self.expected.max(1)
        } else {
            1
        };
        self.table.reserve(more)?;
        self.own.try_reserve(more)
    }

    /// Enters a submission of the participant's own at its next place. Allocates nothing.
    pub fn take(&mut self, id: Ident, to: u8, cents: Cents, stamp: Moment)
        requires room { 0 < self.old.room }
        requires new { found_at self.old.entries (self.old.who, id) ≡ None }
        requires fits { self.old.reserved + cents < 2 ^ 128 }
        ensures who { self.new.who ≡ self.old.who }
        ensures state { state_in self.new
            ≡ step self.old.who (state_in self.old) (Event.Taken id to cents stamp) }
    {
        let position = self.table.len();
        let transfer = Transfer {
            cents,
            side: Side::Own { to, stamp },
            outcome: None,
        };
        self.table.insert((self.who, id), transfer).unwrap();
        self.own.push_reserved(position);
        self.last = position;
        self.reserved += u128::from(cents.get());
    }

    /// Enters a transfer that is forwarded to the participant. Allocates nothing.
    pub fn deliver(&mut self, from: u8, id: Ident, cents: Cents, deadline: Moment)
        requires room { 0 < self.old.room }
        requires new { found_at self.old.entries (from, id) ≡ None }
        ensures who { self.new.who ≡ self.old.who }
        ensures state { state_in self.new
            ≡ step self.old.who (state_in self.old) (Event.Forwarded from id cents deadline) }
    {
        let position = self.table.len();
        let transfer = Transfer {
            cents,
            side: Side::Other { deadline },
            outcome: None,
        };
        self.table.insert((from, id), transfer).unwrap();
        self.last = position;
    }

    /// Books the outcome of a transfer that was found. Allocates nothing and doesn't hash.
    pub fn book(&mut self, found: &Found, outcome: &Outcome)
        requires there { IsFound self.old found.now }
        requires covers { CoversEntry (state_in self.old) found.now.transfer }
        ensures who { self.new.who ≡ self.old.who }
        ensures state { state_in self.new
            ≡ step self.old.who (state_in self.old)
            (Event.Booked found.now.from found.now.id outcome.now) }
        ensures keys { keys_of self.new.entries ≡ keys_of self.old.entries }
        ensures room { self.new.room ≡ self.old.room }
    {
        let Transfer { cents, side, .. } = found.transfer;
        let outcome = *outcome;
        let (_, transfer) = self.table.pair_mut(found.position);
        *transfer = Transfer {
            cents,
            side,
            outcome: Some(outcome),
        };
        self.last = found.position;
        let cents = u128::from(cents.get());
        match &side {
            Side::Own { .. } => {
                self.reserved -= cents;
                self.debits += if_accepted(&outcome, cents);
            }
            Side::Other { .. } => self.credits += if_accepted(&outcome, cents),
        }
    }

    /// Starts an opening: own transfers with a booked outcome are no longer live. The others keep
    /// their order.
    ///
    /// Visits each live own transfer once.
    pub fn begin(&mut self)
        ensures who { self.new.who ≡ self.old.who }
        ensures state { state_in self.new ≡ step self.old.who (state_in self.old) Event.Opened }
        ensures entries { self.new.entries ≡ self.old.entries }
    {
        let table = &self.table;
        // Reading the length makes it known to the prover that the keys are distinct.
        let _ = table.len();
        self.own.retain(
            |position: &usize| -> bool
                ensures { result ≡ waits_at table.entry.now.entries position.now }
            { waits(table, *position) },
        );
    }

    /// Returns the participant's own live transfer at this place, without hashing.
    pub fn own_at(&self, index: u16) -> Option<Found>
        ensures { FindsOwn self.now index result }
    {
        let position = *self.own.get(usize::from(index))?;
        self.at(position)
    }

    /// Returns the index of the place of the participant's own transfer that was found; `None` if
    /// it isn't live.
    ///
    /// Takes one step for the last of the live transfers, else O(log n) of their number. Doesn't
    /// hash.
    pub fn own_index(&self, found: &Found) -> Option<usize>
        requires there { IsFound self.now found.now }
        requires own { found.now.from ≡ self.now.who }
        ensures at { (k : ℕ) → slice_get (state_in self.now).own k ≡ Some found.now.id →
            result ≡ Some k }
        ensures only { (k : ℕ) → result ≡ Some k →
            slice_get (state_in self.now).own k ≡ Some found.now.id }
        ensures within { IfSome result (λ k. k < length self.now.positions) }
    {
        // Reading the length makes it known to the prover that the keys are distinct.
        let _ = self.table.len();
        index_of(self.own.as_slice(), found.position)
    }

    /// Returns the number of the participant's own live transfers.
    pub fn live(&self) -> usize
        ensures { result ≡ length (state_in self.now).own }
    {
        self.own.as_slice().len()
    }

    /// Returns the reserved amount in cents: own transfers without a booked outcome.
    pub fn reserved(&self) -> u128
        ensures { result ≡ self.now.reserved }
    {
        self.reserved
    }

    /// Returns the amount received by accepted transfers, in cents.
    pub fn credits(&self) -> u128
        ensures { result ≡ self.now.credits }
    {
        self.credits
    }

    /// Returns the amount sent by accepted transfers, in cents.
    pub fn debits(&self) -> u128
        ensures { result ≡ self.now.debits }
    {
        self.debits
    }
}

/// Returns the index of a position among rising ones: one step for the last, else a binary search.
fn index_of(positions: &[usize], position: usize) -> Option<usize>
    requires rising { AreRising positions.now }
    ensures { FindsIndex positions.now position result }
{
    if positions.last() == Some(&position) {
        return Some(positions.len() - 1);
    }
    match positions.binary_search(&position) {
        Ok(index) => Some(index),
        Err(_) => None,
    }
}

/// Returns `true` if the transfer at this position has no booked outcome.
fn waits(table: &IndexMap<(u8, Ident), Transfer>, position: usize) -> bool
    ensures { result ≡ waits_at table.now.entries position }
{
    match table.get_index(position) {
        Some((_, transfer)) => transfer.outcome.is_none(),
        None => false,
    }
}

/// Returns the amount if the outcome is `Accepted`, else 0.
fn if_accepted(outcome: &Outcome, cents: u128) -> u128
    ensures value { result ≡ if_accepted (Some outcome.now) cents }
    ensures within { result ≤ cents }
{
    match outcome {
        Outcome::Accepted => cents,
        _ => 0,
    }
}
