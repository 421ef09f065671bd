//! Taking a hub apart when it closes.
ghost use Rattle.std.specs.Prelude.{◌≡◌, ◌↔◌, ℕ, ◌<◌, ◌≤◌, [], List, map, length, IfOk, IfErr};
ghost use Rattle.std.specs.Prelude.{vec_capacity};
ghost use Rattle.inst_journal.specs.declared.event.Event.{Event};
ghost use Rattle.inst_model.specs.Opening.{Opening, IsOpening};
ghost use Rattle.inst_row.specs.Row.{row_id, key_of, size};
ghost use Rattle.inst_row.specs.Seated.{IsOn, HasAll, HasSeen};
ghost use Rattle.inst_participant.specs.Apart.{IsPartsOf, hub_of};
ghost use Rattle.inst_hub.specs.Calls.{AreOf};
ghost use Rattle.inst_hub.specs.Opening.{HaveAllParts};
ghost use Rattle.inst_hub.specs.Founding.{HasOpenedHub};
ghost use Rattle.inst_hub.specs.Closing.{OneHasSeen, HaveWhatWasSeen, HandsBack};
ghost use Rattle.inst_hub.specs.inner.Closing.{AreSeated, AreTakenOut};

use super::Hub;
use crate::initial_state::InitialState;
use crate::lock_law::LockLaw;
use crate::teller::Teller;
use inst_cell::SharedBoard;
use inst_journal::Event;
use inst_participant::{Participant, Parts};
use inst_row::{LockRow, RowSeat};
use inst_slot::Slot;
use std::alloc::{AllocError, Global};
use std::fmt;
use thiserror::Error;

/// The row of a hub's locks.
type Row = LockRow<Box<Participant>, Event, InitialState, LockLaw>;

/// A seat of that row.
type Seat = RowSeat<Box<Participant>, Event, InitialState>;

/// The error of [`Hub::take_apart`]; returns the hub and its tellers unchanged.
#[derive(Drop, Error)]
pub enum TakeFault {
    /// Allocation failed. The hub and its tellers are as they were.
    #[error("an allocation failed; the hub and its tellers are unchanged")]
    Memory { hub: Hub, tellers: Vec<Teller> },
}

/// Prints which fault it is, and nothing of the hub.
impl fmt::Debug for TakeFault {
    fn fmt<W: fmt::Write>(&self, f: &mut fmt::Formatter<W>) -> fmt::Result {
        f.write_str("Memory { .. }")
    }
}

/// Joins the tellers' seats into one with all their parts, and pushes their sights onto a list with
/// capacity for them.
fn gather(row: &Row, tellers: Vec<Teller>, sights: &mut Vec<inst_cell::Sight>) -> Seat
    requires some { 0 < size row.now }
    requires seated { AreSeated (row_id row.now) (key_of row.now) tellers.items }
    requires parts { HaveAllParts tellers.items }
    requires none { sights.old.items ≡ [] }
    requires room { length tellers.items ≤ vec_capacity sights.old }
    ensures on { IsOn (row_id row.now) (key_of row.now) result }
    ensures all { HasAll result }
    ensures seen { (p : ℕ) (h : List Event) → HasSeen p h result ↔ OneHasSeen tellers.items p h }
    ensures sights { sights.new.items ≡ map (λ t. t.sight) tellers.items }
{
    let mut tellers = tellers.into_iter();
    let Some(Teller { sight, seat }) = tellers.next() else {
        unreachable!()
    };
    let mut whole = seat;
    sights.push_reserved(sight);
    for teller in tellers {
        let Teller { sight, seat } = teller;
        row.join(&mut whole, seat);
        sights.push_reserved(sight);
    }
    whole
}

/// Takes each slot and its board out of its lock, by number, into lists with capacity for them.
fn empty(row: Row, seat: Seat, slots: &mut Vec<Slot>, boards: &mut Vec<SharedBoard>)
    requires on { IsOn (row_id row) (key_of row) seat }
    requires all { HasAll seat }
    requires none { (slots.old.items ≡ []) × (boards.old.items ≡ []) }
    requires room { (size row ≤ vec_capacity slots.old) × (size row ≤ vec_capacity boards.old) }
    ensures taken { AreTakenOut (key_of row) (size row) seat slots.new.items boards.new.items }
{
    let mut ended = row.take_apart(seat);
    for lock in 0..ended.len() {
        let Participant { slot, board } = Box::into_inner(ended.take(lock));
        // Calls `journal` because its contract tells the verifier that the history is sound.
        let _ = slot.journal();
        slots.push_reserved(slot);
        boards.push_reserved(board);
    }
    ended.free();
}

impl Hub {
    /// Takes the hub apart: returns the slots of its participants, each with its last history, and
    /// one board with all roles that knows what each teller knew. Adds no event.
    ///
    /// Requires all tellers of the hub, and so waits for no lock. Cost: linear in the participants
    /// and tellers; visits no place and no event.
    ///
    /// # Errors
    ///
    /// [`TakeFault::Memory`] if its lists can't be allocated; it has the hub and its tellers,
    /// unchanged.
    pub fn take_apart(self, alloc: Global, tellers: Vec<Teller>) -> Result<Parts, TakeFault>
        requires of { AreOf self tellers.items }
        requires parts { HaveAllParts tellers.items }
        ensures settings { IfOk result (λ parts. hub_of parts ≡ self.settings) }
        ensures parts { IfOk result (λ parts. (O : Opening) → IsOpening self.settings O →
            HasOpenedHub O self → IsPartsOf O parts) }
        ensures seen { IfOk result (HaveWhatWasSeen self.settings tellers.items) }
        ensures err { IfErr result (HandsBack self tellers.items) }
    {
        let locks = usize::from(self.settings.participants());
        let rooms = rooms(alloc, locks, tellers.as_slice().len());
        let Ok((mut slots, mut boards, mut sights)) = rooms else {
            return Err(TakeFault::Memory { hub: self, tellers });
        };
        let Hub { settings, row } = self;
        let seat = gather(&row, tellers, &mut sights);
        empty(row, seat, &mut slots, &mut boards);
        Ok(Parts::unite(settings, slots, boards, sights))
    }
}

/// Allocates the lists for the contents of the locks and for the sights.
fn rooms(
    alloc: Global,
    locks: usize,
    tellers: usize,
) -> Result<(Vec<Slot>, Vec<SharedBoard>, Vec<inst_cell::Sight>), AllocError>
    ensures none { IfOk result (λ r. (r.0.items ≡ []) × (r.1.items ≡ []) × (r.2.items ≡ [])) }
    ensures room { IfOk result (λ r. (locks ≤ vec_capacity r.0) × (locks ≤ vec_capacity r.1)
        × (tellers ≤ vec_capacity r.2)) }
{
    let slots = Vec::with_capacity(alloc, locks)?;
    let boards = Vec::with_capacity(alloc, locks)?;
    let sights = Vec::with_capacity(alloc, tellers)?;
    Ok((slots, boards, sights))
}
