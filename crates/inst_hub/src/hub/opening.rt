//! Opening a hub, with its tellers.
ghost use Rattle.std.specs.Prelude.{◌≡◌, ◌⊎◌, ◌↔◌, [], Err, IfOk, IfErr, length, ◌<◌};
ghost use Rattle.atomic_table.specs.Seated.{TableId};
ghost use Rattle.inst_cell.specs.Opening.{MayOpen, IsOpened};
ghost use Rattle.inst_row.specs.Row.{row_id, key_of, size};
ghost use Rattle.inst_row.specs.Seated.{IsOn, HasAll, view_of};
ghost use Rattle.inst_model.specs.Opening.{First};
ghost use Rattle.inst_participant.specs.LockLaw.{IsBehind};
ghost use Rattle.inst_hub.specs.Founding.{HasOpenedHub};
ghost use Rattle.inst_hub.specs.Opening.{AreNew, HaveAllParts, AreFirstTellers};
ghost use Rattle.inst_hub.specs.inner.Opening.{AreBoards, unboxed, AreParticipants, AreBlank};

use super::Hub;
use crate::initial_state::InitialState;
use crate::lock_law::LockLaw;
use crate::teller::Teller;
use inst_base::Fault;
use inst_cell::SharedBoard;
use inst_journal::Event;
use inst_participant::Participant;
use inst_row::{LockRow, RowSeat};
use inst_settings::Settings;
use inst_slot::Slot;
use std::alloc::{AllocError, Global};
use std::snapshot::Snapshot;

/// Makes a participant with an empty history, over its board.
fn participant(
    alloc: Global,
    settings: &Settings,
    board: SharedBoard,
    who: u8,
) -> Result<Box<Participant>, AllocError>
    requires { (table : TableId) × IsOpened settings.now table who board }
    ensures ok { IfOk result (λ x. IsBehind board who x.value) }
    ensures new { IfOk result (λ x. x.value.slot.events ≡ []) }
{
    let slot = Slot::open(alloc, settings, who)?;
    Ok(Box::new(alloc, Participant { slot, board })?)
}

/// Makes the participants of these boards, each with an empty history.
fn participants(
    alloc: Global,
    settings: &Settings,
    boards: Vec<SharedBoard>,
) -> Result<Vec<Option<Box<Participant>>>, AllocError>
    requires { (table : TableId) × AreBoards settings.now table boards.items }
    ensures ok { IfOk result (λ all. AreParticipants boards.items (unboxed all.items)) }
{
    let mut all = Vec::new(alloc);
    let mut who = 0_u16;
    for board in boards {
        all.push(Some(participant(alloc, settings, board, who as u8)?))?;
        who += 1;
    }
    Ok(all)
}

/// The row of a hub's locks.
type Row = LockRow<Box<Participant>, Event, InitialState, LockLaw>;

/// A seat of that row.
type Seat = RowSeat<Box<Participant>, Event, InitialState>;

/// Makes a teller of each sight, with a seat on the row. Together the tellers have all parts.
pub(super) fn admit(
    alloc: Global,
    row: &Row,
    seat: Seat,
    sights: Vec<inst_cell::Sight>,
) -> Result<Vec<Teller>, AllocError>
    requires some { 0 < size row.now }
    requires on { IsOn (row_id row.now) (key_of row.now) seat }
    requires all { HasAll seat }
    requires sights { MayOpen (length sights.items)
        × AreBlank (key_of row.now).words.value sights.items }
    ensures enough { IfOk result (λ all. length all.items ≡ length sights.items) }
    ensures new { IfOk result (λ all.
        AreNew (row_id row.now) (key_of row.now) (view_of seat).fronts all.items) }
    ensures parts { IfOk result (λ all. HaveAllParts all.items) }
{
    let mut seat = seat;
    let mut sights = sights;
    let Some(last) = sights.pop() else {
        unreachable!()
    };
    let mut all = Vec::new(alloc);
    for sight in sights {
        let seat = row.split(&mut seat);
        all.push(Teller { sight, seat })?;
    }
    all.push(Teller { sight: last, seat })?;
    Ok(all)
}

impl Hub {
    /// Opens a hub for the first time, with 1 to 16 tellers.
    ///
    /// All histories are empty, which the tellers have seen; they know of no place.
    ///
    /// # Errors
    ///
    /// - `BadSettings` exactly if `tellers` is not 1 to 16.
    /// - [`Memory`](Fault::Memory) if allocation fails. The settings are dropped.
    pub fn open(alloc: Global, settings: Settings, tellers: u8) -> Result<(Hub, Vec<Teller>), Fault>
        ensures settings { IfOk result (λ r. r.0.settings ≡ settings) }
        ensures tellers { IfOk result (λ r. AreFirstTellers r.0 tellers (λ p. []) r.1.items) }
        ensures opened { IfOk result (λ r. HasOpenedHub First r.0) }
        ensures bad { (result ≡ Err Fault.BadSettings) ↔ ¬ MayOpen tellers }
        ensures only { IfErr result (λ e. (e ≡ Fault.Memory) ⊎ (e ≡ Fault.BadSettings)) }
    {
        let (boards, sights) = SharedBoard::open(alloc, &settings, tellers)?;
        let Some(first) = boards.first() else {
            unreachable!()
        };
        let words = Snapshot::of(first);
        let all = participants(alloc, &settings, boards)?;
        let outset = InitialState {
            words,
            all: Snapshot::of(&all),
        };
        let (row, seat) = LockRow::open(alloc, all, &outset)?;
        let tellers = admit(alloc, &row, seat, sights)?;
        Ok((Hub { settings, row }, tellers))
    }
}
