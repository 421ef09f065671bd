//! Opening a hub again, from the journals of its participants.
ghost use Rattle.std.specs.Prelude.{◌≡◌, ◌⊎◌, ◌↔◌, ℕ, List, Err, IfOk, IfErr, length};
ghost use Rattle.inst_settings.specs.Settings.{participants};
ghost use Rattle.inst_board.specs.declared.about.Fact.{Fact};
ghost use Rattle.inst_journal.specs.declared.event.Event.{Event};
ghost use Rattle.inst_cell.specs.Held.{settings_of, knows, Stays};
ghost use Rattle.inst_cell.specs.Opening.{MayOpen, IsWhole};
ghost use Rattle.inst_model.specs.Opening.{FromBooks};
ghost use Rattle.inst_world.specs.NextOpening.{CanOpenFrom, books_of};
ghost use Rattle.inst_world.specs.inner.NextOpening.{IsOpenedBelow};
ghost use Rattle.inst_hub.specs.Founding.{HasOpenedHub};
ghost use Rattle.inst_hub.specs.Opening.{AreFirstTellers};
ghost use Rattle.inst_hub.specs.inner.Opening.{unboxed, AreBehind};
ghost use Rattle.inst_hub.specs.NextOpening.{histories_from};
ghost use Rattle.inst_hub.specs.inner.NextOpening.{AreCarriedSlots, pairs, seated};

use super::Hub;
use super::opening::admit;
use crate::initial_state::InitialState;
use crate::teller::Teller;
use inst_base::Fault;
use inst_cell::SharedBoard;
use inst_journal::Journal;
use inst_participant::Participant;
use inst_row::LockRow;
use inst_settings::Settings;
use inst_slot::Slot;
use inst_world::World;
use std::alloc::{AllocError, Global};
use std::snapshot::Snapshot;

/// Opens the places of all live transfers on the board that has all roles.
fn open_places(slots: &[Slot], whole: &mut SharedBoard)
    requires whole { IsWhole (settings_of whole.old) whole.old }
    requires carried { (books : ℕ → List Event)
        × AreCarriedSlots (settings_of whole.old) books slots.now }
    ensures stays { Stays whole.old whole.new }
    ensures known { (books : ℕ → List Event) →
        AreCarriedSlots (settings_of whole.old) books slots.now →
        (f : Fact) → knows whole.new f ↔
        IsOpenedBelow (settings_of whole.old) books (participants (settings_of whole.old)) f }
{
    for slot in slots {
        slot.open_places(whole);
    }
}

/// Pairs each slot with its board, by number.
fn seat(
    alloc: Global,
    slots: Vec<Slot>,
    boards: Vec<SharedBoard>,
) -> Result<Vec<Option<Box<Participant>>>, AllocError>
    requires { length boards.items ≡ length slots.items }
    ensures ok { IfOk result (λ all. unboxed all.items ≡ pairs seated slots.items boards.items) }
{
    let mut all = Vec::new(alloc);
    let mut boards = boards.into_iter();
    for slot in slots {
        let Some(board) = boards.next() else {
            unreachable!()
        };
        all.push(Some(Box::new(alloc, Participant { slot, board })?))?;
    }
    Ok(all)
}

/// Makes participants from these journals, each carried over an opening, over the words of the
/// board with all roles.
fn carry_over(
    alloc: Global,
    settings: &Settings,
    journals: &[Journal],
    whole: SharedBoard,
) -> Result<Vec<Option<Box<Participant>>>, AllocError>
    requires journals { CanOpenFrom settings.now journals.now }
    requires whole { IsWhole settings.now whole }
    ensures ok { IfOk result (λ all.
        AreBehind whole (participants settings.now) (histories_from journals.now)
        (unboxed all.items)) }
{
    let slots = World::open_from(alloc, settings, journals)?.into_slots();
    let mut whole = whole;
    open_places(&slots, &mut whole);
    let boards = whole.deal(alloc)?;
    seat(alloc, slots, boards)
}

impl Hub {
    /// Opens a hub again from these journals, one for each participant, by number, with 1 to 16
    /// tellers.
    ///
    /// Pending transfers stay pending; decided ones give their places back. Each history is its
    /// journal with the event `Opened` added; the tellers have seen it and know of no place. The
    /// journals themselves are copied and stay unchanged.
    ///
    /// Requires journals from which a hub with these settings can open (`CanOpenFrom`), as
    /// `inst_books::can_open` checks. Cost: linear in the events and in all places.
    ///
    /// # Errors
    ///
    /// - `BadSettings` exactly if `tellers` is not 1 to 16.
    /// - [`Memory`](Fault::Memory) if allocation fails. The settings are dropped.
    pub fn open_from(
        alloc: Global,
        settings: Settings,
        journals: &[Journal],
        tellers: u8,
    ) -> Result<(Hub, Vec<Teller>), Fault>
        requires journals { CanOpenFrom settings journals.now }
        ensures settings { IfOk result (λ r. r.0.settings ≡ settings) }
        ensures tellers { IfOk result (λ r.
            AreFirstTellers r.0 tellers (histories_from journals.now) r.1.items) }
        ensures opened { IfOk result (λ r. HasOpenedHub (FromBooks (books_of journals.now)) r.0) }
        ensures bad { (result ≡ Err Fault.BadSettings) ↔ ¬ MayOpen tellers }
        ensures only { IfErr result (λ e. (e ≡ Fault.Memory) ⊎ (e ≡ Fault.BadSettings)) }
    {
        let (whole, sights) = SharedBoard::open_whole(alloc, &settings, tellers)?;
        let words = Snapshot::of(&whole);
        let all = carry_over(alloc, &settings, journals, whole)?;
        let outset = InitialState {
            words,
            all: Snapshot::of(&all),
        };
        let (row, seat) = LockRow::open(alloc, all, &outset)?;
        let tellers = admit(alloc, &row, seat, sights)?;
        Ok((Hub { settings, row }, tellers))
    }
}
