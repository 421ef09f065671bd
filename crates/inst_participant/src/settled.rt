//! Settling all participants, one after another.
ghost use Rattle.std.specs.Prelude.{◌≡◌, ◌≢◌, ℕ, ◌<◌, IfOk};
ghost use Rattle.inst_settings.specs.Settings.{participants};
ghost use Rattle.inst_board.specs.declared.about.About.TheVariants.{Opened};
ghost use Rattle.inst_command.specs.declared.place.Place.{Place};
ghost use Rattle.inst_board.specs.Standing.{about};
ghost use Rattle.inst_model.specs.Closing.{AreClosed};
ghost use Rattle.inst_model.specs.Opening.{Opening};
ghost use Rattle.inst_participant.specs.Sweeping.{new_events};
ghost use Rattle.inst_participant.specs.Together.{histories};
ghost use Rattle.inst_participant.specs.InTheBooks.{IsInTheBooks};
ghost use Rattle.inst_participant.specs.Parts.{AreParts, IsSettledAt, AreLaterParts};

use crate::settling::settle;
use inst_board::Board;
use inst_settings::Settings;
use inst_slot::Slot;
use std::alloc::AllocError;

/// Settles the participant `who`, and returns how many events this stored, at most 2^32 - 1.
///
/// # Errors
///
/// [`AllocError`] if an event can't be stored; what was done before is kept.
pub fn settle_one<B: Board>(
    slots: &mut Vec<Slot>,
    board: &mut B,
    who: u8,
) -> Result<u32, AllocError>
    requires parts { (O : Opening)
        × AreParts B.settings B.knows B.has_role board.old O slots.old.items }
    requires participant { who < participants (B.settings board.old) }
    ensures later { AreLaterParts B.settings B.knows B.has_role B.stays board.old slots.old.items
        board.new slots.new.items }
    ensures settled { IfOk result (λ _. IsSettledAt B.knows board.new who slots.new.items) }
    ensures count { IfOk result (λ count.
        count ≡ new_events (histories slots.old.items who) (histories slots.new.items who)) }
    ensures kept { (p : ℕ) → p ≢ who → IsSettledAt B.knows board.old p slots.old.items →
        IsSettledAt B.knows board.new p slots.new.items }
{
    settle(&mut slots[usize::from(who)], board)
}

/// Settles each participant, by number. Then the books are closed.
///
/// # Errors
///
/// [`AllocError`] if an event can't be stored; what was done before is kept.
pub fn settle_each<B: Board>(
    settings: &Settings,
    slots: &mut Vec<Slot>,
    board: &mut B,
) -> Result<(), AllocError>
    requires settings { B.settings board.old ≡ settings.now }
    requires parts { (O : Opening)
        × AreParts B.settings B.knows B.has_role board.old O slots.old.items }
    ensures later { AreLaterParts B.settings B.knows B.has_role B.stays board.old slots.old.items
        board.new slots.new.items }
    ensures closed { IfOk result (λ _. AreClosed settings.now (histories slots.new.items)) }
    ensures told { IfOk result (λ _. (k : Place) → B.knows board.old (about k Opened) →
        IsInTheBooks B.knows board.old (histories slots.new.items) k) }
{
    for who in 0..settings.participants() {
        settle_one(slots, board, who as u8)?;
    }
    Ok(())
}
