//! Settling one participant over a board that has all roles.
ghost use Rattle.std.specs.Prelude.{◌≡◌, ◌≢◌, ℕ, ◌<◌, false, IfOk};
ghost use Rattle.inst_settings.specs.Settings.{participants};
ghost use Rattle.inst_board.specs.declared.about.About.TheVariants.{Opened};
ghost use Rattle.inst_board.specs.Standing.{about};
ghost use Rattle.inst_journal.specs.Sound.{IsSound};
ghost use Rattle.inst_participant.specs.Sweeping.{new_events};
ghost use Rattle.inst_participant.specs.Together.{HasSettledAll};
ghost use Rattle.inst_participant.specs.Settling.{IsReadyToSettle, IsLater};
ghost use Rattle.inst_participant.specs.inner.Settling.{IsBookedAt, HasArrived, OwnAreBooked};
ghost use Rattle.inst_participant.specs.inner.Settling.{ArrivedAreBooked, HaveCome};

use inst_board::{Board, Look};
use inst_command::Place;
use inst_slot::Slot;
use std::alloc::AllocError;

/// Books each decided outcome of the participant's live transfers, own and forwarded, and delivers
/// what is pending for it. Returns how many events this stored, at most 2^32 - 1.
///
/// # Errors
///
/// [`AllocError`] if an event can't be stored; what was done before is kept.
pub fn settle<B: Board>(slot: &mut Slot, board: &mut B) -> Result<u32, AllocError>
    requires ready { IsReadyToSettle B.settings B.knows B.has_role board.old slot.old }
    ensures ready { IsReadyToSettle B.settings B.knows B.has_role board.new slot.new }
    ensures later { IsLater B.settings B.knows B.has_role B.stays board.old slot.old board.new
        slot.new }
    ensures settled { IfOk result (λ _. HasSettledAll B.knows board.new slot.new) }
    ensures count { IfOk result (λ count. count ≡ new_events slot.old.events slot.new.events) }
    ensures sound { IsSound slot.new.settings slot.new.who slot.new.events }
{
    let before = slot.journal().events().len();
    let done = settle_all(slot, board);
    let after = slot.journal().events().len();
    done?;
    Ok(u32::try_from(after - before).unwrap_or(u32::MAX))
}

/// Books own outcomes, then those of forwarded transfers, then delivers.
fn settle_all<B: Board>(slot: &mut Slot, board: &mut B) -> Result<(), AllocError>
    requires ready { IsReadyToSettle B.settings B.knows B.has_role board.old slot.old }
    ensures ready { IsReadyToSettle B.settings B.knows B.has_role board.new slot.new }
    ensures later { IsLater B.settings B.knows B.has_role B.stays board.old slot.old board.new
        slot.new }
    ensures settled { IfOk result (λ _. HasSettledAll B.knows board.old slot.new) }
{
    learn_own(slot, board)?;
    learn_arrived(slot, board)?;
    deliver_all(slot, board)
}

/// Books the outcome of the place if it is decided and not yet booked.
fn learn_at<B: Board>(slot: &mut Slot, board: &mut B, place: Place) -> Result<(), AllocError>
    requires ready { IsReadyToSettle B.settings B.knows B.has_role board.old slot.old }
    requires owner { place.owner < participants (B.settings board.old) }
    ensures ready { IsReadyToSettle B.settings B.knows B.has_role board.new slot.new }
    ensures later { IsLater B.settings B.knows B.has_role B.stays board.old slot.old board.new
        slot.new }
    ensures arrivals { slot.new.arrivals ≡ slot.old.arrivals }
    ensures booked { IfOk result (λ _. IsBookedAt B.knows board.old slot.old place slot.new) }
{
    slot.learn(board, place)?;
    Ok(())
}

/// Delivers the transfer of the place if it is pending, for the participant and new. Returns `true`
/// if the place is used.
fn deliver_at<B: Board>(slot: &mut Slot, board: &mut B, place: Place) -> Result<bool, AllocError>
    requires ready { IsReadyToSettle B.settings B.knows B.has_role board.old slot.old }
    requires owner { place.owner < participants (B.settings board.old) }
    ensures ready { IsReadyToSettle B.settings B.knows B.has_role board.new slot.new }
    ensures later { IsLater B.settings B.knows B.has_role B.stays board.old slot.old board.new
        slot.new }
    ensures come { IfOk result (λ _. HasArrived B.knows board.old place slot.new) }
    ensures unused { IfOk result (λ used.
        used ≡ false → ¬ B.knows board.old (about place Opened)) }
{
    match board.look(place) {
        Look::Unused => Ok(false),
        Look::Decided(..) => Ok(true),
        Look::Pending(terms, _) => {
            if terms.to != slot.who() {
                return Ok(true);
            }
            slot.deliver(board, place)?;
            Ok(true)
        }
    }
}

/// Books the decided outcomes of the participant's own live transfers.
fn learn_own<B: Board>(slot: &mut Slot, board: &mut B) -> Result<(), AllocError>
    requires ready { IsReadyToSettle B.settings B.knows B.has_role board.old slot.old }
    ensures ready { IsReadyToSettle B.settings B.knows B.has_role board.new slot.new }
    ensures later { IsLater B.settings B.knows B.has_role B.stays board.old slot.old board.new
        slot.new }
    ensures booked { IfOk result (λ _. OwnAreBooked B.knows board.old slot.new) }
{
    let owner = slot.who();
    let places = slot.settings().places();
    for index in 0..places {
        learn_at(slot, board, Place { owner, index })?;
    }
    Ok(())
}

/// Books the decided outcomes of the transfers that were forwarded to the participant.
fn learn_arrived<B: Board>(slot: &mut Slot, board: &mut B) -> Result<(), AllocError>
    requires ready { IsReadyToSettle B.settings B.knows B.has_role board.old slot.old }
    ensures ready { IsReadyToSettle B.settings B.knows B.has_role board.new slot.new }
    ensures later { IsLater B.settings B.knows B.has_role B.stays board.old slot.old board.new
        slot.new }
    ensures booked { IfOk result (λ _. ArrivedAreBooked B.knows board.old slot.new) }
{
    let mut from = 0;
    while let Some((position, place)) = slot.unbooked_from(from) {
        learn_at(slot, board, place)?;
        from = position + 1;
    }
    Ok(())
}

/// Delivers what is pending for the participant from all other originators.
fn deliver_all<B: Board>(slot: &mut Slot, board: &mut B) -> Result<(), AllocError>
    requires ready { IsReadyToSettle B.settings B.knows B.has_role board.old slot.old }
    ensures ready { IsReadyToSettle B.settings B.knows B.has_role board.new slot.new }
    ensures later { IsLater B.settings B.knows B.has_role B.stays board.old slot.old board.new
        slot.new }
    ensures come { IfOk result (λ _. (owner : ℕ) → owner ≢ slot.new.who →
        HaveCome B.knows board.old owner slot.new) }
{
    let own = u16::from(slot.who());
    let participants = slot.settings().participants();
    for owner in 0..participants {
        if owner != own {
            deliver_from(slot, board, owner as u8)?;
        }
    }
    Ok(())
}

/// Delivers what is pending for the participant from one other originator, up to its first unused
/// place.
fn deliver_from<B: Board>(slot: &mut Slot, board: &mut B, owner: u8) -> Result<(), AllocError>
    requires ready { IsReadyToSettle B.settings B.knows B.has_role board.old slot.old }
    requires owner { owner < participants (B.settings board.old) }
    ensures ready { IsReadyToSettle B.settings B.knows B.has_role board.new slot.new }
    ensures later { IsLater B.settings B.knows B.has_role B.stays board.old slot.old board.new
        slot.new }
    ensures come { IfOk result (λ _. HaveCome B.knows board.old owner slot.new) }
{
    let places = slot.settings().places();
    for index in 0..places {
        if !deliver_at(slot, board, Place { owner, index })? {
            return Ok(());
        }
    }
    Ok(())
}
