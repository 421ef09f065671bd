//! Closing a hub, and closing what is left of it again.
ghost use Rattle.std.specs.Prelude.{◌≡◌, ℕ, List, IfOk, IfErr};
ghost use Rattle.inst_board.specs.declared.about.About.TheVariants.{Opened};
ghost use Rattle.inst_command.specs.declared.place.Place.{Place};
ghost use Rattle.inst_board.specs.Standing.{about};
ghost use Rattle.inst_cell.specs.Held.{knows};
ghost use Rattle.inst_model.specs.Closing.{OnlyTold};
ghost use Rattle.inst_model.specs.Opening.{Opening};
ghost use Rattle.inst_participant.specs.Together.{histories};
ghost use Rattle.inst_participant.specs.InTheBooks.{IsInTheBooks};
ghost use Rattle.inst_hub.specs.declared.hub.Hub.{Hub};
ghost use Rattle.inst_hub.specs.declared.teller.Teller.{Teller};
ghost use Rattle.inst_hub.specs.Calls.{AreOf};
ghost use Rattle.inst_hub.specs.Opening.{HaveAllParts};
ghost use Rattle.inst_participant.specs.Apart.{IsPartsOf, histories_of, board_of, hub_of};
ghost use Rattle.inst_close.specs.Closing.{IsOpenedSo, IsLeftOf, MayClose, IsClosedFrom, rest_of};
ghost use Rattle.inst_close.specs.inner.Closing.{IsPartly};

use crate::Books;
use inst_hub::{Hub, TakeFault, Teller};
use inst_participant::Parts;
use std::alloc::Global;
use std::fmt;
use thiserror::Error;

/// What is left of a hub whose closing failed to allocate. It can be closed again.
#[derive(Drop)]
pub enum Rest {
    /// The hub and its tellers, unchanged.
    Whole { hub: Hub, tellers: Vec<Teller> },
    /// The parts of the hub. What was booked and delivered before is kept.
    Apart(Parts),
}

/// The error of [`close`] and [`Rest::close`]; returns what is left of the hub.
#[derive(Drop, Error)]
pub enum CloseFault {
    /// Allocation failed.
    #[error("an allocation failed; what is left of the hub can be closed again")]
    Memory { rest: Rest },
}

/// Prints which fault it is, and nothing of the hub.
impl fmt::Debug for CloseFault {
    fn fmt<W: fmt::Write>(&self, f: &mut fmt::Formatter<W>) -> fmt::Result {
        f.write_str("Memory { .. }")
    }
}

/// Closes a hub and returns its books.
///
/// Each participant books each decided outcome of its live transfers and receives what is pending
/// for it; nothing else is added to the books. They extend all that the tellers have seen, and have
/// all that these knew of places. Takes no clock reading, and settling the books decides nothing.
///
/// Requires an opened hub with all its tellers, and so waits for no lock. Cost: participants ×
/// places visits, and for each participant one to each live transfer of the others.
///
/// # Errors
///
/// [`CloseFault::Memory`] if allocation fails; it has what is left of the hub, which can be closed
/// again.
pub fn close(alloc: Global, hub: Hub, tellers: Vec<Teller>) -> Result<Books, CloseFault>
    requires of { AreOf hub tellers.items }
    requires parts { HaveAllParts tellers.items }
    requires opened { (O : Opening) × IsOpenedSo O hub }
    ensures books { IfOk result (IsClosedFrom hub tellers.items) }
    ensures left { IfErr result (λ e. IsLeftOf hub tellers.items (rest_of e)
        × MayClose (rest_of e)) }
{
    match hub.take_apart(alloc, tellers) {
        Ok(parts) => close_parts(parts),
        Err(TakeFault::Memory { hub, tellers }) => Err(CloseFault::Memory {
            rest: Rest::Whole { hub, tellers },
        }),
    }
}

/// Settles these parts and returns their books.
fn close_parts(parts: Parts) -> Result<Books, CloseFault>
    requires parts { (O : Opening) × IsPartsOf O parts }
    ensures settings { IfOk result (λ books. books.settings ≡ hub_of parts) }
    ensures histories { IfOk result (λ books. (p : ℕ) →
        OnlyTold (histories_of parts p) (histories books.books p)) }
    ensures told { IfOk result (λ books. (k : Place) → knows (board_of parts) (about k Opened) →
        IsInTheBooks knows (board_of parts) (histories books.books) k) }
    ensures left { IfErr result (λ e. IsPartly parts (rest_of e)) }
{
    let mut parts = parts;
    match parts.settle_all() {
        Ok(()) => {
            let (settings, slots) = parts.into_slots();
            Ok(Books::of(settings, slots))
        }
        Err(_) => Err(CloseFault::Memory {
            rest: Rest::Apart(parts),
        }),
    }
}

impl Rest {
    /// Closes what is left of a hub. The books are those of [`close`] with the hub's tellers.
    ///
    /// Requires what a failed closing returned.
    ///
    /// # Errors
    ///
    /// [`CloseFault::Memory`] if allocation fails; it has what is left then, which can be closed
    /// again.
    pub fn close(self, alloc: Global) -> Result<Books, CloseFault>
        requires may { MayClose self }
        ensures books { IfOk result (λ books. (h : Hub) (tellers : List Teller) →
            IsLeftOf h tellers self → IsClosedFrom h tellers books) }
        ensures left { IfErr result (λ e. (h : Hub) (tellers : List Teller) →
            IsLeftOf h tellers self → IsLeftOf h tellers (rest_of e)) }
        ensures again { IfErr result (λ e. MayClose (rest_of e)) }
    {
        match self {
            Rest::Whole { hub, tellers } => close(alloc, hub, tellers),
            Rest::Apart(parts) => close_parts(parts),
        }
    }
}
