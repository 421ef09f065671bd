//! Asking the board to decide a place, with capacity reserved first.
ghost use Rattle.std.specs.Prelude.{◌≡◌, ◌<◌, true, is_some, IfOk, OnErr};
ghost use Rattle.inst_board.specs.declared.look.Look.{Look};
ghost use Rattle.inst_board.specs.Learning.{MayDecide};
ghost use Rattle.inst_board.specs.Standing.{place_state_of};
ghost use Rattle.inst_slot.specs.Asking.{Finds, OnlyLooks, stays_pending};

use inst_base::Moment;
use inst_board::{Board, PlaceState, Wish};
use inst_command::{Outcome, Place};
use inst_ledger::Ledger;
use std::alloc::AllocError;

/// Returns `true` if the place is pending and the wish doesn't change that.
fn stays_pending(margin: u32, wish: &Wish, at: Moment, place_state: &PlaceState) -> bool
    ensures { (look : Look) → place_state.now ≡ place_state_of look →
        result ≡ stays_pending margin wish.now at look }
{
    match place_state {
        PlaceState::Pending(deadline) => wish.outcome(margin, *deadline, at).is_none(),
        _ => false,
    }
}

/// Returns the outcome at the place after the wish at clock reading `at`; `None` if it stays
/// pending.
///
/// Reserves capacity for one event before the board decides. If that fails, nothing is decided.
/// Allocates nothing if the place stays pending.
pub(crate) fn find<B: Board>(
    ledger: &mut Ledger,
    board: &mut B,
    margin: u32,
    place: Place,
    wish: Wish,
    at: Moment,
) -> Result<Option<Outcome>, AllocError>
    requires margin { margin ≡ (B.settings board.old).margin }
    requires may { MayDecide B.knows B.has_role board.old place wish }
    ensures found { IfOk result (λ found.
        Finds (B.settings board.old).margin B.knows B.has_role B.stood B.stays board.old place wish
        at found board.new) }
    ensures room { IfOk result (λ found. is_some found ≡ true → 0 < ledger.new.room) }
    ensures err { OnErr result
        (OnlyLooks (B.settings board.old).margin B.knows B.has_role B.stood board.old place wish at
        board.new) }
    ensures book { ledger.new.book ≡ ledger.old.book }
    ensures table { ledger.new.table ≡ ledger.old.table }
    ensures stays { B.stays board.old board.new }
{
    let place_state = board.place_state(place);
    if stays_pending(margin, &wish, at, &place_state) {
        return Ok(None);
    }
    ledger.reserve()?;
    Ok(board.decide(place, wish, at))
}
