//! Joining the boards of all participants into one.
ghost use Rattle.std.specs.Prelude.{◌≡◌, ◌⊎◌, ◌↔◌, ◌<◌, length};
ghost use Rattle.inst_board.specs.declared.about.Fact.{Fact};
ghost use Rattle.inst_cell.specs.declared.shared_board.SharedBoard.{SharedBoard};
ghost use Rattle.inst_cell.specs.Held.{knows, AtOneTable};
ghost use Rattle.inst_model.specs.Opening.{Opening};
ghost use Rattle.inst_participant.specs.Apart.{IsPartsOf};
ghost use Rattle.inst_participant.specs.Uniting.{AreSeparate, AreAtOne, AreSights, OneKnows};
ghost use Rattle.inst_participant.specs.Uniting.{OneSees};
ghost use Rattle.inst_participant.specs.inner.Uniting.{AreJoined, IsToldMore};

use crate::Parts;
use inst_cell::{SharedBoard, Sight};
use inst_settings::Settings;
use inst_slot::Slot;

impl Parts {
    /// Joins the boards of all participants, by number, and the sights of all tellers into the
    /// parts of the hub. The board of the parts has all roles and knows exactly what one of them
    /// knew.
    ///
    /// Decides nothing and doesn't allocate.
    pub fn unite(
        settings: Settings,
        slots: Vec<Slot>,
        boards: Vec<SharedBoard>,
        sights: Vec<Sight>,
    ) -> Parts
        requires some { 0 < length boards.items }
        requires one { (words : SharedBoard) × AreAtOne words settings slots.items boards.items
            × AreSights words sights.items }
        ensures settings { result.settings ≡ settings }
        ensures slots { result.slots.items ≡ slots.items }
        ensures parts { (words : SharedBoard) (O : Opening) →
            AreSeparate words O settings slots.items boards.items → IsPartsOf O result }
        ensures known { (f : Fact) → knows result.board f ↔
            (OneKnows boards.items f ⊎ OneSees sights.items f) }
    {
        let board = tell_all(join_all(&settings, &slots, boards), sights);
        Parts {
            settings,
            slots,
            board,
        }
    }
}

/// Joins these boards into one with all their roles, which knows exactly what one of them knew.
fn join_all(settings: &Settings, slots: &[Slot], boards: Vec<SharedBoard>) -> SharedBoard
    requires some { 0 < length boards.items }
    requires one { (words : SharedBoard) × AreAtOne words settings.now slots.now boards.items }
    ensures one { (words : SharedBoard) → AreAtOne words settings.now slots.now boards.items →
        AtOneTable words result }
    ensures joined { (words : SharedBoard) (O : Opening) →
        AreSeparate words O settings.now slots.now boards.items →
        AreJoined words O settings.now slots.now boards.items result }
    ensures known { (f : Fact) → knows result f ↔ OneKnows boards.items f }
{
    let mut boards = boards.into_iter();
    let Some(mut whole) = boards.next() else {
        unreachable!()
    };
    for board in boards {
        whole.join(board);
    }
    whole
}

/// Lets the board know what the sights know, and nothing else.
fn tell_all(whole: SharedBoard, sights: Vec<Sight>) -> SharedBoard
    requires sights { AreSights whole sights.items }
    ensures told { IsToldMore whole result }
    ensures known { (f : Fact) → knows result f ↔ (knows whole f ⊎ OneSees sights.items f) }
{
    let mut whole = whole;
    for sight in sights {
        whole.join_sight(sight);
    }
    whole
}
