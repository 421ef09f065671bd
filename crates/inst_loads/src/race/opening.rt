//! Opens the participants of a race, one for each board.
ghost use Rattle.std.specs.Prelude.{List};
ghost use Rattle.inst_settings.specs.Lawful.{IsSettings};
ghost use Rattle.inst_cell.specs.declared.sight.Sight.{Sight};
ghost use Rattle.inst_cell.specs.Opening.{AreOpened};

use crate::race::participant::Racer;
use inst_base::Fault;
use inst_cell::SharedBoard;
use inst_fixtures::settings_with;
use inst_settings::Settings;
use std::alloc::Global;

/// Opens each participant with its board.
fn seated(alloc: Global, settings: &Settings, boards: Vec<SharedBoard>) -> Result<Vec<Racer>, Fault>
    requires lawful { IsSettings settings.now }
    requires opened { (sights : List Sight) × AreOpened settings.now 1 boards.items sights }
{
    let mut participants = Vec::new(alloc);
    for (who, board) in boards.into_iter().enumerate() {
        participants.push(Racer::open(alloc, settings, board, who as u8)?)?;
    }
    Ok(participants)
}

/// Opens the participants, by number. `margin` is in milliseconds.
pub(crate) fn open(alloc: Global, places: u16, margin: u32) -> Result<Vec<Racer>, Fault> {
    let settings = settings_with(alloc, places, margin)?;
    let (boards, _sights) = SharedBoard::open(alloc, &settings, 1)?;
    seated(alloc, &settings, boards)
}
