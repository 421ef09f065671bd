//! Acts of a participant at its slot.
ghost use Rattle.std.specs.Prelude.{◌≡◌, true};
ghost use Rattle.inst_command.specs.Ask.{ask_fits};
ghost use Rattle.inst_board.specs.Plain.{Contents, plain_knows};
ghost use Rattle.inst_slot.specs.LawfulBoard.{IsLawfulBoard, KeepsOthers};

use inst_base::{Fault, Moment};
use inst_board::PlainBoard;
use inst_command::{Answer, Ask, Command, Place, Reply};
use inst_settings::Settings;
use inst_slot::Slot;

/// A command, or a step at a place.
#[derive(Clone, Copy)]
pub enum Act {
    Ask(Command),
    Deliver(Place),
    Learn(Place),
    Adopt(Place),
    Expire(u16),
}

/// Returns the slot's reply. Fails with `BadField` until all carried transfers are adopted.
fn ask_of(slot: &mut Slot, board: &mut PlainBoard, ask: &Ask) -> Result<Reply, Fault>
    requires own { ask.now.who ≡ slot.old.who }
    requires fits { ask_fits slot.old.settings ask.now ≡ true }
    requires lawful { IsLawfulBoard (λ (b : Contents). b.settings) plain_knows (λ _ _.
        Unit {0}) board.old slot.old }
    ensures lawful { IsLawfulBoard (λ (b : Contents). b.settings) plain_knows (λ _ _.
        Unit {0}) board.new slot.new }
    ensures others { KeepsOthers (λ (b : Contents). b.settings) plain_knows (λ _ _.
        Unit {0}) board.old slot.old.who board.new }
    ensures same { (slot.new.settings ≡ slot.old.settings) × (slot.new.who ≡ slot.old.who) }
{
    if slot.unfound() > 0 {
        return Err(Fault::BadField);
    }
    slot.apply(board, ask)
}

/// Delivers from the place. Fails with `BadField` until all carried transfers are adopted.
fn deliver_to(slot: &mut Slot, board: &mut PlainBoard, place: Place) -> Result<bool, Fault>
    requires lawful { IsLawfulBoard (λ (b : Contents). b.settings) plain_knows (λ _ _.
        Unit {0}) board.old slot.old }
    ensures lawful { IsLawfulBoard (λ (b : Contents). b.settings) plain_knows (λ _ _.
        Unit {0}) board.new slot.new }
    ensures others { KeepsOthers (λ (b : Contents). b.settings) plain_knows (λ _ _.
        Unit {0}) board.old slot.old.who board.new }
    ensures same { (slot.new.settings ≡ slot.old.settings) × (slot.new.who ≡ slot.old.who) }
{
    if slot.unfound() > 0 {
        return Err(Fault::BadField);
    }
    Ok(slot.deliver(board, place)?)
}

/// Returns the answer of the slot of the participant `who` to the act.
pub(crate) fn act_of(
    slot: &mut Slot,
    board: &mut PlainBoard,
    settings: &Settings,
    who: u8,
    act: &Act,
    at: Moment,
) -> Result<Answer, Fault>
    requires own { (slot.old.settings ≡ settings.now) × (slot.old.who ≡ who) }
    requires lawful { IsLawfulBoard (λ (b : Contents). b.settings) plain_knows (λ _ _.
        Unit {0}) board.old slot.old }
    ensures lawful { IsLawfulBoard (λ (b : Contents). b.settings) plain_knows (λ _ _.
        Unit {0}) board.new slot.new }
    ensures others { KeepsOthers (λ (b : Contents). b.settings) plain_knows (λ _ _.
        Unit {0}) board.old slot.old.who board.new }
    ensures same { (slot.new.settings ≡ slot.old.settings) × (slot.new.who ≡ slot.old.who) }
{
    let is_new = match *act {
        Act::Ask(command) => {
            let ask = Ask { who, command, at };
            if !ask.fits(settings) {
                return Err(Fault::BadField);
            }
            return Ok(Answer::Reply(ask_of(slot, board, &ask)?));
        }
        Act::Deliver(place) => deliver_to(slot, board, place)?,
        Act::Learn(place) => slot.learn(board, place)?,
        Act::Adopt(place) => slot.adopt(board, place),
        Act::Expire(index) => slot.expire(board, index, at)?,
    };
    Ok(Answer::New(is_new))
}
