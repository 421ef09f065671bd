//! Boards, slots over them, and values behind locks.
ghost use Rattle.std.specs.Prelude.{◌≡◌, ◌<◌, true};
ghost use Rattle.inst_command.specs.Ask.{ask_fits};
ghost use Rattle.inst_board.specs.declared.about.About.TheVariants.{Opened};
ghost use Rattle.inst_board.specs.declared.wish.Wish.TheVariants.{Accept};
ghost use Rattle.inst_board.specs.Standing.{about};
ghost use Rattle.inst_board.specs.Learning.{MayDecide};
ghost use Rattle.inst_slot.specs.LawfulBoard.{IsLawfulBoard, AllAreAdopted};
ghost use Rattle.inst_slot.specs.Asking.{AsksAdopted};
ghost use Rattle.inst_cell.specs.Held.{AtOneTable, knows};
ghost use Rattle.inst_cell.specs.Seen.{board_of_sight};
ghost use Rattle.inst_row.specs.Row.{row_id, key_of, size};
ghost use Rattle.inst_row.specs.Seated.{IsOn, IsFree};

use inst_base::{Fault, Moment};
use inst_board::{Board, Look, Wish};
use inst_cell::{SharedBoard, Sight};
use inst_command::{Ask, Outcome, Place, Reply, State};
use inst_row::{Lawful, LockRow, RowSeat};
use inst_slot::Slot;
use std::sync::Wait;

/// Lets the beneficiary accept the transfer of a place; returns its outcome and its look
/// afterwards.
pub fn board<B: Board>(board: &mut B, place: Place, at: Moment) -> (Option<Outcome>, Look)
    requires { MayDecide B.knows B.has_role board.old place Accept }
{
    let outcome = board.decide(place, Wish::Accept, at); // the outcome from now on; `None`: pending
    let look = board.look(place); // `Decided` with that outcome, or still `Pending`
    (outcome, look)
}

/// Lets a slot answer an ask, receive a transfer, learn an outcome and expire; returns the reply
/// and the position.
pub fn slot<B: Board>(
    slot: &mut Slot,
    board: &mut B,
    ask: &Ask,
    place: Place,
) -> Result<(Reply, u128), Fault>
    requires own { ask.now.who ≡ slot.old.who }
    requires fits { ask_fits slot.old.settings ask.now ≡ true }
    requires lawful { IsLawfulBoard B.settings B.knows B.has_role board.old slot.old }
    requires asked { AsksAdopted slot.old ask.now.command }
    requires adopted { AllAreAdopted slot.old }
{
    let reply = slot.apply(board, ask)?; // the reply, which may be a refusal
    slot.deliver(board, place)?; // true: another's transfer was forwarded
    slot.learn(board, place)?; // true: an outcome was booked
    slot.expire(board, 0, ask.at)?; // true: the outcome of its transfer 0 was booked
    Ok((reply, slot.position()))
}

/// Returns the state of a place that the board knows to be opened.
pub fn shared_board(board: &mut SharedBoard, sight: &mut Sight, place: Place) -> State
    requires one { AtOneTable board.old (board_of_sight sight.old) }
    requires opened { knows board.old (about place Opened) }
{
    let ticket = board.tell(sight, place); // the sight knows what the board knows
    sight.peek(&ticket) // `Pending` or `Decided`, never `Unused`
}

/// Takes the first lock of a row, and gives it back.
pub fn row<T, E, K, L: Lawful<T, E, K>, R: Wait>(
    rt: &R,
    row: &LockRow<T, E, K, L>,
    seat: &mut RowSeat<T, E, K>,
)
    requires on { IsOn (row_id row.now) (key_of row.now) seat.old }
    requires some { 0 < size row.now }
    requires free { IsFree seat.old }
{
    let value = row.take(rt, seat, 0); // blocks until lock 0 is free; its value keeps the law
    row.give(seat, 0, value); // the same value, or one with an extended history
}
