//! The sight of a teller.
ghost use Rattle.std.specs.Prelude.{◌≡◌, []};
ghost use Rattle.inst_cell.specs.Held.{roles_of};

mod seeing;
mod telling;

use crate::SharedBoard;

/// A teller's view of the shared words: a seat without a role, which knows what it saw and what
/// boards and other sights shared with it. No call of it allocates or blocks.
///
/// ```text
/// let ticket = board.tell(&mut sight, place);
/// sight.peek(&ticket)                    // State::Pending
/// ```
#[derive(Drop)]
pub struct Sight {
    board: SharedBoard,
    pub ghost nobody: { roles_of board ≡ [] },
}

impl Sight {
    /// Makes a sight of a board without roles.
    pub(crate) fn of(board: SharedBoard) -> Sight
        requires { roles_of board ≡ [] }
        ensures { result.board ≡ board }
    {
        Sight { board }
    }
}
