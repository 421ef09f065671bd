//! The statement of a history.
ghost use Rattle.std.specs.Prelude.{◌≡◌, IfOk};
ghost use Rattle.inst_journal.specs.Statement.{statement_part};
ghost use Rattle.inst_statement.specs.Someones.{IsSomeones};

use crate::kept_statement::KeptStatement;
use crate::passed::PassedTransfers;
use inst_command::Line;
use inst_journal::{Event, Journal};
use std::alloc::{AllocError, Global};

/// Returns at most `count` lines after the first `skip` of a history's statement since its last
/// opening.
///
/// For a caller that has only the history. Cost: one pass over the events, with tables of the
/// transfers met and all lines held meanwhile.
///
/// # Errors
///
/// [`AllocError`] if the tables or the lines can't be allocated.
pub fn statement(
    alloc: Global,
    journal: &Journal,
    skip: u64,
    count: u32,
) -> Result<Vec<Line>, AllocError>
    requires sound { IsSomeones journal.now.events }
    ensures ok { IfOk result (λ lines. lines.items ≡ statement_part journal.now.events skip count) }
{
    let mut transfers = PassedTransfers::new(alloc);
    let mut statement = KeptStatement::new(alloc);
    for (index, event) in journal.events().iter().enumerate() {
        if let Some(movement) = transfers.movement(event) {
            // Tells the verifier that the amount is at most the largest one.
            let _ = movement.cents.get();
            statement.reserve()?;
            statement.add(index as u32, &movement);
        } else if matches!(event, Event::Opened) {
            statement.begin();
        }
        transfers.keep(event)?;
    }
    statement.part(alloc, journal.events(), skip, count)
}
