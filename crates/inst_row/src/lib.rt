//! A row of locks over values, each with a law and a history that only grows. A seat that takes a
//! lock finds a history that extends all that the seat has seen of it.
#![tactic(auto)]

mod ended;
mod lawful;
mod row;
mod row_start;
mod rule;
mod seat;
mod steps;
mod view;

pub use ended::EndedRow;
pub use lawful::Lawful;
pub use row::{LockRow, MOST_SEATS};
pub use row_start::RowStart;
pub use rule::Guarding;
pub use seat::RowSeat;
pub use view::{Front, RowView};
