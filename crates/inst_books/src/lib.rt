//! Participants' books as text, JSON lines with one event each, and checking if a hub may open from
//! books.
#![tactic(auto)]

mod audit;
mod books;
mod fault;
mod fields;
pub mod laws;
mod members;
mod positions;
mod read;
mod replay;
mod sides;
mod tally;
mod write;

pub use audit::can_open;
pub use books::{append_books, read_books};
pub use fault::BookFault;
pub use positions::{CarryFault, PendingTransfer, base_after, carry_positions, first_pending};
pub use read::read_event;
pub use replay::Replay;
