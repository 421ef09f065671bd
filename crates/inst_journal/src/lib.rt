//! A participant's history, with plain functions that compute from its events.
#![tactic(auto)]

mod booked;
mod event;
mod fundings;
mod handle;
mod journal;
mod keys;
pub mod laws;
mod live;
mod money;
mod opened;
mod queries;
mod reply;
pub mod rows;
mod statement;
mod sums;
mod transfers;

pub use event::Event;
pub use handle::{Handled, handle_command};
pub use journal::Journal;
pub use opened::MOST_OPENINGS;
pub use reply::reply_of;
pub use transfers::{standing, still_pending};
