//! The board of a hub on many threads: six atomic words a place, a board for each slot, which may
//! change them, and a sight for each teller, which only reads.
#![tactic(auto)]

pub mod laws;
mod rule;
mod shared_board;
mod sight;
mod steps;
mod ticket;
mod view;
mod words;

pub use rule::Law;
pub use shared_board::{MOST_TELLERS, SharedBoard};
pub use sight::Sight;
pub use ticket::Ticket;
pub use view::{Known, View};
