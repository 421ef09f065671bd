//! The transfers of one participant in one table, each with its side, amount and outcome, and their
//! sums.
#![tactic(auto)]

mod transfer;
mod transfers;

pub use transfer::{Found, Side, Transfer};
pub use transfers::Transfers;
