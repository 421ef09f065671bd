//! One participant's books: its history, with running totals, tables and the statement.
#![tactic(auto)]

pub mod laws;
mod ledger;
mod references;
mod sending;
mod totals;

pub use ledger::Ledger;
pub use sending::{Forwarding, Sending};
