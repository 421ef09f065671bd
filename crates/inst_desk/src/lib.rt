//! A bounded queue of jobs for a hub, which many threads share, each with its own hand.
#![tactic(auto)]

mod account;
mod desk;
mod hand;
mod job;
mod rule;
mod tally;

pub use account::Account;
pub use desk::Desk;
pub use hand::Hand;
pub use job::Job;
pub use rule::Tallied;
pub use tally::Tally;
