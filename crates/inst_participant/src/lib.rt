//! A participant behind its lock in a hub on many threads, and all participants of a hub that was
//! taken apart. This crate has no lock and no thread.
#![tactic(auto)]

mod follow_up;
pub mod laws;
mod participant;
mod parts;
mod settled;
mod settling;
mod uniting;

pub use follow_up::{FollowUp, FollowUpKind};
pub use participant::Participant;
pub use parts::Parts;
pub use settled::{settle_each, settle_one};
pub use settling::settle;
