//! Drills: a hub on many threads, from its opening to its books, several times in a row.
#![tactic(auto)]

mod counting;
mod drilling;
mod error;
mod explaining;
mod feeding;
mod opening;
mod plan;
mod report;
mod request;
mod round;
mod staff;

pub use drilling::drill;
pub use error::DrillError;
pub use explaining::DrillResult;
pub use inst_hub::{Gate, Ungated};
pub use report::Report;
pub use request::DrillRequest;
