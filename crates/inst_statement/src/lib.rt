//! A participant's statement, stored line by line or computed from its history in one pass.
#![tactic(auto)]

mod kept_line;
mod kept_statement;
mod movement;
mod passed;
mod walk;

pub use kept_statement::KeptStatement;
pub use movement::Movement;
pub use walk::statement;
