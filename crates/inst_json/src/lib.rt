//! The lines of a hub: commands and steps read from JSON, and replies and steps written to it.
#![tactic(auto)]

mod asker;
mod checks;
mod command;
pub mod fields;
pub mod laws;
mod line;
mod lists;
mod members;
mod name;
pub mod piece;
mod read;
mod refusal;
mod reply;
mod scanning;
mod step;
mod step_lines;
mod verb;
mod write;

pub use checks::participant;
pub use line::{fields_of, scan_line};
pub use name::Name;
pub use read::{LineReader, read_command, read_step};
pub use refusal::Refusal;
pub use reply::{append_reply, code_text};
pub use scanning::{Field, Fields, Form, scan};
pub use step_lines::append_step;
pub use write::{append_answer, write_answer, write_reply};
