//! The commands, steps and replies of a hub as values, and the text of a statement line.
#![tactic(auto)]

mod ask;
mod command;
mod count;
mod entry;
mod funding;
mod items;
pub mod laws;
mod layout;
mod line;
mod outcome;
mod place;
mod query;
mod reply;
mod step;
mod submission;

pub use ask::Ask;
pub use command::Command;
pub use count::{MOST_COUNT, is_count};
pub use entry::{Entries, Entry};
pub use funding::Funding;
pub use items::Items;
pub use layout::{LineText, kind_name, line_text, other_code};
pub use line::{Line, LineKind, Lines};
pub use outcome::{Outcome, State};
pub use place::Place;
pub use query::Query;
pub use reply::{Answer, Reply, refusals_told};
pub use step::Step;
pub use submission::Submission;
