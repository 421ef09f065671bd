//! A hub in one thread with a log: each line is synced to the disk before a byte of its reply is
//! written, and a hub that was stopped at any moment resumes after the last line of its log.
#![tactic(auto)]

mod error;
mod header;
mod hub;
mod intake;
mod laws;
mod line_answers;
mod log_header;
mod marking;
mod version;

pub use error::LoggedError;
pub use header::{Heading, OpeningBooks, Origin, first_batch, first_batch_from};
pub use hub::{LoggedHub, NewHub};
pub use laws::{a_refused_log_is_not_taken, headers_tell_their_settings, lines_answer_alike};
pub use line_answers::LineAnswers;
pub use log_header::{LogHeader, read_beginning, version_of};
pub use version::Version;
