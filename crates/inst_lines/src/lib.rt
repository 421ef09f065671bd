//! Whole runs of lines at a hub in one thread: each line of the input gets one line as its reply.
#![tactic(auto)]

mod answer;
mod check;
mod laws;
mod limits;
mod line_buffer;
mod mode;
mod replies;
mod run;
mod session;

pub use answer::answer_line;
pub use check::check_lines;
pub use laws::{lines_keep_the_headline, replies_are_the_runs_answers};
pub use limits::{BUFFER_BYTES, MOST_BYTES, MOST_LINE_BYTES, MOST_LINES};
pub use mode::Mode;
pub use run::{Served, play_lines, run_lines, serve_lines};
pub use session::Counts;
