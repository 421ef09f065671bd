//! The log: a file that gets each line before its reply is written. If the disk keeps what it
//! synced, a crash loses no line whose reply was sent. Also [`run_twice`], a run that a crash cuts
//! off and a second one that resumes its log.
#![tactic(auto)]

mod batch;
mod delivery;
mod error;
mod extent;
mod file_lines;
mod front;
mod line_cutter;
mod log;
mod opening;
mod reading;
mod recorder;
mod repair;
mod responder;
mod restart;
mod start;
mod surveying;
mod synced;

pub use batch::{close_batch, line_comes_back, line_of, push_line};
pub use delivery::deliver;
pub use error::LogError;
pub use extent::Extent;
pub use file_lines::FileLines;
pub use front::{first_line, whole_lines};
pub use line_cutter::LineCutter;
pub use log::Log;
pub use opening::read_file;
pub use reading::{count_lines, lines_len, read_lines};
pub use recorder::Recorder;
pub use responder::Responder;
pub use restart::{LogRun, Machine, Twice, run_twice};
pub use start::Start;
pub use surveying::survey;
