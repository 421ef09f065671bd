//! The program, generic over the machine's files and streams: it does what the words of the command
//! line ask for and returns the exit status.
#![tactic(auto)]

mod auditing;
mod carrying;
mod changing;
mod console;
mod drilling;
mod exit_reason;
mod keeping;
mod laws;
mod logs;
mod renewing;
pub mod rows;
mod showing;
mod summary;
mod tasks;

pub use console::Console;
pub use laws::{an_untaken_log_is_not_good, the_bounds};
pub use logs::{Logs, LogsError};
pub use tasks::{program, words_failed};
