//! The program's command line: its words as a task with the settings of a hub, or the reason why
//! they can't be one. Also the meaning of each fault, and the escaping of texts from outside on
//! standard error.
#![tactic(auto)]

mod advice;
mod any_fault;
mod bad_option;
mod command_line;
mod error;
mod invocation;
mod log_fault;
mod options;
pub mod rows;
mod setting_changes;
mod shown;
mod table;
mod texts;
mod words;

pub use any_fault::{AnyFault, fault_of};
pub use bad_option::BadOption;
pub use error::WordsError;
pub use invocation::{Invocation, LogOptions, NextOptions};
pub use log_fault::LogFault;
pub use setting_changes::{SettingChanges, changed_settings};
pub use shown::excerpt;
pub use words::wished;
