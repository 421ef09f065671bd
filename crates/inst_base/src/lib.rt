//! Checked values, the rules of time, the eighteen faults, and the bytes of a line: finding its end
//! and writing it.
#![tactic(auto)]

mod cents;
mod code;
mod fault;
mod handing;
mod ident;
mod moment;
mod naming;
mod newline;
mod reason;
mod short_text;

pub use cents::{Cents, MOST_CENTS};
pub use code::{BRANCH_CODE_LENGTH, CODE_LENGTH, Code};
pub use fault::Fault;
pub use handing::{Unwritten, write_bytes};
pub use ident::{Ident, MOST_IDENTIFIER_LENGTH};
pub use moment::Moment;
pub use naming::mention;
pub use newline::find_newline;
pub use reason::{REASON_LENGTH, Reason};
