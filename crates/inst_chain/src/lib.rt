//! A log whose batches end with marks: a chain of SHA-256 digests, by which damage is distinguished
//! from the effects of a crash.
#![tactic(auto)]

mod checker;
mod digest;
mod error;
mod laws;
mod marker;
mod prefix;
mod summary;
mod verifying;

pub use checker::Checker;
pub use digest::{DIGEST_LEN, Digest, is_digest};
pub use error::ChainError;
pub use laws::{no_line_is_a_mark, one_digest_one_log};
pub use marker::{MARK_LEN, Marker, has_digest, has_mark, is_mark, mark_lines};
pub use prefix::Prefix;
pub use summary::{Summary, summarize};
pub use verifying::{Verified, verify, verify_known};
