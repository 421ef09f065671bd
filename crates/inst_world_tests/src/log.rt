//! Tests of logs of lines: files that open and files that don't, escapes, error texts, and a
//! machine that stops at each call to its disk, with the last write torn at each byte.
mod batches;
mod errors;
mod escapes;
mod openings;
mod readings;
mod runs;
pub(crate) mod stops;
