//! Tests of runs of lines: lines that are cut off, and readers and writers that fail.
mod checking;
mod cuts;
mod failing;
mod failing_writers;
mod flushes;
mod newlines;
pub(crate) mod serving;
