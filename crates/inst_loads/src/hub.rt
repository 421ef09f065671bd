//! The hub of a load or a stress: opening, the threads' jobs and results, calls, and closing.
pub(crate) mod asking;
pub(crate) mod closing;
pub(crate) mod done;
pub(crate) mod job;
pub(crate) mod opening;
