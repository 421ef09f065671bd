//! A hub in one thread with all its slots: steps, runs of steps, closing, and opening again from
//! journals.
#![tactic(auto)]

pub mod laws;
mod trace;
mod two_runs;
mod world;

pub use trace::{Answers, Trace};
pub use two_runs::run_both;
pub use world::{World, have_openings_left};
