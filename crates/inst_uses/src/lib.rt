//! The examples on the crates' pages: a few lines that call each crate.
#![tactic(auto)]

pub mod boards;
pub mod books;
pub mod chains;
pub mod laws;
pub mod lines;
pub mod logs;
pub mod threads;
pub mod values;
pub mod words;
