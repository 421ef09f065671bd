//! Deadlines of an originator's transfers in order, each with the index of its place.
#![tactic(auto)]

mod due;

pub use due::Due;
