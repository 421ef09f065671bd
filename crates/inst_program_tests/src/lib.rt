//! Tests of the whole program with its logs in memory: one task after another, a machine that stops
//! at each call, logs that are refused, and the script of a drill.
#![tactic(auto)]

mod memory_logs;
#[cfg(test)]
mod openings;
#[cfg(test)]
mod refusals;
#[cfg(test)]
mod scene;
#[cfg(test)]
mod scripts;
#[cfg(test)]
mod stops;
