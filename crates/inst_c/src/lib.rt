//! The hub in one thread for C: a hub is opened, answers one line at a time, and is closed.
#![tactic(auto)]

mod calls;
mod chosen;
mod handle;
mod held_hub;
mod line_hub;
mod status;
