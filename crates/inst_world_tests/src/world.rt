//! Tests of the hub in one thread: its steps, its openings, and that a participant sees nothing of
//! others' traffic.
mod next_openings;
mod told;
mod two_runs;
mod worlds;
