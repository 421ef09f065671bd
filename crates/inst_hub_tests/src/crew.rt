//! Tests of desks and crews. No contract says in which order jobs are taken, that a desk of several
//! hands is full or empty only if it is so, or that the threads of a crew run at the same time.
mod desk;
mod setting;
mod sweeper;
mod two_threads;
