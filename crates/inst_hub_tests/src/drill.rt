//! Tests of drills. No contract says that memory is enough, how many jobs a drill has, or that the
//! books of a chain of openings have all that the threads did.
mod chain;
mod kept;
