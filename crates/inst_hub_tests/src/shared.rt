//! Tests of boards over one table of atomic words, and of values behind locks.
mod boards;
mod locks;
