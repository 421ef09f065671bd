//! Tests of hubs that close. No contract says that memory is enough, or that the books are those of
//! the calls before.
mod chain;
mod closing;
