//! The statuses of the calls. The others are the numbers of faults.

/// Success.
pub const DONE: u32 = 0;
/// No hub is open in the handle.
pub const CLOSED: u32 = 100;
/// A hub is open in the handle already.
pub const STILL_OPEN: u32 = 101;
/// The buffer is too small for the whole reply.
pub const SHORT: u32 = 102;
