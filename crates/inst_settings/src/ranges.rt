//! The largest value of each setting.

use inst_base::MOST_CENTS;

/// The most participants of a hub. A participant's number is one byte.
pub const MOST_PARTICIPANTS: usize = 256;
/// The most places of an originator.
pub const MOST_PLACES: u16 = 1024;
/// The most kept fund and defund commands of a participant between two openings.
pub const MOST_FUNDINGS: u16 = 1024;
/// The longest time from time stamp to deadline, in milliseconds: an hour.
pub const MOST_LIMIT: u32 = 3_600_000;
/// The furthest that a time stamp may be after the clock reading, in milliseconds: a minute.
pub const MOST_AHEAD: u32 = 60_000;
/// The highest ceiling of a command's amount, in cents.
pub const MOST_CEILING: u64 = MOST_CENTS;
/// The latest base of a hub's moments, in absolute milliseconds: 2^62.
pub const MOST_BASE: u64 = 4_611_686_018_427_387_904;
