//! The numbers among a hub's settings.

use crate::ranges::MOST_CEILING;

/// The settings of a hub without its participants. [`Settings::check`](crate::Settings::check)
/// checks the ranges.
#[derive(Clone, Copy, Debug, PartialEq, Eq)]
pub struct HubParameters {
    /// The most live transfers of an originator, 1 to 1,024.
    pub places: u16,
    /// The most fund and defund commands that are kept for a participant between two openings, 1 to
    /// 1,024.
    pub fundings: u16,
    /// The maximum execution time, from time stamp to deadline, in milliseconds: 1 to 3,600,000.
    pub limit: u32,
    /// The cut-off before the deadline, within which no transfer is accepted, in milliseconds. Less
    /// than `limit`.
    pub margin: u32,
    /// The tolerated clock skew, in milliseconds: how far a time stamp may be after the clock
    /// reading. At most 60,000.
    pub ahead: u32,
    /// The largest amount of a command, in cents: 1 to 99,999,999,999.
    pub ceiling: u64,
    /// The moment from which the hub counts, in absolute milliseconds. At most 2^62.
    pub base: u64,
}

impl HubParameters {
    /// The program's settings if no option changes them.
    pub const DEFAULT: HubParameters = HubParameters {
        places: 256,
        fundings: 256,
        limit: 10_000,
        margin: 0,
        ahead: 1_000,
        ceiling: MOST_CEILING,
        base: 0,
    };
}
