//! The options of a round of a stress.

/// The margin of every other round, in milliseconds; the others have none.
const MARGIN: u32 = 500;

/// The options of a round.
#[derive(Clone, Copy)]
pub(crate) struct StressRound {
    /// Counted from 0.
    pub(crate) number: u32,
    /// 1 to 15.
    pub(crate) threads: u8,
    /// The margin in milliseconds.
    pub(crate) margin: u32,
    /// `true` if threads sweep participants. In a round without sweeps, a participant knows of its
    /// transfers only from calls, its own and the other side's.
    pub(crate) sweeps: bool,
    /// `true` if threads take memory before some calls, so that these and other threads' calls fail
    /// to allocate.
    pub(crate) is_scarce: bool,
}

impl StressRound {
    /// Returns the round with this number. Every third has no sweeps; of these every other has a
    /// margin.
    pub(crate) fn of(threads: u8, is_scarce: bool, number: u32) -> StressRound {
        StressRound {
            number,
            threads,
            margin: number % 2 * MARGIN,
            sweeps: number % 3 != 1,
            is_scarce,
        }
    }
}
