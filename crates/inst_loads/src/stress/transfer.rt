//! The transfers of a stress.
use crate::hub::opening::LIMIT;
use inst_base::{Fault, Ident};
use std::alloc::Global;

/// The number of participants in a stress.
pub(crate) const PARTICIPANTS: u16 = 4;

/// The funding of each participant in cents, enough for some 15 transfers at a time.
pub(crate) const FUNDS: u64 = 1_500;

/// The number of transfers of each originator that the threads choose at random. With the contested
/// ones there are more than places.
pub(crate) const NAMES: u32 = 56;

/// The time stamp of the first transfers, in milliseconds.
const FIRST_STAMP: u64 = 5_000;

/// The time between the stamps of two successive numbers, in milliseconds.
const STRIDE: u64 = 10;

/// A transfer that the threads submit and decide. Originator and number determine all of it, so
/// that submitting it again is a repeat.
#[derive(Clone, Copy)]
pub(crate) struct NextTransfer {
    pub(crate) from: u8,
    pub(crate) to: u8,
    pub(crate) id: Ident,
    pub(crate) cents: u64,
    /// The time stamp in milliseconds.
    pub(crate) stamp: u64,
}

impl NextTransfer {
    /// Returns the transfer of the participant `from` with this number.
    pub(crate) fn of(alloc: Global, from: u8, number: u32) -> Result<NextTransfer, Fault> {
        let text = format!(in alloc; "T{number}")?;
        let to = (u32::from(from) + 1 + number % 3) % u32::from(PARTICIPANTS);
        Ok(NextTransfer {
            from,
            to: to as u8,
            id: Ident::new(text.as_str())?,
            cents: 100 + u64::from(number % 16),
            stamp: FIRST_STAMP + STRIDE * u64::from(number),
        })
    }

    /// Returns the deadline in milliseconds.
    pub(crate) fn deadline(&self) -> u64 {
        self.stamp.saturating_add(u64::from(LIMIT))
    }
}
