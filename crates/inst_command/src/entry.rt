//! Entries of an inbox.

use crate::Items;
use inst_base::{Cents, Ident, Moment};

/// A forwarded transfer, as its beneficiary fetches it.
#[derive(Clone, Copy, Debug, PartialEq, Eq)]
pub struct Entry {
    /// The originator's number.
    pub from: u8,
    pub id: Ident,
    pub cents: Cents,
    pub deadline: Moment,
}

/// The entries of an inbox, in order of arrival.
pub type Entries = Items<Entry>;
