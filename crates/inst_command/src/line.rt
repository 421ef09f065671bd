//! Lines of a statement.

use crate::Items;
use inst_base::{Cents, Ident};

/// The kind of a statement line.
#[derive(Clone, Copy, Debug, PartialEq, Eq)]
pub enum LineKind {
    Funded,
    Defunded,
    /// A transfer from another participant was accepted.
    Received,
    /// A transfer to another participant was accepted.
    Paid,
}

/// A statement line: a change of a participant's position, and the position after it.
#[derive(Clone, Copy, Debug, PartialEq, Eq)]
pub struct Line {
    /// The number of the line in the participant's statement, from 1.
    pub number: u32,
    pub kind: LineKind,
    /// The other participant's number, for a transfer.
    pub other: Option<u8>,
    /// The identifier of the transfer, or the reference of the funding.
    pub id: Ident,
    pub cents: Cents,
    /// The position after the change, in cents.
    pub position: u64,
}

/// The lines of a statement, in order.
pub type Lines = Items<Line>;
