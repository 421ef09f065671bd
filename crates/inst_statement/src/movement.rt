//! Changes of a position.

use inst_base::Cents;
use inst_command::LineKind;

/// A change of a position: a funding, a defunding, or an accepted transfer received or sent.
#[derive(Clone, Copy)]
pub struct Movement {
    pub kind: LineKind,
    /// The other participant of a transfer.
    pub other: Option<u8>,
    pub cents: Cents,
}
