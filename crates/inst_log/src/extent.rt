//! The length of a file and of the lines in it.
ghost use Rattle.inst_log.specs.Pieces.{IsExtent};

use crate::front::{is_closed, kept_len};

/// The length of a file, and where its lines end.
#[derive(Clone, Copy, Debug)]
pub struct Extent {
    /// The length of the file in bytes.
    pub len: usize,
    /// The position after the last line's newline.
    pub end: usize,
    /// `true` if a closed byte, any byte but `{`, follows the lines.
    pub is_closed: bool,
}

impl Extent {
    /// Returns the extent of a file that has these bytes.
    pub fn of(bytes: &[u8]) -> Extent
        ensures { IsExtent bytes.now result }
    {
        let end = kept_len(bytes);
        Extent {
            len: bytes.len(),
            end,
            is_closed: is_closed(bytes, end),
        }
    }
}
