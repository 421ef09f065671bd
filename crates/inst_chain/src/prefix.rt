//! A prefix of a log's lines, by its length.
ghost use Rattle.std.specs.Prelude.{◌≡◌, ◌++◌, [], ◌∷◌, List, ℕ};
ghost use Rattle.inst_log.specs.Layout.{recovered_lines};

use inst_log::{count_lines, whole_lines};

/// The length of a prefix of a log's lines.
#[derive(Clone, Copy, Debug, PartialEq, Eq)]
pub struct Prefix {
    /// The number of lines, marks included.
    pub lines: u64,
    /// Their length in bytes, with newlines.
    pub bytes: u64,
}

impl Prefix {
    ghost use Rattle.inst_chain.specs.Checking.{Counts};

    /// Returns the empty prefix.
    pub(crate) fn new() -> Prefix
        ensures { Counts result [] }
    {
        Prefix { lines: 0, bytes: 0 }
    }

    /// Returns the prefix that is all lines of a log.
    pub(crate) fn of(log: &[u8]) -> Prefix
        ensures { Counts result (recovered_lines log.now) }
    {
        Prefix {
            lines: count_lines(log) as u64,
            bytes: whole_lines(log).len() as u64,
        }
    }

    /// Adds one line, given without its newline.
    pub(crate) fn add(&mut self, line: &[u8])
        ensures { (lines : List (List ℕ)) → Counts self.old lines →
            Counts self.new (lines ++ line.now ∷ []) }
    {
        self.lines = self.lines.saturating_add(1);
        self.bytes = self
            .bytes
            .saturating_add(line.len() as u64)
            .saturating_add(1);
    }
}
