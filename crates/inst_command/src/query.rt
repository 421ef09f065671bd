//! Queries of a participant's own books.
ghost use Rattle.std.specs.Prelude.{◌≡◌};
ghost use Rattle.inst_command.specs.Ask.{query_fits};

use crate::is_count;

/// A query of the asker's own books. It changes nothing.
#[derive(Clone, Copy, Debug, PartialEq, Eq)]
pub enum Query {
    /// Asks for the position, what is reserved and what is available.
    Position,
    /// Asks for at most `count` statement lines, 1 to 100, after the first `skip`.
    Statement { skip: u64, count: u32 },
}

impl Query {
    /// Returns `true` if the query may be asked: a statement's `count` is 1 to 100.
    pub fn fits(&self) -> bool
        ensures { result ≡ query_fits self.now }
    {
        match self {
            Query::Position => true,
            Query::Statement { count, .. } => is_count(*count),
        }
    }
}
