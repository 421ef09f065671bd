//! The range of counts in commands.
ghost use Rattle.std.specs.Prelude.{◌≡◌};
ghost use Rattle.inst_command.specs.Ask.{is_count};

/// The most entries of a fetch, and the most lines of a statement.
pub const MOST_COUNT: u32 = 100;

/// Returns `true` if a command may ask for this number of entries or lines: 1 to 100.
pub fn is_count(count: u32) -> bool
    ensures { result ≡ is_count count }
{
    (1..=MOST_COUNT).contains(&count)
}
