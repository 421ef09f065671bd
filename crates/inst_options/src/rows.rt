//! Worked command lines. Each is a function without a body; the check computes its contract.
ghost use Rattle.inst_options.specs.Rows.{SmallHub, DefaultHub, KeptHub, NoHub, Explained};

/// Checks options that are given, the defaults of others, and the settings they give.
pub fn small_hub()
    ensures { SmallHub }
{}

/// Checks a command line with the participants alone.
pub fn default_hub()
    ensures { DefaultHub }
{}

/// Checks words that name logs.
pub fn kept_hub()
    ensures { KeptHub }
{}

/// Checks words that aren't a whole command line, and why.
pub fn no_hub()
    ensures { NoHub }
{}

/// Checks words that ask for a fault's explanation, with and without the fault.
pub fn explained()
    ensures { Explained }
{}
