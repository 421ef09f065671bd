//! Laws of statement lines, and of which commands and steps fit a hub. Each is a function without a
//! body whose contract is the law, so the verifier proves it.
ghost use Rattle.inst_command.specs.Laws.{EachLineHas91Characters, ATextTellsItsLine};
ghost use Rattle.inst_command.specs.Fitting.{WhatFits};

/// The text of a statement line has 91 characters.
pub fn each_line_has_91_characters()
    ensures { EachLineHas91Characters }
{}

/// Two statement lines with the same text are equal, except for spaces at the end of the
/// identifier.
pub fn a_text_tells_its_line()
    ensures { ATextTellsItsLine }
{}

/// A command, an ask or a step fits exactly if the participants that it names exist, amounts are 1
/// cent to the ceiling, counts are 1 to 100, and a submission's deadline is a moment.
pub fn what_fits()
    ensures { WhatFits }
{}
