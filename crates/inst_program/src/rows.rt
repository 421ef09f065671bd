//! A worked drill. The function has no body; the check computes its contract.
ghost use Rattle.inst_options.specs.Rows.{small_settings};
ghost use Rattle.inst_options.specs.Options.Task.{Drill};
ghost use Rattle.inst_program.specs.Program.{MayDo};

/// Checks that the small hub of the worked command lines can do two transfers in one opening.
pub fn small_drill()
    ensures { MayDo small_settings (Drill 2 1) }
{}
