//! Laws of logs and bounds, as functions whose contracts state them.
ghost use Rattle.inst_program.specs.Bounds.{AreBoundsOfRuns, AreBoundsOfSettings};
ghost use Rattle.inst_program.specs.Bounds.{AreBoundsOfValues};
ghost use Rattle.inst_program.specs.Keeping.{AnUntakenLogIsNotGood};

/// States the law: a log that a run refuses isn't one that is good for the run.
pub fn an_untaken_log_is_not_good()
    ensures { AnUntakenLogIsNotGood }
{}

/// States the bounds of values, settings and runs as numbers.
pub fn the_bounds()
    ensures values { AreBoundsOfValues }
    ensures settings { AreBoundsOfSettings }
    ensures runs { AreBoundsOfRuns }
{}
