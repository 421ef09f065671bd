//! Laws of the table of a history: functions without a body, whose contract is the law.
ghost use Rattle.inst_ledger.specs.Right.{ATableIsRight};

/// The table of a sound history has the values that a scan of the history finds and sums.
pub fn a_table_is_right()
    ensures { ATableIsRight }
{}
