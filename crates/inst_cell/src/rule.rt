//! The rule of the table of words.
use crate::View;
use atomic_table::TableRule;
use inst_settings::Settings;
use std::snapshot::Snapshot;

/// The rule that holds of the words and of what all seats know, between any two steps of any
/// threads.
pub struct Law;

impl TableRule<(), View, Snapshot<Settings>> for Law {
    ghost use Rattle.inst_cell.specs.Rule.{IsKeptBoard};
    ghost use Rattle.inst_cell.specs.View.{first_view};

    ghost holds = { λ key s. IsKeptBoard key.value s };

    ghost first = { λ key. first_view key.value };
}
