//! Laws of lines: functions without a body, whose contract is the law.
ghost use Rattle.std.specs.Prelude.{List, ℕ};
ghost use Rattle.inst_model.specs.Interleaving.{IsInterleaving};
ghost use Rattle.inst_model.specs.Opening.{IsOpening};
ghost use Rattle.inst_world.specs.Headline.{KeepsTheHeadline};
ghost use Rattle.inst_lines.specs.declared.mode.Mode.{Mode};
ghost use Rattle.inst_lines.specs.Answers.{output, state_after};
ghost use Rattle.inst_lines.specs.Answering.{HubPast, hub_answerer};
ghost use Rattle.inst_lines.specs.Headline.{run_through, AreRepliesOf};

/// Law: the run that lines stand for keeps the headline, whatever the hub has run before them.
pub fn lines_keep_the_headline()
    ensures { (mode : Mode) (past : HubPast) → IsOpening past.settings past.opening →
        IsInterleaving past.settings past.steps → (lines : List (List ℕ)) →
        KeepsTheHeadline past.settings (run_through (state_after (hub_answerer mode) past lines)) }
{}

/// Law: the replies to lines are the texts of that run's answers. Each line gets the answer to the
/// step that it stands for, or the refusal of a line that stands for none.
pub fn replies_are_the_runs_answers()
    ensures { (mode : Mode) (past : HubPast) (lines : List (List ℕ)) →
        AreRepliesOf (run_through (state_after (hub_answerer mode) past lines)) mode past lines
        (output (hub_answerer mode) past lines) }
{}
