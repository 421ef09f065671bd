//! Laws of logs, as functions whose contracts state them.
ghost use Rattle.std.specs.Prelude.{◌≡◌, List, ℕ, map};
ghost use Rattle.inst_lines.specs.declared.mode.Mode.{Mode};
ghost use Rattle.inst_lines.specs.Answers.{output};
ghost use Rattle.inst_lines.specs.Answering.{HubPast, hub_answerer};
ghost use Rattle.inst_logged.specs.Header.{HeadersTellTheirSettings};
ghost use Rattle.inst_logged.specs.Refused.{ARefusedLogIsNotTaken};
ghost use Rattle.inst_logged.specs.Input.{logged_line};
ghost use Rattle.inst_logged.specs.Answering.{replies_at};

/// Law: a line and its form in a log get the same reply, whatever the hub has answered before.
pub fn lines_answer_alike()
    ensures { (mode : Mode) (past : HubPast) (lines : List (List ℕ)) →
        replies_at mode past (map logged_line lines) ≡ output (hub_answerer mode) past lines }
{}

/// Law: two logs of one version that begin alike, without books, are of hubs with the same mode and
/// settings.
pub fn headers_tell_their_settings()
    ensures { HeadersTellTheirSettings }
{}

/// Law: if an error refuses a log, and its cause is true of the file, the hub doesn't take that
/// log.
pub fn a_refused_log_is_not_taken()
    ensures { ARefusedLogIsNotTaken }
{}
