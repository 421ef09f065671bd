//! The summary at the end of a run.
ghost use Rattle.std.specs.Prelude.{◌≡◌, true};
ghost use Rattle.inst_settings.specs.Settings.{is_participant};

use crate::keeping::LineTask;
use inst_agenda::Runner;
use inst_base::Moment;
use inst_command::{Answer, Ask, Command, Query, Reply, Step};
use inst_lines::Counts;
use std::io::Write;

/// If the task asks for it, prints the number of lines, if they were counted, and each
/// participant's position, reserved and available money in cents. Output that `errors` doesn't
/// accept is lost.
pub(crate) fn sum_up<E: Write>(
    task: &LineTask,
    runner: &mut Runner,
    counts: Option<Counts>,
    errors: &mut E,
) {
    if !task.sums {
        return;
    }
    if let Some(counts) = counts {
        let _ = writeln!(errors, "lines {} refused {}", counts.lines, counts.refused);
    }
    for who in 0..runner.settings().participants() {
        let who = who as u8;
        if runner.settings().has_participant(who) {
            tell_position(runner, who, errors);
        }
    }
}

/// Prints one participant's money.
fn tell_position<E: Write>(runner: &mut Runner, who: u8, errors: &mut E)
    requires { is_participant runner.old.world.board.settings who ≡ true }
{
    let base = runner.settings().base();
    let Ok(at) = Moment::new(base, base) else {
        return;
    };
    let command = Command::Query(Query::Position);
    let answer = runner.step(&Step::Ask(Ask { who, command, at }));
    let (
        Some(code),
        Ok(
            Answer::Reply(
                Reply::Position {
                    position,
                    reserved,
                    available,
                },
            ),
        ),
    ) = (runner.settings().code(who), answer)
    else {
        return;
    };
    let _ = writeln!(
        errors,
        "{} position {position} reserved {reserved} available {available}",
        code.text()
    );
}
