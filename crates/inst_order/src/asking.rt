//! Steps of commands, at a clock reading that fits every deadline.

use inst_base::{Ident, Moment};
use inst_command::{Ask, Command, Outcome, Step, Submission};

/// Returns the step of a command of `who` at the clock reading `at`.
pub(crate) fn ask_at(who: u8, command: Command, at: Moment) -> Step {
    Step::Ask(Ask { who, command, at })
}

/// Returns the step of a command at the first moment. No deadline is reached then, so an answer is
/// in time, by more than the margin.
pub(crate) fn ask_first(who: u8, command: Command) -> Step {
    ask_at(who, command, Moment::new(0, 0).unwrap())
}

/// Returns the step of a command at the last moment. Each deadline is reached then, so a pending
/// transfer times out.
pub(crate) fn ask_last(who: u8, command: Command) -> Step {
    ask_at(who, command, Moment::new(0, (1 << 41) - 1).unwrap())
}

/// Returns the step in which the originator submits a transfer, at its time stamp.
pub(crate) fn submit(who: u8, submission: Submission) -> Step {
    let at = submission.stamp;
    ask_at(who, Command::Submit(submission), at)
}

/// Returns the step in which the beneficiary `who` books this outcome. A confirmation at the last
/// moment books a time-out, whether or not the transfer has timed out before.
pub(crate) fn answer(who: u8, from: u8, id: Ident, outcome: Outcome) -> Step {
    match outcome {
        Outcome::Accepted => ask_first(who, Command::Confirm { from, id }),
        Outcome::Rejected(reason) => ask_first(who, Command::Reject { from, id, reason }),
        Outcome::TimedOut => ask_last(who, Command::Confirm { from, id }),
    }
}
