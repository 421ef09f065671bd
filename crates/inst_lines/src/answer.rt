//! Answering one line.
ghost use Rattle.std.specs.Prelude.{◌≡◌, ◌≢◌, ◌++◌, ◌∷◌, [], true, false, IfOk, OnOk};
ghost use Rattle.serde_json.specs.Written.{compact_text};
ghost use Rattle.inst_json.specs.Replies.{answer_data, answer_can_be_written};
ghost use Rattle.inst_json.specs.Lines.{command_of_line, step_of_line};
ghost use Rattle.inst_base.specs.Newline.{newline};
ghost use Rattle.inst_lines.specs.Answers.{AnswersLine};
ghost use Rattle.inst_lines.specs.Answering.{IsRunnerAt, is_refusal, hub_answerer};
ghost use Rattle.inst_lines.specs.Answering.{command_answer, after_command, script_answer};
ghost use Rattle.inst_lines.specs.Answering.{after_script};
ghost use Rattle.inst_lines.specs.inner.Answering.{RepliesToLine, RepliesToRead};

use crate::line_buffer::is_too_long;
use crate::mode::Mode;
use inst_agenda::{Runner, follow_up};
use inst_base::Fault;
use inst_command::{Answer, Reply, refusals_told};
use inst_json::LineReader;
use inst_settings::Settings;
use std::alloc::AllocError;

/// Appends the reply to a line and a newline to `out`; returns `true` if the reply is a refusal.
///
/// `line` is without its newline. A line of more than 4,096 bytes is refused as `LineTooLong`.
///
/// # Errors
///
/// [`AllocError`] if the reply or what the line stores can't be allocated. `out` may end in a part
/// of the reply, and the runner may have run the line: drop both.
pub fn answer_line(
    reader: &mut LineReader,
    mode: Mode,
    runner: &mut Runner,
    line: &[u8],
    out: &mut Vec<u8>,
) -> Result<bool, AllocError>
    ensures { IfOk result (λ refused.
        AnswersLine (hub_answerer mode) (IsRunnerAt mode) false line.now
        runner.old runner.new out.old.items out.new.items refused) }
{
    let line = HeldLine {
        is_long: false,
        part: line,
    };
    answer_part(reader, mode, runner, line, out)
}

/// A line as it is held.
#[derive(Clone, Copy)]
pub(crate) struct HeldLine<'a> {
    /// `true` if earlier bytes of the line were dropped because it is too long.
    pub(crate) is_long: bool,
    /// The bytes of the line that are held.
    pub(crate) part: &'a [u8],
}

/// Appends the reply to a held line and a newline to `out`; returns `true` if it is a refusal.
pub(crate) fn answer_part(
    reader: &mut LineReader,
    mode: Mode,
    runner: &mut Runner,
    line: HeldLine<'_>,
    out: &mut Vec<u8>,
) -> Result<bool, AllocError>
    ensures ok { IfOk result (λ refused.
        AnswersLine (hub_answerer mode) (IsRunnerAt mode) line.entry.is_long line.entry.part.now
        runner.old runner.new out.old.items out.new.items refused) }
{
    let answer = answer_to(reader, mode, runner, line)?;
    append_answer(runner.settings(), &answer, out)
}

/// Returns the answer to a held line.
fn answer_to(
    reader: &mut LineReader,
    mode: Mode,
    runner: &mut Runner,
    line: HeldLine<'_>,
) -> Result<Answer, AllocError>
    ensures ok { IfOk result (λ answer.
        RepliesToLine mode line.entry.is_long line.entry.part.now runner.old runner.new answer) }
{
    let HeldLine { is_long, part } = line;
    if is_too_long(is_long, part.len()) {
        return Ok(Answer::Reply(Reply::Refused(Fault::LineTooLong)));
    }
    match mode {
        Mode::Run => answer_command(reader, runner, part),
        Mode::Play => answer_step(reader, runner, part),
    }
}

/// Appends the text of an answer and a newline to `out`; returns `true` if it is a refusal.
fn append_answer(
    settings: &Settings,
    answer: &Answer,
    out: &mut Vec<u8>,
) -> Result<bool, AllocError>
    requires { answer_can_be_written settings.now answer.now ≡ true }
    ensures ok { OnOk result (out.new.items
        ≡ out.old.items ++ (compact_text (answer_data settings.now answer.now) ++ newline ∷ [])) }
    ensures refusal { IfOk result (λ refused. refused ≡ is_refusal answer.now) }
{
    inst_json::append_answer(settings, answer, out)?;
    out.push(b'\n')?;
    Ok(matches!(answer, Answer::Reply(Reply::Refused(_))))
}

/// Returns the answer to a command, and does the follow-ups.
fn answer_command(
    reader: &mut LineReader,
    runner: &mut Runner,
    line: &[u8],
) -> Result<Answer, AllocError>
    ensures ok { IfOk result (λ answer. RepliesToRead Mode.Run runner.old runner.new answer
        (λ past. command_answer past (command_of_line runner.old.world.board.settings line.now))
        (λ past. after_command past (command_of_line runner.old.world.board.settings line.now))) }
{
    match &reader.read_blamed_command(runner.settings(), line) {
        Ok(ask) => {
            let answer = runner.ask(ask)?;
            follow_up(runner, ask.at)?;
            Ok(answer)
        }
        Err(refusal) => refused(refusal.fault),
    }
}

/// Returns the answer to a script line.
fn answer_step(
    reader: &mut LineReader,
    runner: &mut Runner,
    line: &[u8],
) -> Result<Answer, AllocError>
    ensures ok { IfOk result (λ answer. RepliesToRead Mode.Play runner.old runner.new answer
        (λ past. script_answer past (step_of_line runner.old.world.board.settings line.now))
        (λ past. after_script past (step_of_line runner.old.world.board.settings line.now))) }
{
    match reader.read_step(runner.settings(), line) {
        Ok(step) => runner.step(&step),
        Err(fault) => refused(fault),
    }
}

/// Returns the answer to a line that can't be read.
fn refused(fault: Fault) -> Result<Answer, AllocError>
    ensures ok { IfOk result (λ answer. (answer ≡ Answer.Reply (Reply.Refused fault))
        × (fault ≢ Fault.Memory)) }
{
    Ok(Answer::Reply(refusals_told(Err(fault))?))
}
