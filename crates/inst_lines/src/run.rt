//! Whole runs from a reader to a writer.
ghost use Rattle.std.specs.Prelude.{◌≡◌, OnOk, IfOk, IfErr, IfSome, length};
ghost use Rattle.std.specs.Io.KnownBytes.{Appends, IsAtEnd};
ghost use Rattle.inst_lines.specs.Lines.{lines_of, IsWithinLimits};
ghost use Rattle.inst_lines.specs.Answers.{output, refusals, state_after};
ghost use Rattle.inst_lines.specs.Answering.{HubPast, IsRunnerAt, new_past, hub_answerer};
ghost use Rattle.inst_lines.specs.Answering.{run_answerer, play_answerer};
ghost use Rattle.inst_lines.specs.Session.{CountsLines, IsReadToEnd, FailsAfter};
ghost use Rattle.inst_lines.specs.Headline.{LinesKeepTheHeadline};

use crate::mode::Mode;
use crate::session::{Counts, Session};
use inst_agenda::Runner;
use inst_base::Fault;
use inst_settings::Settings;
use std::alloc::Global;
use std::io::{Read, Write};

/// Answers each line of the reader by one line to the writer; returns their number.
///
/// A line is a command. After each that is read without refusal, the follow-ups are done at its
/// clock reading.
///
/// ```text
/// let counts = run_lines(alloc, &settings, &mut input.as_bytes(), &mut output)?;
/// counts.lines // as many lines as `input` has
/// ```
///
/// A line ends with a newline, which the last line may lack. A line of more than 4,096 bytes is
/// answered `LineTooLong`. All replies are written and flushed before each read and at the end.
/// Blocks while the reader or writer does.
///
/// # Errors
///
/// - `ReadFault` if a read fails, or the input is longer than [`MOST_LINES`](crate::MOST_LINES)
///   lines or [`MOST_BYTES`](crate::MOST_BYTES) bytes. Each line whose newline was read within the
///   limits is answered.
/// - `WriteFault` if a write or flush fails or a write takes no byte, and `Memory` on allocation
///   failure. A prefix of the replies was written.
pub fn run_lines<R: Read, W: Write>(
    alloc: Global,
    settings: &Settings,
    reader: &mut R,
    writer: &mut W,
) -> Result<Counts, Fault>
    // If the reader's bytes are known, all of them are read and answered.
    ensures end { OnOk result
        (IsReadToEnd (R.remaining reader.old) (R.remaining reader.new)) }
    ensures output { OnOk result (IfSome (R.remaining reader.old) (λ bytes.
        Appends (W.contents writer.old) (W.contents writer.new)
        (output run_answerer (new_past settings.now) (lines_of bytes)))) }
    // The run that these lines stand for keeps the headline.
    ensures headline { OnOk result (IfSome (R.remaining reader.old) (λ bytes.
        LinesKeepTheHeadline run_answerer settings.now (lines_of bytes))) }
    ensures counts { IfOk result (λ counts. IfSome (R.remaining reader.old) (λ bytes.
        CountsLines run_answerer (new_past settings.now) bytes counts)) }

    // After some bytes: at `ReadFault` exactly the whole lines within the limits are answered; at
    // another fault a prefix of the replies is written.
    ensures err { IfErr result (FailsAfter run_answerer (new_past settings.now)
        (W.contents writer.old) (W.contents writer.new)
        (R.remaining reader.old) (R.remaining reader.new)) }
{
    let served = serve_lines(alloc, Mode::Run, settings, reader, writer)?;
    Ok(served.counts)
}

/// Answers each line of a script by one line to the writer; returns their number.
///
/// A line is a step or a command, which is one step too. There are no follow-ups: the script has
/// them as steps.
///
/// ```text
/// let counts = play_lines(alloc, &settings, &mut script.as_bytes(), &mut output)?;
/// ```
///
/// # Errors
///
/// As [`run_lines`], with the same replies written.
pub fn play_lines<R: Read, W: Write>(
    alloc: Global,
    settings: &Settings,
    reader: &mut R,
    writer: &mut W,
) -> Result<Counts, Fault>
    ensures end { OnOk result
        (IsReadToEnd (R.remaining reader.old) (R.remaining reader.new)) }
    ensures output { OnOk result (IfSome (R.remaining reader.old) (λ bytes.
        Appends (W.contents writer.old) (W.contents writer.new)
        (output play_answerer (new_past settings.now) (lines_of bytes)))) }
    ensures headline { OnOk result (IfSome (R.remaining reader.old) (λ bytes.
        LinesKeepTheHeadline play_answerer settings.now (lines_of bytes))) }
    ensures counts { IfOk result (λ counts. IfSome (R.remaining reader.old) (λ bytes.
        CountsLines play_answerer (new_past settings.now) bytes counts)) }
    ensures err { IfErr result (FailsAfter play_answerer (new_past settings.now)
        (W.contents writer.old) (W.contents writer.new)
        (R.remaining reader.old) (R.remaining reader.new)) }
{
    let served = serve_lines(alloc, Mode::Play, settings, reader, writer)?;
    Ok(served.counts)
}

/// A hub after a run, and the number of its lines.
#[derive(Drop)]
pub struct Served {
    pub counts: Counts,
    pub runner: Runner,
}

/// Answers lines as [`run_lines`] or [`play_lines`] does, by the mode, and returns the hub too.
///
/// # Errors
///
/// As [`run_lines`], with the same replies written.
pub fn serve_lines<R: Read, W: Write>(
    alloc: Global,
    mode: Mode,
    settings: &Settings,
    reader: &mut R,
    writer: &mut W,
) -> Result<Served, Fault>
    ensures end { OnOk result
        (IsReadToEnd (R.remaining reader.old) (R.remaining reader.new)) }
    ensures output { OnOk result (IfSome (R.remaining reader.old) (λ bytes.
        Appends (W.contents writer.old) (W.contents writer.new)
        (output (hub_answerer mode) (new_past settings.now) (lines_of bytes)))) }
    ensures headline { OnOk result (IfSome (R.remaining reader.old) (λ bytes.
        LinesKeepTheHeadline (hub_answerer mode) settings.now (lines_of bytes))) }
    ensures runner { IfOk result (λ served. IfSome (R.remaining reader.old) (λ bytes.
        IsRunnerAt mode (state_after (hub_answerer mode) (new_past settings.now) (lines_of bytes))
        served.runner)) }
    ensures counts { IfOk result (λ served. IfSome (R.remaining reader.old) (λ bytes.
        CountsLines (hub_answerer mode) (new_past settings.now) bytes served.counts)) }
    ensures err { IfErr result (FailsAfter (hub_answerer mode) (new_past settings.now)
        (W.contents writer.old) (W.contents writer.new)
        (R.remaining reader.old) (R.remaining reader.new)) }
{
    let mut runner = Runner::open(alloc, settings)?;
    let counts = answer_lines(alloc, mode, &mut runner, reader, writer)?;
    Ok(Served { counts, runner })
}

/// Answers lines at a hub, whatever it has run before.
fn answer_lines<R: Read, W: Write>(
    alloc: Global,
    mode: Mode,
    runner: &mut Runner,
    reader: &mut R,
    writer: &mut W,
) -> Result<Counts, Fault>
    ensures end { OnOk result (IsAtEnd (R.remaining reader.new)) }
    ensures output { (past : HubPast) → IsRunnerAt mode past runner.old →
        OnOk result (IfSome (R.remaining reader.old) (λ bytes.
        Appends (W.contents writer.old) (W.contents writer.new)
        (output (hub_answerer mode) past (lines_of bytes)))) }
    ensures runner { (past : HubPast) → IsRunnerAt mode past runner.old →
        OnOk result (IfSome (R.remaining reader.old) (λ bytes.
        IsRunnerAt mode (state_after (hub_answerer mode) past (lines_of bytes)) runner.new)) }
    ensures lines { (past : HubPast) → IsRunnerAt mode past runner.old →
        IfOk result (λ counts. IfSome (R.remaining reader.old) (λ bytes.
        counts.lines ≡ length (lines_of bytes))) }
    ensures refused { (past : HubPast) → IsRunnerAt mode past runner.old →
        IfOk result (λ counts. IfSome (R.remaining reader.old) (λ bytes.
        counts.refused ≡ refusals (hub_answerer mode) past (lines_of bytes))) }
    ensures limits { (past : HubPast) → IsRunnerAt mode past runner.old →
        OnOk result (IfSome (R.remaining reader.old) IsWithinLimits) }
    ensures err { (past : HubPast) → IsRunnerAt mode past runner.old →
        IfErr result (FailsAfter (hub_answerer mode) past
        (W.contents writer.old) (W.contents writer.new)
        (R.remaining reader.old) (R.remaining reader.new)) }
{
    let mut session = Session::new(alloc)?;
    while session.turn(mode, runner, reader, writer)? {}
    Ok(session.counts)
}
