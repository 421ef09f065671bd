//! Answering the lines of a log again, in pieces.
ghost use Rattle.std.specs.Prelude.{◌≡◌, ◌⊎◌, ◌<◌, ◌≤◌, ℕ, Some, length, IsTrue, IfOk, IfErr, OnOk};
ghost use Rattle.std.specs.Prelude.{OnErr, ⊤};
ghost use Rattle.inst_base.specs.Handing.{WritesPart};
ghost use Rattle.inst_log.specs.Layout.{recovered_lines, IsBatch};
ghost use Rattle.inst_log.specs.Opening.{Begins};
ghost use Rattle.inst_log.specs.Pieces.{Starts};
ghost use Rattle.inst_chain.specs.Chain.{said};
ghost use Rattle.inst_lines.specs.Answering.{HubPast, IsRunnerAt};
ghost use Rattle.inst_logged.specs.Answering.{told_count};
ghost use Rattle.inst_logged.specs.Refused.{IsRefused};
ghost use Rattle.inst_logged.specs.declared.error.LoggedError.TheVariants.{Log};
ghost use Rattle.inst_log.specs.declared.error.LogError.TheVariants.{Told};
ghost use Rattle.inst_logged.specs.inner.Answering.{AnswersAgain, debt};
ghost use Rattle.inst_logged.specs.inner.Failing.{FailsAtLog};
ghost use Rattle.inst_logged.specs.inner.Replaying.{IsOnlyAnswering, Replays};

use crate::{LineAnswers, LoggedError};
use inst_log::{FileLines, LogError, Recorder, Start, deliver};
use sqlite_disk::Disk;
use std::io::Write;

/// Answers the lines of a log after its first ones, none for a new file, and writes the replies to
/// those after the first `told`; none if `told` is `None`.
///
/// # Errors
///
/// `Told` if the log has fewer lines; nothing was written.
pub(crate) fn start_again<D: Disk, W: Write>(
    recorder: &mut Recorder<D, LineAnswers>,
    header: &[u8],
    start: Start,
    told: Option<u64>,
    writer: &mut W,
) -> Result<(), LoggedError>
    requires usable { IsTrue (D.Disk.is_usable recorder.old.log.disk) }
    requires header { IsBatch header.now }
    requires starts { IsTrue (D.Disk.is_clean recorder.old.log.disk) →
        Starts header.now (D.Disk.seen recorder.old.log.disk) start }
    ensures replays { Replays D.Disk header.now told recorder.old recorder.new
        (W.contents writer.old) (W.contents writer.new)
        (writer.new ≡ writer.old) result }
    ensures same { IsOnlyAnswering D.Disk recorder.old recorder.new }
{
    match start {
        Start::Log => replay(recorder, header, told, writer),
        Start::New(_) => require_none(told),
    }
}

/// Answers the lines of a log after its first ones, and writes the replies to those after the first
/// `told`; none if `told` is `None`.
///
/// # Errors
///
/// `Told` if the log has fewer lines; nothing was written.
fn replay<D: Disk, W: Write>(
    recorder: &mut Recorder<D, LineAnswers>,
    header: &[u8],
    told: Option<u64>,
    writer: &mut W,
) -> Result<(), LoggedError>
    requires usable { IsTrue (D.Disk.is_usable recorder.old.log.disk) }
    requires header { IsBatch header.now }
    requires begins { IsTrue (D.Disk.is_clean recorder.old.log.disk) →
        Begins header.now (D.Disk.seen recorder.old.log.disk) }
    ensures replays { Replays D.Disk header.now told recorder.old recorder.new
        (W.contents writer.old) (W.contents writer.new)
        (writer.new ≡ writer.old) result }
    ensures same { IsOnlyAnswering D.Disk recorder.old recorder.new }
{
    let alloc = *recorder.out.allocator();
    let mut lines = FileLines::new(alloc, &mut recorder.log.disk, header.len() - 1)?;
    let mut left = told;
    while lines.has_more() {
        let piece = lines.next(&mut recorder.log.disk)?;
        left = answer_again(
            &mut recorder.answers,
            &mut recorder.out,
            &piece,
            left,
            writer,
        )?;
    }
    require_none(left)
}

/// Fails with `Told` if lines are left.
fn require_none(left: Option<u64>) -> Result<(), LoggedError>
    ensures none { OnOk result ((n : ℕ) → left ≡ Some n → n ≡ 0) }
    ensures some { IfErr result (λ error. (error ≡ Log Told) × (n : ℕ) × (left ≡ Some n)
        × (0 < n)) }
{
    match left {
        None | Some(0) => Ok(()),
        Some(_) => Err(LoggedError::Log(LogError::Told)),
    }
}

/// Answers lines of a log again. Drops the replies to the first `told`, or to all, and writes the
/// others. Returns how many further replies are to be dropped.
fn answer_again<W: Write>(
    answers: &mut LineAnswers,
    out: &mut Vec<u8>,
    lines: &[u8],
    told: Option<u64>,
    writer: &mut W,
) -> Result<Option<u64>, LoggedError>
    ensures ok { IfOk result (λ left.
        AnswersAgain answers.old.mode told left answers.old.runner answers.new.runner
        (recovered_lines lines.now) (W.contents writer.old) (W.contents writer.new)) }
    ensures untouched { IfOk result (λ left. (left ≡ Some 0 → ⊥) → writer.new ≡ writer.old) }
    ensures part { (past : HubPast) → IsRunnerAt answers.old.mode past answers.old.runner
        → WritesPart (W.contents writer.old) (W.contents writer.new)
        (debt answers.old.mode past told (recovered_lines lines.now)) }
    ensures begun { OnErr result ((writer.new ≡ writer.old)
        ⊎ (told_count told (said (recovered_lines lines.now))
        ≤ length (said (recovered_lines lines.now)))) }
    ensures unrefused { IfErr result (λ error. ¬ IsRefused error) }
    ensures failure { IfErr result (FailsAtLog ⊥ ⊥ ⊤) }
    ensures mode { answers.new.mode ≡ answers.old.mode }
{
    out.clear();
    let Some(count) = told else {
        answers.answer_all(lines, out)?;
        return Ok(None);
    };
    let (start, left) = answers.answer_first(lines, count, out)?;
    if left > 0 {
        return Ok(Some(left));
    }
    out.clear();
    answers.answer_all(&lines[start..], out)?;
    deliver(writer, out)?;
    Ok(Some(0))
}
