//! The state of a run between its reads, and one turn: a read, and the replies to its lines.
ghost use Rattle.inst_lines.specs.Limits.{most_lines};
ghost use Rattle.std.specs.Prelude.{◌≡◌, ◌≤◌, ◌<◌, ◌⊎◌, [], OnOk, IfOk, OnErr, IfErr, MatchBool};
ghost use Rattle.std.specs.Prelude.{false, length};

use crate::answer::{HeldLine, answer_part};
use crate::limits::MOST_LINES;
use crate::line_buffer::LineBuffer;
use crate::mode::Mode;
use crate::replies::ReplyBuffer;
use inst_agenda::Runner;
use inst_base::{Fault, find_newline};
use inst_json::LineReader;
use std::alloc::{AllocError, Global};
use std::io::{Read, Write};

/// The number of lines that were answered.
#[derive(Clone, Copy, Debug, PartialEq, Eq)]
pub struct Counts {
    /// All lines.
    pub lines: u64,
    /// The lines that were answered by a refusal.
    pub refused: u64,
}

/// The state of a run between its reads.
#[derive(Drop)]
pub struct Session {
    pub reader: LineReader,
    pub input: LineBuffer,
    pub replies: ReplyBuffer,
    pub counts: Counts,
    ghost limit: { counts.lines ≤ most_lines },
    ghost fewer: { counts.refused ≤ counts.lines },
}

impl Session {
    ghost use Rattle.inst_base.specs.Newline.{NoNewline};
    ghost use Rattle.inst_lines.specs.Limits.{most_lines};
    ghost use Rattle.inst_lines.specs.Answering.{hub_answerer, IsRunnerAt};
    ghost use Rattle.inst_lines.specs.LineBuffer.{unanswered_bytes};
    ghost use Rattle.inst_lines.specs.Session.{IsAnswered, IsReadyToRead, stage};
    ghost use Rattle.inst_lines.specs.Session.{HasTurned, HasEnded, HasFailed};
    ghost use Rattle.inst_lines.specs.inner.Session.{TakesLine, AnswersLast, IsNoReadFault};
    ghost use Rattle.inst_lines.specs.inner.Session.{MovesOn, HasStopped, HasFinished};

    /// Returns a session that has read nothing.
    ///
    /// # Errors
    ///
    /// [`AllocError`] if the buffers can't be allocated.
    pub fn new(alloc: Global) -> Result<Session, AllocError>
        ensures ready { IfOk result (λ session. IsReadyToRead session) }
        ensures input { IfOk result (λ session. unanswered_bytes session.input ≡ []) }
        ensures is_long { IfOk result (λ session. session.input.is_long ≡ false) }
        ensures taken { IfOk result (λ session. session.input.taken ≡ 0) }
        ensures lines { IfOk result (λ session. session.counts.lines ≡ 0) }
        ensures refused { IfOk result (λ session. session.counts.refused ≡ 0) }
    {
        Ok(Session {
            reader: LineReader::new(alloc),
            input: LineBuffer::new(alloc)?,
            replies: ReplyBuffer::new(alloc),
            counts: Counts {
                lines: 0,
                refused: 0,
            },
        })
    }

    /// Answers the rest of a line, of which this many bytes are held, and drops it and its newline.
    fn answer_line(&mut self, mode: Mode, runner: &mut Runner, len: usize) -> Result<(), AllocError>
        requires within { len ≤ length (unanswered_bytes self.old.input) }
        requires room { self.old.counts.lines < most_lines }
        ensures ok { OnOk result
            (TakesLine (hub_answerer mode) (IsRunnerAt mode) len
            self.old self.new runner.old runner.new) }
    {
        let line = HeldLine {
            is_long: self.input.lacks_front(),
            part: &self.input.as_slice()[..len],
        };
        let is_refused = answer_part(
            &mut self.reader,
            mode,
            runner,
            line,
            &mut self.replies.bytes,
        )?;
        self.input.drop_line(len);
        self.counts.lines += 1;
        self.counts.refused += u64::from(is_refused);
        Ok(())
    }

    /// Answers the whole lines that are held, up to `MOST_LINES` in all. `Memory` on allocation
    /// failure; `WriteFault` as from `write_if_full`.
    fn answer_held<W: Write>(
        &mut self,
        mode: Mode,
        runner: &mut Runner,
        writer: &mut W,
    ) -> Result<(), Fault>
        ensures ok { OnOk result
            (MovesOn (hub_answerer mode) (IsRunnerAt mode)
            (stage self.old runner.old (W.contents writer.old))
            (stage self.new runner.new (W.contents writer.new))) }
        ensures done { OnOk result (NoNewline (unanswered_bytes self.new.input)
            ⊎ (self.new.counts.lines ≡ most_lines)) }
        ensures taken { OnOk result (self.new.input.taken ≡ self.old.input.taken) }
        ensures err { OnErr result
            (HasStopped (hub_answerer mode) (IsRunnerAt mode)
            (stage self.old runner.old (W.contents writer.old))
            (W.contents writer.new)) }
        ensures fault { IfErr result IsNoReadFault }
    {
        while self.counts.lines < MOST_LINES {
            let Some(len) = find_newline(self.input.as_slice()) else {
                return Ok(());
            };
            self.answer_line(mode, runner, len)?;
            self.replies.write_if_full(writer)?;
        }
        Ok(())
    }

    /// Answers a last line without a newline, if there is one.
    fn answer_last(&mut self, mode: Mode, runner: &mut Runner) -> Result<(), AllocError>
        requires { IsAnswered self.old }
        ensures ok { OnOk result
            (AnswersLast (hub_answerer mode) (IsRunnerAt mode)
            self.old self.new runner.old runner.new) }
    {
        if !self.input.is_in_line() {
            return Ok(());
        }
        let len = self.input.len();
        self.answer_line(mode, runner, len)
    }

    /// Answers a last line without a newline, and writes the remaining replies. `Memory` on
    /// allocation failure; `WriteFault` as from `deliver`.
    fn finish<W: Write>(
        &mut self,
        mode: Mode,
        runner: &mut Runner,
        writer: &mut W,
    ) -> Result<(), Fault>
        requires { IsAnswered self.old }
        ensures ok { OnOk result
            (HasFinished (hub_answerer mode) (IsRunnerAt mode)
            (stage self.old runner.old (W.contents writer.old))
            (stage self.new runner.new (W.contents writer.new))) }
        ensures err { OnErr result
            (HasStopped (hub_answerer mode) (IsRunnerAt mode)
            (stage self.old runner.old (W.contents writer.old))
            (W.contents writer.new)) }
        ensures fault { IfErr result IsNoReadFault }
    {
        self.answer_last(mode, runner)?;
        self.replies.deliver(writer)
    }

    /// Reads once, and answers each line that ends there; at the end of the input also the last
    /// line.
    ///
    /// Returns `false` at the end of the input. Blocks while the reader or writer does. Requires a
    /// session that is new or whose last turn returned `Ok(true)`.
    ///
    /// # Errors
    ///
    /// As [`run_lines`](crate::run_lines). Drop the session then.
    pub fn turn<R: Read, W: Write>(
        &mut self,
        mode: Mode,
        runner: &mut Runner,
        reader: &mut R,
        writer: &mut W,
    ) -> Result<bool, Fault>
        requires { IsReadyToRead self.old }
        ensures ok { let before = stage self.old runner.old (W.contents writer.old) in
            let after = stage self.new runner.new (W.contents writer.new) in
            IfOk result (λ more. MatchBool more
            (HasTurned (hub_answerer mode) (IsRunnerAt mode) before after (R.remaining reader.old)
            (R.remaining reader.new))
            (HasEnded (hub_answerer mode) (IsRunnerAt mode) before after (R.remaining reader.old)
            (R.remaining reader.new))) }
        ensures err { let before = stage self.old runner.old (W.contents writer.old) in
            IfErr result (HasFailed (hub_answerer mode) (IsRunnerAt mode) before
            (W.contents writer.new) (R.remaining reader.old) (R.remaining reader.new)) }
    {
        if self.input.fill(reader)? == 0 {
            self.finish(mode, runner, writer)?;
            return Ok(false);
        }
        self.answer_held(mode, runner, writer)?;
        self.replies.deliver(writer)?;
        if self.counts.lines == MOST_LINES && self.input.is_in_line() {
            return Err(Fault::ReadFault);
        }
        self.input.make_room();
        Ok(true)
    }
}
