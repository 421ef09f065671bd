//! A hub that answers one line after another and stores the last reply.
ghost use Rattle.std.specs.Prelude.{◌≡◌, false, [], IfOk};
ghost use Rattle.inst_lines.specs.Answers.{AnswersLine};
ghost use Rattle.inst_lines.specs.Answering.{hub_answerer, IsRunnerAt};

use inst_agenda::Runner;
use inst_json::LineReader;
use inst_lines::{Mode, answer_line};
use inst_settings::Settings;
use std::alloc::{AllocError, Global};

/// A hub between two lines.
#[derive(Drop)]
pub struct LineHub {
    reader: LineReader,
    /// The mode: lines are commands or steps.
    pub mode: Mode,
    /// The hub after the lines so far.
    pub runner: Runner,
    /// The reply to the last line with its newline; empty before the first line.
    pub reply: Vec<u8>,
}

impl LineHub {
    ghost use Rattle.inst_c.specs.LineHub.{HasFirstOpened};

    /// Returns a hub that opens for the first time.
    ///
    /// # Errors
    ///
    /// [`AllocError`] if the hub can't be allocated.
    pub fn open(alloc: Global, mode: Mode, settings: &Settings) -> Result<LineHub, AllocError>
        ensures opened { IfOk result (HasFirstOpened mode settings.now) }
    {
        let runner = Runner::open(alloc, settings)?;
        Ok(LineHub {
            reader: LineReader::new(alloc),
            mode,
            runner,
            reply: Vec::new(alloc),
        })
    }

    /// Answers a line, given without its newline, and replaces the last reply. Returns `true` if
    /// the reply is a refusal.
    ///
    /// # Errors
    ///
    /// [`AllocError`] if the reply or what the line stores can't be allocated. Drop the hub, since
    /// it may have done part of the work.
    pub fn answer(&mut self, line: &[u8]) -> Result<bool, AllocError>
        ensures answers { IfOk result (λ refused.
            AnswersLine (hub_answerer self.old.mode) (IsRunnerAt self.old.mode) false line.now
            self.old.runner self.new.runner [] self.new.reply.items refused) }
        ensures mode { self.new.mode ≡ self.old.mode }
    {
        self.reply.clear();
        answer_line(
            &mut self.reader,
            self.mode,
            &mut self.runner,
            line,
            &mut self.reply,
        )
    }
}
