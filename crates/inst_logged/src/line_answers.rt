//! The responder of a hub's log: a hub in one thread that answers lines.
ghost use Rattle.std.specs.Prelude.{◌≡◌, ◌≤◌, [], ◌∷◌, length, IfOk, OnOk};
ghost use Rattle.inst_log.specs.Layout.{recovered_lines};
ghost use Rattle.inst_chain.specs.Chain.{said};
ghost use Rattle.inst_logged.specs.Answering.{SaysLines};
ghost use Rattle.inst_logged.specs.inner.Answering.{AnswersLines, AnswersFirst};

use inst_agenda::Runner;
use inst_chain::is_mark;
use inst_journal::Journal;
use inst_json::LineReader;
use inst_lines::{Mode, answer_line};
use inst_log::{Responder, first_line, line_of};
use inst_settings::Settings;
use inst_world::World;
use std::alloc::{AllocError, Global};

/// A hub that answers the lines of a log.
#[derive(Drop)]
pub struct LineAnswers {
    reader: LineReader,
    /// The form of the lines: commands or steps.
    pub mode: Mode,
    /// The hub after the lines so far.
    pub runner: Runner,
}

impl LineAnswers {
    ghost use Rattle.inst_lines.specs.Answering.{new_past};
    ghost use Rattle.inst_world.specs.NextOpening.{CanOpenFrom};
    ghost use Rattle.inst_logged.specs.LineAnswers.{HasOpened};
    ghost use Rattle.inst_logged.specs.Answering.{opened_from};

    /// Returns a hub that opens for the first time.
    ///
    /// # Errors
    ///
    /// [`AllocError`] if the hub can't be allocated.
    pub fn open(alloc: Global, mode: Mode, settings: &Settings) -> Result<LineAnswers, AllocError>
        ensures opened { IfOk result (λ answers. HasOpened mode (new_past settings.now) answers) }
    {
        let runner = Runner::open(alloc, settings)?;
        Ok(LineAnswers {
            reader: LineReader::new(alloc),
            mode,
            runner,
        })
    }

    /// Returns a hub that opens from a copy of these journals, one for each participant by number.
    ///
    /// Requires journals from which a hub with these settings can open (`CanOpenFrom`).
    ///
    /// # Errors
    ///
    /// [`AllocError`] if the hub or the copies can't be allocated.
    pub fn open_from(
        alloc: Global,
        mode: Mode,
        settings: &Settings,
        journals: &[Journal],
    ) -> Result<LineAnswers, AllocError>
        requires journals { CanOpenFrom settings.now journals.now }
        ensures opened { IfOk result (λ answers.
            HasOpened mode (opened_from settings.now journals.now) answers) }
    {
        let world = World::open_from(alloc, settings, journals)?;
        let runner = Runner::new(alloc, world)?;
        Ok(LineAnswers {
            reader: LineReader::new(alloc),
            mode,
            runner,
        })
    }

    /// Answers the first `count` lines of these, marks not counted, or all. Returns where the
    /// others begin, and how many are missing.
    pub(crate) fn answer_first(
        &mut self,
        lines: &[u8],
        count: u64,
        out: &mut Vec<u8>,
    ) -> Result<(usize, u64), AllocError>
        ensures ok { IfOk result (λ done. AnswersFirst self.old.mode self.old.runner self.new.runner
            out.old.items out.new.items lines.now done.0 count done.1) }
        ensures mode { self.new.mode ≡ self.old.mode }
    {
        let mut rest = lines;
        let mut left = count;
        while let Some(len) = first_line(rest) {
            if left == 0 {
                return Ok((lines.len() - rest.len(), 0));
            }
            left -= self.answer_raw(&rest[..len - 1], out)?;
            rest = &rest[len..];
        }
        Ok((lines.len() - rest.len(), left))
    }

    /// Answers the lines of a log.
    pub(crate) fn answer_all(&mut self, lines: &[u8], out: &mut Vec<u8>) -> Result<(), AllocError>
        ensures ok { OnOk result (AnswersLines self.old.mode self.old.runner self.new.runner
            out.old.items out.new.items (recovered_lines lines.now)) }
        ensures mode { self.new.mode ≡ self.old.mode }
    {
        let mut rest = lines;
        while let Some(len) = first_line(rest) {
            self.answer_raw(&rest[..len - 1], out)?;
            rest = &rest[len..];
        }
        Ok(())
    }

    /// Answers a line in its form in the log. Returns the number of replies: 0 for a mark, else 1.
    fn answer_raw(&mut self, raw: &[u8], out: &mut Vec<u8>) -> Result<u64, AllocError>
        ensures ok { OnOk result (AnswersLines self.old.mode self.old.runner self.new.runner
            out.old.items out.new.items (raw.now ∷ [])) }
        ensures count { IfOk result (λ n. n ≡ length (said (raw.now ∷ []))) }
        ensures most { IfOk result (λ n. n ≤ 1) }
        ensures mode { self.new.mode ≡ self.old.mode }
    {
        if is_mark(raw) {
            return Ok(0);
        }
        let line = line_of(raw);
        answer_line(&mut self.reader, self.mode, &mut self.runner, line, out)?;
        Ok(1)
    }
}

impl Responder for LineAnswers {
    ghost says = { λ answers replies. SaysLines answers.mode answers.runner replies };

    fn answer(&mut self, batch: &[u8], out: &mut Vec<u8>) -> Result<(), AllocError> {
        self.answer_all(batch, out)
    }

    ghost none = { λ _ _ said. said.are [] };
}
