//! The stored statement of a ledger.
ghost use Rattle.std.specs.Prelude.{◌≡◌, ◌<◌, ◌≤◌, Some, [], take, drop, length, slice_get};
ghost use Rattle.std.specs.Prelude.{slice_range, IfOk, OnOk, IsOk, IsTrue};
ghost use Rattle.std.specs.Int.{abs_diff};
ghost use Rattle.inst_base.specs.Cents.{is_amount};
ghost use Rattle.inst_statement.specs.KeptLine.{AreNamed, reached};
ghost use Rattle.inst_statement.specs.KeptStatement.{MayAdd, LeadsOn, AddsLine, position_of};
ghost use Rattle.inst_statement.specs.KeptStatement.{lines_of_statement};

use crate::kept_line::KeptLine;
use crate::movement::Movement;
use inst_command::{Line, LineKind};
use inst_journal::Event;
use std::alloc::{AllocError, Global};
use std::marker::Model;

/// A participant's statement since the last opening, stored line by line next to the participant's
/// journal.
///
/// ```text
/// let mut statement = KeptStatement::new(alloc);
/// statement.reserve()?;
/// statement.add(0, &funded); // event 0, 500 cents: line 1, position 500
/// statement.part(alloc, events, 0, 10)
/// ```
#[derive(Drop)]
pub struct KeptStatement {
    lines: Vec<KeptLine>,
    /// The position before the first line, in cents.
    begun: u64,
}

impl Model for KeptStatement {
    ghost use Rattle.std.specs.Prelude.{◌-◌, vec_len, vec_capacity};
    ghost use Rattle.inst_statement.specs.KeptStatement.{Stated, IsStatement};

    ghost Value = { Stated };

    ghost view = { λ statement. record {
      lines = statement.lines.items;
      begun = statement.begun;
      room = vec_capacity statement.lines - vec_len statement.lines;
    } };

    ghost invariant = { λ statement. IsStatement statement.begun statement.lines.items };
}

impl KeptStatement {
    /// Makes a statement without lines, at position 0; doesn't allocate.
    pub fn new(alloc: Global) -> Self
        ensures lines { result.lines ≡ [] }
        ensures begun { result.begun ≡ 0 }
    {
        KeptStatement {
            lines: Vec::new(alloc),
            begun: 0,
        }
    }

    /// Returns the position before the line at this index, or after the last line, in cents.
    fn position_before(&self, index: usize) -> u64
        requires { index ≤ length self.now.lines }
        ensures { result ≡ reached self.now.begun (take index self.now.lines) }
    {
        if index == 0 {
            return self.begun;
        }
        self.lines[index - 1].position
    }

    /// Returns the position after the last line, in cents.
    pub fn position(&self) -> u64
        ensures { result ≡ position_of self.now }
    {
        self.position_before(self.lines.len())
    }

    /// Begins a new statement at an opening: drops the lines and keeps the position.
    pub fn begin(&mut self)
        ensures lines { self.new.lines ≡ [] }
        ensures begun { self.new.begun ≡ position_of self.old }
    {
        self.begun = self.position();
        self.lines.clear();
    }

    /// Reserves capacity for one more line; doesn't allocate if there is some.
    ///
    /// # Errors
    ///
    /// [`AllocError`] if the capacity can't be allocated. The lines are unchanged.
    pub fn reserve(&mut self) -> Result<(), AllocError>
        ensures lines { self.new.lines ≡ self.old.lines }
        ensures begun { self.new.begun ≡ self.old.begun }
        ensures room { OnOk result (0 < self.new.room) }
        ensures enough { 0 < self.old.room → IsOk result }
    {
        self.lines.try_reserve(1)?;
        Ok(())
    }

    /// Returns the position after a movement, in cents.
    fn position_after(&self, movement: &Movement) -> u64
        requires { MayAdd self.now movement.now }
        ensures leads { LeadsOn (position_of self.now) movement.now result }
        ensures amount { IsTrue (is_amount (abs_diff result (position_of self.now))) }
    {
        let before = self.position();
        let cents = movement.cents.get();
        match movement.kind {
            LineKind::Funded | LineKind::Received => before + cents,
            LineKind::Defunded | LineKind::Paid => before - cents,
        }
    }

    /// Adds the line of a movement, whose event has this index in the journal, in capacity that
    /// [`reserve`](KeptStatement::reserve) made.
    pub fn add(&mut self, event: u32, movement: &Movement)
        requires { MayAdd self.old movement.now }
        ensures { AddsLine self.old event movement.now self.new }
    {
        let position = self.position_after(movement);
        self.lines.push_reserved(KeptLine {
            event,
            kind: movement.kind,
            other: movement.other,
            position,
        });
    }

    /// Returns the line at this index.
    fn line(&self, events: &[Event], index: usize) -> Line
        requires named { AreNamed events.now self.now.lines }
        requires within { index < length self.now.lines }
        ensures { slice_get (lines_of_statement events.now self.now) index ≡ Some result }
    {
        self.lines[index].line(events, index as u32 + 1, self.position_before(index))
    }

    /// Returns the lines from one index up to another.
    fn lines(
        &self,
        alloc: Global,
        events: &[Event],
        first: usize,
        last: usize,
    ) -> Result<Vec<Line>, AllocError>
        requires named { AreNamed events.now self.now.lines }
        requires order { first ≤ last }
        requires within { last ≤ length self.now.lines }
        ensures ok { IfOk result (λ lines.
            lines.items ≡ slice_range (lines_of_statement events.now self.now) first last) }
    {
        let mut lines = Vec::with_capacity(alloc, last - first)?;
        for index in first..last {
            lines.push(self.line(events, index))?;
        }
        Ok(lines)
    }

    /// Returns at most `count` lines after the first `skip`, made from the events of the journal.
    /// Cost: linear in the lines returned.
    ///
    /// # Errors
    ///
    /// [`AllocError`] if the lines can't be allocated.
    pub fn part(
        &self,
        alloc: Global,
        events: &[Event],
        skip: u64,
        count: u32,
    ) -> Result<Vec<Line>, AllocError>
        requires { AreNamed events.now self.now.lines }
        ensures ok { IfOk result (λ lines.
            lines.items ≡ take count (drop skip (lines_of_statement events.now self.now))) }
    {
        let kept = self.lines.len();
        if skip >= kept as u64 {
            return Ok(Vec::new(alloc));
        }
        let first = skip as usize;
        let last = first + (kept - first).min(count as usize);
        self.lines(alloc, events, first, last)
    }
}
