//! Reading lines as asks and steps.
ghost use Rattle.std.specs.Prelude.{◌≡◌, ◌↔◌, true, IfOk, IsTrue, IsSome};
ghost use Rattle.serde_json.specs.View.{view};
ghost use Rattle.inst_command.specs.Ask.{ask_fits};
ghost use Rattle.inst_command.specs.Step.{step_fits};
ghost use Rattle.inst_json.specs.Refusals.{IsUnlessMemory, IsReadUnlessMemory};
ghost use Rattle.inst_json.specs.inner.Refusals.{GivesUnlessMemory};
ghost use Rattle.inst_json.specs.Lines.{json_of, blamed_command_of_line, command_of_line};
ghost use Rattle.inst_json.specs.Lines.{blamed_step_of_line, step_of_line};
ghost use Rattle.inst_json.specs.inner.Lines.{document};

use crate::Refusal;
use crate::command::ask_of;
use crate::line::{fields_of, scan_line};
use crate::scanning::{Fields, Form};
use crate::step::step_of;
use inst_base::Fault;
use inst_command::{Ask, Step};
use inst_settings::Settings;
use json::{Reader, Scratch};
use serde_json::Value;
use std::alloc::{AllocError, Global};
use std::str;

/// The deepest nesting of arrays and objects that `serde_json` reads.
const MOST_DEPTH: usize = 127;

/// Reads lines one after another.
///
/// A plain line allocates nothing, nor does one that the single pass already finds to be no JSON.
/// Any other line is read as a JSON value. The memory that checks such a line is kept for the next
/// one.
///
/// ```text
/// let mut reader = LineReader::new(alloc);
/// reader.read_command(&settings, br#"{"at":0,"cmd":"position","who":"AAAADEFF"}"#)?
/// ```
#[derive(Drop)]
pub struct LineReader {
    alloc: Global,
    scratch: Option<Scratch>,
}

impl LineReader {
    /// Returns a reader; allocates nothing.
    pub fn new(alloc: Global) -> LineReader {
        LineReader {
            alloc,
            scratch: None,
        }
    }

    /// Returns the ask of a command line.
    ///
    /// Moments in the line are absolute milliseconds, amounts are cents. Fields may be in any
    /// order, and those that the command doesn't have are ignored. If a field is given twice, the
    /// last one counts.
    ///
    /// # Errors
    ///
    /// The first that applies of `NotJson`, `BadField`, `BadIdentifier`, `BadAmount`, `BadMoment`
    /// and `UnknownParticipant`, in this order. `Memory` on allocation failure.
    #[tactic(auto, unfolding(crate::specs::Lines::command_of_line))]
    pub fn read_command(&mut self, settings: &Settings, line: &[u8]) -> Result<Ask, Fault>
        ensures value { IsUnlessMemory result (command_of_line settings.now line.now) }
        ensures fits { IfOk result (λ ask. ask_fits settings.now ask ≡ true) }
    {
        match self.read_blamed_command(settings, line) {
            Ok(ask) => Ok(ask),
            Err(refusal) => Err(refusal.fault),
        }
    }

    /// Returns the ask of a command line; a refusal also names the field that is refused.
    ///
    /// Of several fields that are refused with the same fault it names the one that is checked
    /// first.
    ///
    /// # Errors
    ///
    /// The faults of [`read_command`](LineReader::read_command), each with its field if it has one.
    #[tactic(auto, unfolding(crate::specs::Lines::blamed_command_of_line))]
    #[inline(always)]
    pub fn read_blamed_command(&mut self, settings: &Settings, line: &[u8]) -> Result<Ask, Refusal>
        ensures value { IsReadUnlessMemory result (blamed_command_of_line settings.now line.now) }
        ensures fits { IfOk result (λ ask. ask_fits settings.now ask ≡ true) }
    {
        let mut fields = Fields::new();
        match scan_line(line, &mut fields) {
            Form::Plain => ask_of(settings, &fields),
            Form::Broken => Err(Refusal::from(Fault::NotJson)),
            Form::Other => {
                let value = self.json_of(line)?;
                ask_of(settings, &fields_of(&value))
            }
        }
    }

    /// Returns the step of a script line.
    ///
    /// An object with the field `step` is a delivery, a learning or an expiry; any other is a
    /// command.
    ///
    /// # Errors
    ///
    /// The faults of [`read_command`](LineReader::read_command), in the same order.
    #[tactic(auto, unfolding(crate::specs::Lines::step_of_line))]
    pub fn read_step(&mut self, settings: &Settings, line: &[u8]) -> Result<Step, Fault>
        ensures value { IsUnlessMemory result (step_of_line settings.now line.now) }
        ensures fits { IfOk result (λ step. step_fits settings.now step ≡ true) }
    {
        match self.read_blamed_step(settings, line) {
            Ok(step) => Ok(step),
            Err(refusal) => Err(refusal.fault),
        }
    }

    /// Returns the step of a script line; a refusal also names the field that is refused.
    ///
    /// # Errors
    ///
    /// The faults of [`read_command`](LineReader::read_command), each with its field if it has one.
    #[tactic(auto, unfolding(crate::specs::Lines::blamed_step_of_line))]
    #[inline(always)]
    pub fn read_blamed_step(&mut self, settings: &Settings, line: &[u8]) -> Result<Step, Refusal>
        ensures value { IsReadUnlessMemory result (blamed_step_of_line settings.now line.now) }
        ensures fits { IfOk result (λ step. step_fits settings.now step ≡ true) }
    {
        let mut fields = Fields::new();
        match scan_line(line, &mut fields) {
            Form::Plain => step_of(settings, &fields),
            Form::Broken => Err(Refusal::from(Fault::NotJson)),
            Form::Other => {
                let value = self.json_of(line)?;
                step_of(settings, &fields_of(&value))
            }
        }
    }

    /// Returns the JSON value of a line; `NotJson` if it isn't JSON in UTF-8 nested at most 127
    /// deep. A line that is no JSON is found without building a value.
    #[tactic(auto, unfolding(crate::specs::Lines::json_of))]
    #[inline(never)]
    fn json_of(&mut self, line: &[u8]) -> Result<Value, Fault>
        ensures { GivesUnlessMemory view result (json_of line.now) }
    {
        let alloc = self.alloc;
        let Ok(text) = str::from_utf8(line) else {
            return Err(Fault::NotJson);
        };
        let scratch = self.scratch.get_or_insert_with(|| Scratch::new(alloc));
        if !is_json(text, scratch)? {
            return Err(Fault::NotJson);
        }
        match Value::from_slice(alloc, line) {
            Ok(value) => Ok(value),
            Err(error) if error.is_memory() => Err(Fault::Memory),
            Err(_) => Err(Fault::NotJson),
        }
    }
}

/// Returns `true` if the text is one JSON value nested at most as deep as `serde_json` reads.
fn is_json(text: &str, scratch: &mut Scratch) -> Result<bool, AllocError>
    ensures { IfOk result (λ is. IsTrue is ↔ IsSome (document text.now)) }
{
    let mut reader = Reader::new(text, scratch)?;
    Ok(reader.skip_value(MOST_DEPTH).is_ok() && reader.next().is_none())
}

/// Returns the ask of a single command line, as [`LineReader::read_command`] does.
pub fn read_command(alloc: Global, settings: &Settings, line: &[u8]) -> Result<Ask, Fault>
    ensures value { IsUnlessMemory result (command_of_line settings.now line.now) }
    ensures fits { IfOk result (λ ask. ask_fits settings.now ask ≡ true) }
{
    LineReader::new(alloc).read_command(settings, line)
}

/// Returns the step of a single script line, as [`LineReader::read_step`] does.
pub fn read_step(alloc: Global, settings: &Settings, line: &[u8]) -> Result<Step, Fault>
    ensures value { IsUnlessMemory result (step_of_line settings.now line.now) }
    ensures fits { IfOk result (λ step. step_fits settings.now step ≡ true) }
{
    LineReader::new(alloc).read_step(settings, line)
}
