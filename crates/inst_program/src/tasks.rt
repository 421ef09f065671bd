//! The program: from the words of its command line to the exit status.
ghost use Rattle.std.specs.Prelude.{◌≡◌, ◌≢◌, ◌⊎◌, ℕ, List, map, string_bytes, OnOk, IfErr};
ghost use Rattle.std.specs.IoError.{error_kind};
ghost use Rattle.inst_lines.specs.Answering.{hub_answerer, new_past};
ghost use Rattle.inst_lines.specs.Session.{FailsAfter};
ghost use Rattle.inst_logged.specs.Streams.{streams};
ghost use Rattle.inst_options.specs.Asking.{IsWished};
ghost use Rattle.inst_program.specs.Files.{AllAreIn};
ghost use Rattle.inst_program.specs.Program.{status_of, AnswersInput, Checks, Done, Ends, Explains};
ghost use Rattle.inst_program.specs.inner.ExitReason.{IsErrorStatus, status_of_error};
ghost use Rattle.inst_program.specs.inner.ExitReason.{status_of_ending};
ghost use Rattle.inst_program.specs.inner.ExitReason.{AreLinesAnswered, IsUnanswered, IsUnchecked};
ghost use Rattle.inst_program.specs.inner.ExitReason.{IsUndone, IsUnexplained};

use crate::auditing::audit;
use crate::carrying::next;
use crate::console::Console;
use crate::drilling::{DrillTask, drill_hub};
use crate::exit_reason::ExitReason;
use crate::keeping::{LineTask, keep};
use crate::logs::Logs;
use crate::showing::show;
use crate::summary::sum_up;
use clap::error::ErrorKind;
use inst_base::Fault;
use inst_lines::{Mode, check_lines, serve_lines};
use inst_options::{
    AnyFault, BadOption, Invocation, LogOptions, WordsError, excerpt, fault_of, wished,
};
use inst_settings::Settings;
use std::alloc::{AllocGlobal, Global};
use std::io::{self, ErrorKind as IoErrorKind, Read, Write};
use std::sync::Wait;
use std::thread::Threads;

/// Does what the words of the command line ask for, and returns the exit status. The first word is
/// the program's name.
///
/// - `run` answers each line of `reader`, a command, by one line to `writer`, with the follow-ups
///   after each. With a log, each line is synced to it before its reply is written, and the log's
///   lines come first.
/// - `play` does the same for a script of steps, without follow-ups.
/// - `check` writes which lines of `reader` no hub of these settings takes, and answers none.
/// - `drill` reads nothing and drills a hub with threads. `writer` gets the result of each opening,
///   `errors` the progress if `is_watched`.
/// - `log` writes the contents of a log, and `next` makes a log that begins with the books of
///   another.
/// - `audit` verifies logs that follow one another, and writes one line for each.
/// - `explain` writes the usual meaning of a fault.
///
/// The exit status is 0 if this was done; 2 if the words or settings are wrong or a log is refused;
/// 3 if something failed, also a help text that can't be written, or an allocation before the task
/// began. `errors` gets a text, or a line `fault <number> <name>`; output that it doesn't accept is
/// lost.
///
/// Blocks on the reader, the writers and, in a drill, on threads. The time is linear in the bytes
/// of the input and the log.
///
/// Only tests show that an answered run doesn't end with 3, that a word which names a fault ends
/// with 0 and another one with 2, that `log` refuses a file whose first line isn't a log's, and why
/// an audit ends with 2.
pub fn program<
    H: Threads + Wait + Sync + AllocGlobal,
    L: Logs,
    R: Read + Drop,
    W: Write + Drop,
    E: Write + Drop,
>(rt: &H, logs: &mut L, words: Vec<String>, console: &mut Console<R, W, E>) -> u8
    requires none_out { AllAreIn (L.files logs.old) }
    // What the words ask for was done, was refused, or failed.
    ensures ends { Ends (map string_bytes words.items)
        (streams R.Read W.Write console.old.reader console.new.reader console.old.writer
        console.new.writer)
        (L.files logs.old) (L.files logs.new) result }
    // Each log that was opened is closed.
    ensures all_in { AllAreIn (L.files logs.new) }
{
    let alloc = rt.alloc();
    match wished(alloc, &words) {
        Ok(wish) => match serve(rt, logs, wish, console) {
            Ok(()) => 0,
            Err(ending) => tell_ending(ending, &mut console.errors),
        },
        Err(error) => tell_error(alloc, error, &mut console.writer, &mut console.errors),
    }
}

/// Prints why the words ask for no task, and returns the exit status. Help and version go to
/// `writer`.
fn tell_error<W: Write, E: Write>(
    alloc: Global,
    error: WordsError<'_>,
    writer: &mut W,
    errors: &mut E,
) -> u8
    ensures status { IsErrorStatus error.entry result }
    ensures written { (writer.new ≡ writer.old) ⊎ (status_of_error error.entry ≡ 0) }
{
    match error {
        WordsError::Words(error) => match error.kind() {
            ErrorKind::DisplayHelp | ErrorKind::DisplayVersion => match write!(writer, "{error}") {
                Ok(()) => 0,
                Err(_) => tell(Fault::WriteFault, errors),
            },
            _ => {
                let _ = write!(errors, "{error}");
                2
            }
        },
        WordsError::Option(bad) => {
            let status = tell(Fault::BadSettings, errors);
            tell_option(alloc, bad, errors);
            status
        }
        WordsError::Fault(fault) => tell(fault, errors),
    }
}

/// Prints the option that is bad, its value and the allowed values. Prints nothing if an allocation
/// fails.
fn tell_option<E: Write>(alloc: Global, bad: BadOption<'_>, errors: &mut E) {
    if let Ok(value) = excerpt(alloc, bad.value.as_bytes()) {
        let _ = writeln!(
            errors,
            "--{} is '{value}'; it must be {}",
            bad.name, bad.range
        );
    }
}

/// Prints that the words of the command line can't be read, and returns the exit status: 3 for an
/// allocation failure, 2 for a word that isn't text.
pub fn words_failed<E: Write>(error: &io::Error, errors: &mut E) -> u8
    ensures memory { error_kind error.now ≡ IoErrorKind.OutOfMemory →
        result ≡ status_of Fault.Memory }
    ensures no_text { error_kind error.now ≢ IoErrorKind.OutOfMemory → result ≡ 2 }
{
    match error.kind() {
        IoErrorKind::OutOfMemory => tell(Fault::Memory, errors),
        _ => {
            let _ = writeln!(errors, "error: a word of the command line isn't UTF-8");
            2
        }
    }
}

/// What a drill requires of its settings and numbers.
const DRILL: &str = "\
    a drill needs at least 2 participants, 1 to 1024 transfers and at most --places, a --ceiling of at least 100 cents \
    for each transfer, and 1 to 10 openings";

/// Prints why the program ends, and returns the exit status.
fn tell_ending<E: Write>(ending: ExitReason, errors: &mut E) -> u8
    ensures { result ≡ status_of_ending ending }
{
    match ending {
        ExitReason::Fault(fault) => {
            let status = tell(fault, errors);
            // Settings that were parsed are refused only by a drill.
            if fault == Fault::BadSettings {
                let _ = writeln!(errors, "{DRILL}");
            }
            status
        }
        ExitReason::Log(fault) => {
            let _ = writeln!(errors, "fault {} {}", fault.number(), fault.name());
            fault.status()
        }
        ExitReason::Unexplained => {
            let _ = writeln!(
                errors,
                "error: no fault has this number or name; the numbers are 1 to 31"
            );
            2
        }
        ExitReason::ScriptNotEmpty => {
            let _ = writeln!(
                errors,
                "error: the file that --script names is not empty; name a new one"
            );
            2
        }
        ExitReason::Unfit(name) => {
            let status = tell(Fault::BadSettings, errors);
            let _ = writeln!(errors, "the log and its books don't allow this --{name}");
            status
        }
        ExitReason::NoInterleaving => {
            tell_fault(AnyFault::NoInterleaving, errors);
            3
        }
        ExitReason::PendingTransfer => {
            tell_fault(AnyFault::PendingTransfer, errors);
            2
        }
        ExitReason::BrokenChain => {
            tell_fault(AnyFault::BrokenChain, errors);
            2
        }
    }
}

/// Prints the line of a fault.
fn tell_fault<E: Write>(fault: AnyFault, errors: &mut E) {
    let _ = writeln!(errors, "fault {} {}", fault.number(), fault.name());
}

/// Prints the line of a fault, and returns its exit status.
fn tell<E: Write>(fault: Fault, errors: &mut E) -> u8
    ensures { result ≡ status_of fault }
{
    let _ = writeln!(errors, "fault {} {}", fault.number(), fault.name());
    if fault == Fault::BadSettings { 2 } else { 3 }
}

/// Does what the words ask for.
fn serve<
    H: Threads + Wait + Sync + AllocGlobal,
    L: Logs,
    R: Read + Drop,
    W: Write + Drop,
    E: Write + Drop,
>(
    rt: &H,
    logs: &mut L,
    wish: Invocation<'_>,
    console: &mut Console<R, W, E>,
) -> Result<(), ExitReason>
    requires none_out { AllAreIn (L.files logs.old) }
    ensures ok { (words : List (List ℕ)) → IsWished words wish.entry → OnOk result (Done words
        (streams R.Read W.Write console.old.reader console.new.reader console.old.writer
        console.new.writer) (L.files logs.old)
        (L.files logs.new)) }
    ensures err { (words : List (List ℕ)) → IsWished words wish.entry →
        IfErr result (λ ending. IsUndone words
        (streams R.Read W.Write console.old.reader console.new.reader console.old.writer
        console.new.writer) (L.files logs.old)
        (L.files logs.new)
        (status_of_ending ending)) }
    ensures all_in { AllAreIn (L.files logs.new) }
{
    let alloc = rt.alloc();
    match wish {
        Invocation::Run(settings, log, sums) => {
            let task = LineTask {
                mode: Mode::Run,
                settings,
                sums,
            };
            answer(logs, alloc, &task, log, console)
        }
        Invocation::Play(settings, log, sums) => {
            let task = LineTask {
                mode: Mode::Play,
                settings,
                sums,
            };
            answer(logs, alloc, &task, log, console)
        }
        Invocation::Drill(settings, transfers, openings, script) => {
            let asked = DrillTask {
                settings,
                transfers,
                openings,
            };
            drill_hub(rt, logs, asked, script, console)
        }
        Invocation::Check(settings) => {
            check(alloc, &settings, &mut console.reader, &mut console.writer)
        }
        Invocation::Log(path) => {
            show(logs, alloc, path, &mut console.writer, &mut console.errors)
        }
        Invocation::Next(task) => next(logs, alloc, task, &mut console.errors),
        Invocation::Audit(paths) => {
            audit(
                logs,
                alloc,
                &paths,
                &mut console.writer,
                &mut console.errors,
            )
        }
        Invocation::Explain(word) => explain(word, &mut console.writer),
    }
}

/// Answers the lines of the console, with a log or without, and prints a summary if one is asked
/// for.
fn answer<L: Logs, R: Read + Drop, W: Write + Drop, E: Write + Drop>(
    logs: &mut L,
    alloc: Global,
    task: &LineTask,
    log: Option<LogOptions<'_>>,
    console: &mut Console<R, W, E>,
) -> Result<(), ExitReason>
    requires none_out { AllAreIn (L.files logs.old) }
    ensures ok { OnOk result (AreLinesAnswered task.now.mode task.now.settings log.entry
        (streams R.Read W.Write console.old.reader console.new.reader console.old.writer
        console.new.writer) (L.files logs.old)
        (L.files logs.new)) }
    ensures err { IfErr result (IsUnanswered task.now.mode task.now.settings log.entry
        (streams R.Read W.Write console.old.reader console.new.reader console.old.writer
        console.new.writer) (L.files logs.old)
        (L.files logs.new)) }
    ensures all_in { AllAreIn (L.files logs.new) }
{
    match log {
        Some(log) => keep(logs, alloc, task, log, console),
        None => {
            answer_unkept(alloc, task, console)?;
            Ok(())
        }
    }
}

/// Answers the lines of the console without a log.
fn answer_unkept<R: Read + Drop, W: Write + Drop, E: Write + Drop>(
    alloc: Global,
    task: &LineTask,
    console: &mut Console<R, W, E>,
) -> Result<(), Fault>
    ensures ok { OnOk result (AnswersInput task.now.mode task.now.settings
        (streams R.Read W.Write console.old.reader console.new.reader console.old.writer
        console.new.writer)) }
    ensures err { IfErr result (FailsAfter (hub_answerer task.now.mode) (new_past task.now.settings)
        (W.contents console.old.writer) (W.contents console.new.writer)
        (R.remaining console.old.reader) (R.remaining console.new.reader)) }
{
    let mut served = serve_lines(
        alloc,
        task.mode,
        &task.settings,
        &mut console.reader,
        &mut console.writer,
    )?;
    sum_up(
        task,
        &mut served.runner,
        Some(served.counts),
        &mut console.errors,
    );
    Ok(())
}

/// Writes which lines of `reader` no hub of these settings takes.
fn check<R: Read, W: Write>(
    alloc: Global,
    settings: &Settings,
    reader: &mut R,
    writer: &mut W,
) -> Result<(), ExitReason>
    ensures ok { OnOk result (Checks settings.now
        (streams R.Read W.Write reader.old reader.new writer.old writer.new)) }
    ensures err { IfErr result (IsUnchecked settings.now
        (R.remaining reader.old) (W.contents writer.old) (W.contents writer.new)) }
{
    check_lines(alloc, settings, reader, writer)?;
    Ok(())
}

/// Writes the usual meaning of the fault of this number or name, and what to do.
fn explain<W: Write>(word: &str, writer: &mut W) -> Result<(), ExitReason>
    ensures ok { OnOk result (Explains word.now (W.contents writer.old) (W.contents writer.new)) }
    ensures err { IfErr result (IsUnexplained word.now (writer.new ≡ writer.old)) }
{
    let Some(fault) = fault_of(word) else {
        return Err(ExitReason::Unexplained);
    };
    match writeln!(
        writer,
        "{} {}\nIt usually means: {}\nWhat to do: {}",
        fault.number(),
        fault.name(),
        fault.meaning(),
        fault.advice()
    ) {
        Ok(()) => Ok(()),
        Err(_) => Err(ExitReason::Fault(Fault::WriteFault)),
    }
}
