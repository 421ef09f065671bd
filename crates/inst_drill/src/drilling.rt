//! All openings of a drill, one after the other.
ghost use Rattle.std.specs.Prelude.{◌≡◌, ◌≢◌, ◌⊎◌, ◌↔◌, OnOk, IfOk, IfErr, Err};
ghost use Rattle.std.specs.Io.KnownBytes.{Appends};
ghost use Rattle.inst_drill.specs.Plan.{MayDrill};
ghost use Rattle.inst_drill.specs.Drilled.{EndsADrill, HasDrilledAll, HasDrilledFewer};
ghost use Rattle.inst_drill.specs.Report.{report_text, ends_text};

use crate::error::DrillError;
use crate::explaining::DrillResult;
use crate::opening::run_opening;
use crate::plan::Plan;
use crate::report::Report;
use crate::request::DrillRequest;
use crate::round::Round;
use inst_base::Fault;
use inst_command::Step;
use inst_hub::Gate;
use std::alloc::Global;
use std::io::Write;
use std::sync::Wait;
use std::thread::Threads;

/// Writes the four lines of an opening.
fn tell<W: Write>(alloc: Global, report: &Report, writer: &mut W) -> Result<(), Fault>
    ensures ok { OnOk result
        (Appends (W.contents writer.old) (W.contents writer.new) (report_text report.now)) }
    ensures only { IfErr result (λ e. (e ≡ Fault.Memory) ⊎ (e ≡ Fault.WriteFault)) }
    ensures none { result ≡ Err Fault.Memory → writer.new ≡ writer.old }
{
    let text = report.text(alloc)?;
    writer
        .write_all(text.as_bytes())
        .map_err(|_| Fault::WriteFault)?;
    writer.flush().map_err(|_| Fault::WriteFault)
}

/// Writes the line with the counts of an opening.
fn tell_ends<P: Write>(alloc: Global, report: &Report, progress: &mut P) -> Result<(), Fault>
    ensures { OnOk result
        (Appends (P.contents progress.old) (P.contents progress.new) (ends_text report.now)) }
{
    let text = report.ends(alloc)?;
    progress
        .write_all(text.as_bytes())
        .map_err(|_| Fault::WriteFault)
}

/// Returns the steps of this opening if it is the first, else those before.
fn if_first(opening: u8, steps: Vec<Step>, before: Vec<Step>) -> Vec<Step>
    ensures first { opening ≡ 1 → result.items ≡ steps.items }
    ensures later { opening ≢ 1 → result.items ≡ before.items }
{
    if opening == 1 { steps } else { before }
}

/// Runs a drill: opens a hub 1 to 10 times, first empty and then from the books of the opening
/// before, and lets threads race in each opening.
///
/// In each opening participant 0 is funded and submits its transfers of 100 cents to participant 1,
/// through two threads. Two threads confirm them at the last moment in time. Once half of them are
/// confirmed, a third thread begins to sweep participant 0 at their deadline, so that the others
/// are accepted or time out. Then it closes the hub and looks for steps of a hub in one thread that
/// leave the same books.
///
/// `writer` gets the four lines of each [`Report`], and `progress` one line of counts,
/// `accepted A timed_out T`. If the request is watched, `progress` also gets a line as an opening
/// begins. What `progress` doesn't take is lost. Returns the books of the last opening and the
/// steps of the first. Blocks while threads wait for locks.
///
/// # Errors
///
/// - `BadSettings` exactly if there are fewer than two participants, no transfer or more of them
/// than places, more cents than the ceiling, or not 1 to 10 openings. Nothing was written.
/// - `Memory` if an allocation fails, and `NoInterleaving` if no such steps are found. `writer` has
/// the lines of the openings before.
/// - `WriteFault` if `writer` fails.
pub fn drill<R: Threads + Wait + Sync, G: Gate + Sync, W: Write, P: Write>(
    rt: &R,
    alloc: Global,
    request: &DrillRequest<G>,
    writer: &mut W,
    progress: &mut P,
) -> Result<DrillResult, DrillError>
    ensures bad { (result ≡ Err (DrillError.Fault Fault.BadSettings)) ↔
        ¬ MayDrill request.now.settings request.now.transfers request.now.openings }
    ensures ok { IfOk result (HasDrilledAll request.now.settings request.now.openings
        (W.contents writer.old) (W.contents writer.new)) }
    ensures only { IfErr result EndsADrill }
    ensures untouched { result ≡ Err (DrillError.Fault Fault.BadSettings) →
        writer.new ≡ writer.old }
    ensures fewer { (result ≡ Err (DrillError.Fault Fault.Memory))
        ⊎ (result ≡ Err DrillError.NoInterleaving)
        → HasDrilledFewer request.now.settings request.now.openings
        (W.contents writer.old) (W.contents writer.new) }
{
    let openings = request.openings;
    let plan = Plan::of(&request.settings, request.transfers, openings)?;
    let mut books = None;
    let mut steps = Vec::new(alloc);
    for done in 0..openings {
        let opening = done + 1;
        if request.is_watched {
            let _ = writeln!(progress, "opening {opening} of {openings}");
        }
        let round = Round {
            plan: &plan,
            opening,
            gate: request.gate,
        };
        let (report, left) = run_opening(rt, alloc, &request.settings, &books, &round)?;
        tell(alloc, &report, writer)?;
        let _ = tell_ends(alloc, &report, progress);
        books = Some(left.books);
        steps = if_first(opening, left.steps, steps);
    }
    match books {
        Some(books) => Ok(DrillResult { books, steps }),
        None => unreachable!(),
    }
}
