//! One opening of a drill, from its first command to its books.
ghost use Rattle.std.specs.Prelude.{◌≡◌, ◌⊎◌, ◌≤◌, ℕ, length, IfOk, IfErr, IsOkUnless};
ghost use Rattle.inst_hub.specs.Calls.{AreOf};
ghost use Rattle.inst_hub.specs.Opening.{HaveAllParts};
ghost use Rattle.inst_crew.specs.Seen.{AreSeenByOne};
ghost use Rattle.inst_close.specs.Closing.{IsOpenedSo};
ghost use Rattle.inst_drill.specs.inner.Chain.{AreAfter, opening_of};
ghost use Rattle.inst_drill.specs.declared.plan.TheConstants.{MOST_DRILL_OPENINGS};
ghost use Rattle.inst_drill.specs.inner.Plan.{IsPlan};
ghost use Rattle.inst_drill.specs.Drilled.{IsDrilled, drill_opening};

use crate::counting::{contradicted, ends};
use crate::error::DrillError;
use crate::explaining::{DrillResult, explain};
use crate::report::Report;
use crate::round::Round;
use crate::staff::{STAFF, Staff};
use inst_base::Fault;
use inst_close::{Books, close};
use inst_command::State;
use inst_crew::Workplace;
use inst_desk::Desk;
use inst_hub::{Gate, Hub, Teller, Ticket};
use inst_settings::Settings;
use std::alloc::Global;
use std::sync::Wait;
use std::thread::Threads;

/// What the crews of an opening did, with all tellers of its hub.
#[derive(Drop)]
struct Worked {
    tellers: Vec<Teller>,
    /// How many jobs were put on the desk.
    jobs: u64,
    /// How many of them were answered.
    answered: u64,
    /// The states of the transfers as they were submitted.
    submitted: Vec<(Ticket, State)>,
    /// The states as they were confirmed.
    confirmed: Vec<(Ticket, State)>,
}

/// Opens the next hub from these books, or the first one if there are none. `Memory` is the only
/// fault.
fn open(
    alloc: Global,
    settings: &Settings,
    books: &Option<Books>,
) -> Result<(Hub, Vec<Teller>), Fault>
    requires { (n : ℕ) × (n ≤ MOST_DRILL_OPENINGS) × AreAfter settings.now n books.now }
    ensures settings { IfOk result (λ r. r.0.settings ≡ settings.now) }
    ensures tellers { IfOk result (λ r. AreOf r.0 r.1.items × (length r.1.items ≡ 3)) }
    ensures parts { IfOk result (λ r. HaveAllParts r.1.items) }
    ensures opened { IfOk result (λ r. IsOpenedSo (opening_of books.now) r.0) }
    ensures only { IsOkUnless result Fault.Memory }
{
    match books {
        Some(books) => {
            // Has no effect: its contract tells the verifier that the books can be opened from.
            let _settings = books.settings();
            books.open_next(alloc, STAFF)
        }
        None => Hub::open(alloc, settings.copy()?, STAFF),
    }
}

/// Funds participant 0 and lets it submit, lets participant 1 confirm during a sweep, and sweeps
/// both.
fn work<R: Threads + Wait + Sync, G: Gate + Sync>(
    rt: &R,
    alloc: Global,
    hub: &Hub,
    tellers: Vec<Teller>,
    round: &Round<G>,
) -> Result<Worked, Fault>
    requires tellers { AreOf hub.now tellers.items × (length tellers.items ≡ 3) }
    requires parts { HaveAllParts tellers.items }
    requires plan { IsPlan hub.now.settings round.now.plan.now }
    ensures of { IfOk result (λ worked. AreOf hub.now worked.tellers.items) }
    ensures parts { IfOk result (λ worked. HaveAllParts worked.tellers.items) }
    ensures submitted { IfOk result (λ worked.
        AreSeenByOne worked.tellers.items worked.submitted.items) }
    ensures confirmed { IfOk result (λ worked.
        AreSeenByOne worked.tellers.items worked.confirmed.items) }
    ensures only { IsOkUnless result Fault.Memory }
{
    let (desk, hands) = Desk::open(alloc, round.plan.transfers, STAFF)?;
    let mut staff = Staff::of(hub, &desk, hands, tellers);
    staff.fund(rt, alloc, hub, round)?;
    let place = Workplace {
        hub,
        desk: &desk,
        gate: round.gate,
    };
    let submitted = staff.submit(rt, alloc, &place, round)?;
    let confirmed = submitted.staff.confirm(rt, alloc, &place, round)?;
    let mut staff = confirmed.staff;
    staff.sweep(rt, hub, round.plan)?;
    let (hands, tellers) = staff.dismiss()?;
    Ok(Worked {
        tellers,
        jobs: desk.finish(rt, hands).put,
        answered: submitted.answered.saturating_add(confirmed.answered),
        submitted: submitted.states,
        confirmed: confirmed.states,
    })
}

/// Opens a hub from the books `before`, or for the first time if there are none, does what the
/// round says, and closes it. Returns its report and what it leaves.
///
/// # Errors
///
/// `Memory` if an allocation fails, and `NoInterleaving` if no run of a hub in one thread is found
/// that leaves these books. The hub is dropped.
pub(crate) fn run_opening<R: Threads + Wait + Sync, G: Gate + Sync>(
    rt: &R,
    alloc: Global,
    settings: &Settings,
    before: &Option<Books>,
    round: &Round<G>,
) -> Result<(Report, DrillResult), DrillError>
    requires before { (n : ℕ) × (n ≤ MOST_DRILL_OPENINGS) × AreAfter settings.now n before.now }
    requires plan { IsPlan settings.now round.now.plan.now }
    ensures drilled { IfOk result (λ r.
        IsDrilled settings.now
        (drill_opening (opening_of before.now) r.1.books r.1.steps.items r.0)) }
    ensures only { IfErr result (λ e. (e ≡ DrillError.Fault Fault.Memory)
        ⊎ (e ≡ DrillError.NoInterleaving)) }
{
    let (hub, tellers) = open(alloc, settings, before)?;
    let Worked {
        tellers,
        jobs,
        answered,
        submitted,
        confirmed,
    } = work(rt, alloc, &hub, tellers, round)?;
    let Ok(books) = close(alloc, hub, tellers) else {
        return Err(DrillError::Fault(Fault::Memory));
    };
    let Some(steps) = explain(alloc, &books, before)? else {
        return Err(DrillError::NoInterleaving);
    };
    let (accepted, timed_out) = ends(books.journal(0).events());
    let report = Report {
        jobs,
        answered,
        decided: accepted + timed_out,
        accepted,
        timed_out,
        disagree: contradicted(&books, &submitted).saturating_add(contradicted(&books, &confirmed)),
        net: books.net(),
        sum: books.sum(),
    };
    Ok((report, DrillResult { books, steps }))
}
