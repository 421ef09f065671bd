//! Two scripts with the same commands and transfers of B: alone, and among others' traffic.
ghost use Rattle.std.specs.Prelude.{◌≡◌, IfOk};
ghost use Rattle.inst_model.specs.Rows as rows;

use crate::comparing::same;
use crate::world::told::{ExpectedAnswer, is_told};
use inst_base::Fault;
use inst_command::{Answer, Command, LineKind, Outcome, Query, Step};
use inst_fixtures::{A, B, C, ask, confirm, fund, settings, submit};
use inst_settings::Settings;
use inst_world::run_both;
use std::alloc::Global;
use std::process::Abort;
use std::test::Fail;

fn alone() -> Result<[Step; 7], Fault>
    ensures { IfOk result (λ steps. steps ≡ rows.alone) }
{
    let deliver = Step::Deliver {
        from: A,
        index: 0,
        to: B,
    };
    Ok([
        fund(A, "F1", 50_000, 0)?,
        submit(A, "T1", B, 20_000, 1000, 1000)?,
        deliver,
        ask(B, Command::Fetch { max: 10 }, 1500)?,
        confirm(B, A, "T1", 2000)?,
        ask(
            B,
            Command::Query(Query::Statement { skip: 0, count: 10 }),
            2100,
        )?,
        ask(B, Command::Query(Query::Position), 2100)?,
    ])
}

fn among_others() -> Result<[Step; 13], Fault>
    ensures { IfOk result (λ steps. steps ≡ rows.among_others) }
{
    let to_b = Step::Deliver {
        from: A,
        index: 1,
        to: B,
    };
    let to_a = Step::Deliver {
        from: C,
        index: 0,
        to: A,
    };
    let learn = Step::Learn {
        who: C,
        from: C,
        index: 0,
    };
    Ok([
        fund(C, "F9", 700, 5)?,
        submit(C, "Z1", A, 300, 1200, 1200)?,
        fund(A, "F7", 90_000, 3)?,
        submit(A, "T0", C, 100, 900, 950)?,
        submit(A, "T1", B, 20_000, 1000, 1000)?,
        to_b,
        to_a,
        ask(B, Command::Fetch { max: 10 }, 1500)?,
        confirm(A, C, "Z1", 1600)?,
        confirm(B, A, "T1", 2000)?,
        learn,
        ask(
            B,
            Command::Query(Query::Statement { skip: 0, count: 10 }),
            2100,
        )?,
        ask(B, Command::Query(Query::Position), 2100)?,
    ])
}

/// The replies to B: it fetches the transfer, reads that it is accepted, and sees its statement
/// line and its position.
const TOLD: [ExpectedAnswer; 4] = [
    ExpectedAnswer::Inbox(&[(A, "T1", 20_000, 11_000)]),
    ExpectedAnswer::Decided(A, Outcome::Accepted),
    ExpectedAnswer::Lines(&[(1, LineKind::Received, Some(A), "T1", 20_000, 20_000)]),
    ExpectedAnswer::Position(20_000, 0, 20_000),
];

/// Returns `true` if B's reply `nth` is the expected one.
fn is_nth(nth: usize, answer: &Answer) -> bool {
    match TOLD.get(nth) {
        Some(told) => is_told(answer, told),
        None => false,
    }
}

/// Counts the asks of B with the expected replies, from the first on.
fn told_to_b(steps: &[Step], answers: &[Answer]) -> usize {
    let mut count = 0;
    for (step, answer) in steps.iter().zip(answers) {
        let is_b = matches!(step, Step::Ask(ask) if ask.who == B);
        if is_b && is_nth(count, answer) {
            count = count.saturating_add(1);
        }
    }
    count
}

/// Counts the asks of B with the expected replies, alone and among others' traffic.
fn told_in_both(
    alloc: Global,
    settings: &Settings,
    alone: &[Step; 7],
    among_others: &[Step; 13],
) -> Result<(usize, usize), Fault>
    requires settings { settings.now ≡ rows.settings }
    requires alone { alone.now ≡ rows.alone }
    requires among_others { among_others.now ≡ rows.among_others }
{
    let (one, other) = run_both(alloc, settings, B, alone, among_others)?;
    let (_, quiet) = one;
    let (_, busy) = other;
    let first = told_to_b(alone, quiet.answers.as_slice());
    Ok((first, told_to_b(among_others, busy.answers.as_slice())))
}

/// Checks that B's four asks have the expected replies, alone and among others' traffic.
fn hides_others(rt: &(impl Abort + AllocGlobal), settings: &Settings) -> Result<(), Fail>
    requires { settings.now ≡ rows.settings }
{
    let told = told_in_both(rt.alloc(), settings, &alone()?, &among_others()?)?;
    same(rt, told, (4, 4));
    Ok(())
}

#[test]
fn other_traffic_unseen(rt: HostRuntime) -> Result<(), Fail> {
    let settings = settings(rt.alloc())?;
    hides_others(&rt, &settings)
}
