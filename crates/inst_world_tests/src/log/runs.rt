//! Two runs of one log, where the first stops at each call to its disk: each line is answered once.
ghost use Rattle.std.specs.Prelude.{◌≡◌, [], IfOk};
ghost use Rattle.std.proofs.Common.{ap};
ghost use Rattle.inst_log.specs.Layout.{blocks, IsBatch};
ghost use Rattle.inst_log.specs.Serving.{Replies, AllBatches};

use crate::comparing::{same, same_at};
use crate::disks::filled;
use crate::log::batches::{one, two};
use inst_log::{LogRun, Machine, Responder, run_twice, whole_lines};
use sqlite_disk::Memory;
use std::alloc::{AllocError, Global};
use std::process::Abort;
use std::test::Fail;

/// A responder that answers each line with itself.
#[derive(Drop)]
struct Echo;

impl Responder for Echo {
    ghost says = { λ _ replies. replies ≡ blocks };

    ghost none = { λ _ _ is. ap (λ (f : Replies). f []) is };

    fn answer(&mut self, batch: &[u8], out: &mut Vec<u8>) -> Result<(), AllocError> {
        out.extend_from_slice(whole_lines(batch))
    }
}

/// The replies of both runs, by how many batches of the first are in the log.
const TOLD: &[&[u8]] = &[
    b"{last}\n",
    b"{\"a\":1}\n{\"b\":2}\n{last}\n",
    b"{\"a\":1}\n{\"b\":2}\n{\"c\":3}\n{last}\n",
];

/// The batches of the first run.
fn first_batches(rt: &(impl Abort + AllocGlobal)) -> Result<Vec<Vec<u8>>, Fail>
    ensures { IfOk result (λ batches. AllBatches batches.items) }
{
    let first = two(rt, b"{\"a\":1}", b"{\"b\":2}")?;
    let second = one(rt, b"{\"c\":3}")?;
    Ok(vec![in rt.alloc(); first, second]?)
}

/// The batch of the second run.
fn last_batch(rt: &(impl Abort + AllocGlobal)) -> Result<Vec<Vec<u8>>, Fail>
    ensures { IfOk result (λ batches. AllBatches batches.items) }
{
    let last = one(rt, b"{last}")?;
    Ok(vec![in rt.alloc(); last]?)
}

/// Returns the replies of both runs, if the first stops after `calls` calls.
fn told(
    alloc: Global,
    calls: u64,
    settings: &[u8],
    batches: &[Vec<u8>],
    more: &[Vec<u8>],
) -> Result<Vec<u8>, Fail>
    requires settings { IsBatch settings.now }
    requires batches { AllBatches batches.now }
    requires more { AllBatches more.now }
{
    let disk = filled(Memory::new(alloc), b"")?;
    let machine = Machine { disk, calls };
    let first = LogRun {
        answers: Echo,
        batches,
    };
    let again = LogRun {
        answers: Echo,
        batches: more,
    };
    Ok(run_twice(alloc, machine, settings, first, again)?.told)
}

/// Returns how many batches of the first run these replies show, if they are right.
fn standing(told: &[u8]) -> Option<usize> {
    TOLD.iter().position(|front| *front == told)
}

/// Checks that each line is answered once, and that a later stop leaves no fewer batches, in the
/// end all.
fn say_each_line_once(
    rt: &(impl Abort + AllocGlobal),
    settings: &[u8],
    batches: &[Vec<u8>],
    more: &[Vec<u8>],
) -> Result<(), Fail>
    requires settings { IsBatch settings.now }
    requires batches { AllBatches batches.now }
    requires more { AllBatches more.now }
{
    let mut longest = 0;
    for calls in 0..40 {
        let told = told(rt.alloc(), calls, settings, batches, more)?;
        let stand = standing(&told);
        same_at(rt, calls, stand.is_some_and(|stand| stand >= longest), true);
        longest = stand.unwrap_or(0);
    }
    same(rt, longest, 2);
    Ok(())
}

#[test]
fn two_runs_say_each_line_once(rt: HostRuntime) -> Result<(), Fail> {
    let settings = one(&rt, b"{\"s\":1}")?;
    let batches = first_batches(&rt)?;
    let more = last_batch(&rt)?;
    say_each_line_once(&rt, &settings, &batches, &more)
}
