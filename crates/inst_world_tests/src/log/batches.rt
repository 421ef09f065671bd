//! Batches of one line or two.
ghost use Rattle.std.specs.Prelude.{◌<◌, length, IfOk, OnOk};
ghost use Rattle.inst_log.specs.Layout.{recovered_lines, IsBatch, AreWholeLines};

use inst_base::find_newline;
use inst_log::{close_batch, push_line};
use std::process::Abort;
use std::test::Fail;

/// Appends a line to a batch.
pub(crate) fn add(
    rt: &(impl Abort + AllocGlobal),
    batch: &mut Vec<u8>,
    line: &[u8],
) -> Result<(), Fail>
    requires whole { AreWholeLines batch.old.items }
    ensures whole { OnOk result (AreWholeLines batch.new.items) }
    ensures some { OnOk result (0 < length (recovered_lines batch.new.items)) }
{
    assert!(rt; find_newline(line).is_none());
    push_line(batch, line)?;
    Ok(())
}

pub(crate) fn one(rt: &(impl Abort + AllocGlobal), line: &[u8]) -> Result<Vec<u8>, Fail>
    ensures { IfOk result (λ batch. IsBatch batch.items) }
{
    let mut batch = Vec::new(rt.alloc());
    add(rt, &mut batch, line)?;
    close_batch(&mut batch)?;
    Ok(batch)
}

pub(crate) fn two(
    rt: &(impl Abort + AllocGlobal),
    first: &[u8],
    second: &[u8],
) -> Result<Vec<u8>, Fail>
    ensures { IfOk result (λ batch. IsBatch batch.items) }
{
    let mut batch = Vec::new(rt.alloc());
    add(rt, &mut batch, first)?;
    add(rt, &mut batch, second)?;
    close_batch(&mut batch)?;
    Ok(batch)
}
