//! Pairs of a deadline and a place, in order.
use crate::comparing::same_at;
use inst_base::{Fault, Moment};
use inst_due::Due;
use std::process::Abort;

fn moment(ms: u64) -> Result<Moment, Fault> {
    Moment::new(0, ms)
}

/// A deadline in milliseconds, and a place.
type Pair = (u64, u16);

fn pair_of(pair: Option<Pair>) -> Result<Option<(Moment, u16)>, Fault> {
    match pair {
        Some((ms, index)) => Ok(Some((moment(ms)?, index))),
        None => Ok(None),
    }
}

/// Adds the pairs.
fn add_all(due: &mut Due, pairs: &[Pair]) -> Result<(), Fault> {
    for &(ms, index) in pairs {
        due.add(moment(ms)?, index)?;
    }
    Ok(())
}

/// Checks that this pair is the first that is due at `at`.
fn is_first_due(rt: &impl Abort, due: &Due, at: u64, pair: Option<Pair>) -> Result<(), Fault> {
    same_at(rt, at, due.first_due(moment(at)?), pair_of(pair)?);
    Ok(())
}

/// Checks that this pair comes after `last`.
fn is_next(
    rt: &impl Abort,
    due: &Due,
    last: Option<Pair>,
    pair: Option<Pair>,
) -> Result<(), Fault> {
    same_at(rt, last, due.next_after(pair_of(last)?), pair_of(pair)?);
    Ok(())
}

/// Checks that the pairs come in this order, and no other follows.
fn come_in_order(rt: &impl Abort, due: &Due, pairs: &[Pair]) -> Result<(), Fault> {
    let mut last = None;
    for pair in pairs {
        is_next(rt, due, last, Some(*pair))?;
        last = Some(*pair);
    }
    is_next(rt, due, last, None)
}

/// Checks that the pairs of the earlier deadline come first, by place.
fn come_by_deadline(rt: &impl Abort, due: &mut Due) -> Result<(), Fault> {
    add_all(due, &[(12_000, 0), (11_000, 2), (11_000, 1), (11_000, 1)])?;
    is_first_due(rt, due, 10_999, None)?;
    is_first_due(rt, due, 11_000, Some((11_000, 1)))?;
    is_next(rt, due, Some((11_000, 0)), Some((11_000, 1)))?;
    come_in_order(rt, due, &[(11_000, 1), (11_000, 2), (12_000, 0)])
}

#[test]
fn pairs_come_by_deadline_and_then_by_place(rt: HostRuntime) -> Result<(), Fault> {
    let mut due = Due::new(rt.alloc());
    come_by_deadline(&rt, &mut due)
}

/// Removes the pair, and checks whether it was there.
fn takes_out(
    rt: &impl Abort,
    due: &mut Due,
    (ms, index): Pair,
    is_there: bool,
) -> Result<(), Fault> {
    same_at(rt, (ms, index), due.take_out(moment(ms)?, index), is_there);
    Ok(())
}

/// Checks that a pair is removed once, and the next one is due then.
fn takes_out_once(rt: &impl Abort, due: &mut Due) -> Result<(), Fault> {
    add_all(due, &[(11_000, 0), (12_000, 1)])?;
    takes_out(rt, due, (11_000, 1), false)?;
    takes_out(rt, due, (11_000, 0), true)?;
    takes_out(rt, due, (11_000, 0), false)?;
    is_first_due(rt, due, 11_000, None)?;
    is_first_due(rt, due, 12_000, Some((12_000, 1)))
}

#[test]
fn what_is_taken_out_is_gone(rt: HostRuntime) -> Result<(), Fault> {
    let mut due = Due::new(rt.alloc());
    takes_out_once(&rt, &mut due)
}
