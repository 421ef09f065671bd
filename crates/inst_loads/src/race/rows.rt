//! Worked rows of three slots in one thread.
use crate::race::acts::{RaceAct, step_of};
use crate::race::opening::open;
use crate::race::participant::Racer;
use crate::told::{RaceReply, tells};
use inst_base::{Fault, mention};
use inst_command::{Ask, Command, Outcome, Submission};
use std::alloc::Global;

/// The participant, its act, the clock reading in milliseconds, and the expected answer.
type Row = (u8, RaceAct, u64, RaceReply);

/// The first participant has 50,000 cents, and submits T1 of 20,000 cents to the second, which
/// receives it. The third gets nothing of it.
const SUBMITTED: &[Row] = &[
    (0, RaceAct::Fund("F1", 50_000), 0, RaceReply::Done("F1")),
    (
        0,
        RaceAct::Submit("T1", 1, 20_000, 1_000),
        1_000,
        RaceReply::Taken("T1", 11_000),
    ),
    (2, RaceAct::Deliver(0, 0), 1_000, RaceReply::New(false)),
    (2, RaceAct::Position, 1_000, RaceReply::Position(0, 0, 0)),
    (1, RaceAct::Deliver(0, 0), 1_000, RaceReply::New(true)),
];

const CONFIRMED_IN_TIME: &[Row] = &[
    (
        1,
        RaceAct::Confirm(0, "T1"),
        10_999,
        RaceReply::Accepted(0, "T1"),
    ),
    (0, RaceAct::Learn(0, 0), 10_999, RaceReply::New(true)),
    (
        0,
        RaceAct::Position,
        10_999,
        RaceReply::Position(30_000, 0, 30_000),
    ),
    (
        1,
        RaceAct::Position,
        10_999,
        RaceReply::Position(20_000, 0, 20_000),
    ),
    (2, RaceAct::Position, 10_999, RaceReply::Position(0, 0, 0)),
];

const CONFIRMED_LATE: &[Row] = &[
    (
        1,
        RaceAct::Confirm(0, "T1"),
        11_000,
        RaceReply::TimedOut(0, "T1"),
    ),
    (0, RaceAct::Learn(0, 0), 11_000, RaceReply::New(true)),
    (
        0,
        RaceAct::Position,
        11_000,
        RaceReply::Position(50_000, 0, 50_000),
    ),
    (1, RaceAct::Position, 11_000, RaceReply::Position(0, 0, 0)),
    (2, RaceAct::Position, 11_000, RaceReply::Position(0, 0, 0)),
];

const CONFIRM_BEFORE_EXPIRE: &[Row] = &[
    (
        1,
        RaceAct::Confirm(0, "T1"),
        10_999,
        RaceReply::Accepted(0, "T1"),
    ),
    (0, RaceAct::Expire(0), 11_000, RaceReply::New(true)),
    (0, RaceAct::Learn(0, 0), 11_000, RaceReply::New(false)),
    (
        0,
        RaceAct::Position,
        11_000,
        RaceReply::Position(30_000, 0, 30_000),
    ),
    (
        1,
        RaceAct::Position,
        11_000,
        RaceReply::Position(20_000, 0, 20_000),
    ),
    (2, RaceAct::Position, 11_000, RaceReply::Position(0, 0, 0)),
];

const EXPIRE_BEFORE_CONFIRM: &[Row] = &[
    (0, RaceAct::Expire(0), 11_000, RaceReply::New(true)),
    (
        1,
        RaceAct::Confirm(0, "T1"),
        10_999,
        RaceReply::TimedOut(0, "T1"),
    ),
    (
        0,
        RaceAct::Position,
        11_000,
        RaceReply::Position(50_000, 0, 50_000),
    ),
    (1, RaceAct::Position, 11_000, RaceReply::Position(0, 0, 0)),
    (2, RaceAct::Position, 11_000, RaceReply::Position(0, 0, 0)),
];

/// The worked rows with their names.
const WORKED: [(&str, &[Row]); 4] = [
    ("confirmed_in_time", CONFIRMED_IN_TIME),
    ("confirmed_late", CONFIRMED_LATE),
    ("confirm_before_expire", CONFIRM_BEFORE_EXPIRE),
    ("expire_before_confirm", EXPIRE_BEFORE_CONFIRM),
];

/// Returns `true` if the row's answer is the expected one.
fn is_answered(hub: &mut [Racer], row: &Row) -> Result<bool, Fault> {
    mention::<(Ask, Command, Submission, Outcome)>();
    let (who, does, at, told) = row;
    let step = step_of(*who, does, *at)?;
    match hub.get_mut(usize::from(*who)) {
        Some(participant) => Ok(tells(&participant.take(&step)?, *told)),
        None => Err(Fault::BadField),
    }
}

/// Returns `true` if all rows have the expected answers; stops at the first that hasn't.
fn are_answered(hub: &mut [Racer], rows: &[Row]) -> Result<bool, Fault> {
    for row in rows {
        if !is_answered(hub, row)? {
            return Ok(false);
        }
    }
    Ok(true)
}

/// Returns `true` if these rows have the expected answers after T1 was submitted.
fn comes(alloc: Global, rows: &[Row]) -> Result<bool, Fault> {
    let mut hub = open(alloc, 2, 0)?;
    Ok(are_answered(&mut hub, SUBMITTED)? && are_answered(&mut hub, rows)?)
}

/// Returns the name of the first worked row with another answer, if there is one.
pub(crate) fn failed(alloc: Global) -> Option<&'static str> {
    for (name, rows) in WORKED {
        if comes(alloc, rows) != Ok(true) {
            return Some(name);
        }
    }
    None
}
