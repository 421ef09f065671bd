//! Replies to a participant that funds, submits and learns outcomes.
use crate::ledger::answering::Row;
use crate::ledger::asked::ShortAsk;
use crate::ledger::cases::{Does, First, goes};
use crate::ledger::told::ExpectedReply;
use inst_base::Fault;
use inst_command::LineKind;
use inst_fixtures::End;

const FUNDS_AND_LEARNS: &[Row] = &[
    (
        ShortAsk::Investigate("T1"),
        0,
        Some(End::Accepted),
        ExpectedReply::Refused(Fault::UnknownTransfer),
    ),
    (
        ShortAsk::Fund("F1", 50_000),
        0,
        None,
        ExpectedReply::Done("F1"),
    ),
    (
        ShortAsk::Submit("T1", 1, 20_000, 1000),
        1000,
        None,
        ExpectedReply::Taken("T1", 11_000),
    ),
    (
        ShortAsk::Investigate("T1"),
        10_999,
        None,
        ExpectedReply::Pending(0, "T1"),
    ),
    (
        ShortAsk::Position,
        10_999,
        None,
        ExpectedReply::Position(50_000, 20_000, 30_000),
    ),
    (
        ShortAsk::Investigate("T1"),
        11_000,
        Some(End::Accepted),
        ExpectedReply::Decided(0, "T1", End::Accepted),
    ),
    (
        ShortAsk::Investigate("T1"),
        11_000,
        Some(End::TimedOut),
        ExpectedReply::Decided(0, "T1", End::Accepted),
    ),
    (
        ShortAsk::Investigate("T1"),
        11_000,
        None,
        ExpectedReply::Decided(0, "T1", End::Accepted),
    ),
    (
        ShortAsk::Submit("T2", 1, 20_000, 1000),
        1000,
        None,
        ExpectedReply::Taken("T2", 11_000),
    ),
    (
        ShortAsk::Submit("T3", 1, 20_000, 1000),
        1000,
        None,
        ExpectedReply::Refused(Fault::Full),
    ),
    (
        ShortAsk::Investigate("T2"),
        11_000,
        Some(End::TimedOut),
        ExpectedReply::Decided(0, "T2", End::TimedOut),
    ),
    (
        ShortAsk::Defund("D1", 5000),
        3000,
        None,
        ExpectedReply::Done("D1"),
    ),
    (
        ShortAsk::Position,
        3000,
        None,
        ExpectedReply::Position(25_000, 0, 25_000),
    ),
    (
        ShortAsk::Statement(0, 10),
        3000,
        None,
        ExpectedReply::Lines(&[
            (1, LineKind::Funded, None, "F1", 50_000, 50_000),
            (2, LineKind::Paid, Some(1), "T1", 20_000, 30_000),
            (3, LineKind::Defunded, None, "D1", 5000, 25_000),
        ]),
    ),
    (
        ShortAsk::Statement(1, 1),
        3000,
        None,
        ExpectedReply::Lines(&[(2, LineKind::Paid, Some(1), "T1", 20_000, 30_000)]),
    ),
    (
        ShortAsk::Statement(2, 10),
        3000,
        None,
        ExpectedReply::Lines(&[(3, LineKind::Defunded, None, "D1", 5000, 25_000)]),
    ),
    (
        ShortAsk::Statement(3, 10),
        3000,
        None,
        ExpectedReply::Lines(&[]),
    ),
    (
        ShortAsk::Statement(u64::MAX, 100),
        3000,
        None,
        ExpectedReply::Lines(&[]),
    ),
];

const FUNDS_AND_PAYS: &[Does] = &[
    Does::Answers(FUNDS_AND_LEARNS),
    Does::Holds((
        [6, 2, 2],
        [0, 25_000, 25_000],
        45_000,
        [20_000, 0, 0, 25_000, 25_000],
    )),
    Does::Knows("T2", (true, Some(1), [false; 2]), Some(End::TimedOut)),
];

/// A participant funds, submits, learns outcomes, defunds, and reads its statement: T1 is paid, T2
/// timed out. A decided transfer keeps its place.
#[test]
fn funds_submits_and_learns(rt: HostRuntime) -> Result<(), Fault> {
    goes(&rt, 0, First::Nothing, FUNDS_AND_PAYS)
}

const REPEATS: &[Row] = &[
    (
        ShortAsk::Fund("F1", 50_000),
        0,
        None,
        ExpectedReply::Done("F1"),
    ),
    (
        ShortAsk::Fund("F1", 50_000),
        0,
        None,
        ExpectedReply::Done("F1"),
    ),
    (
        ShortAsk::Defund("F1", 50_000),
        0,
        None,
        ExpectedReply::Refused(Fault::Duplicate),
    ),
    (
        ShortAsk::Submit("T1", 1, 20_000, 1000),
        1000,
        None,
        ExpectedReply::Taken("T1", 11_000),
    ),
    (
        ShortAsk::Submit("T1", 1, 20_000, 1000),
        20_000,
        None,
        ExpectedReply::Taken("T1", 11_000),
    ),
    (
        ShortAsk::Submit("T1", 1, 50_000, 1000),
        1000,
        None,
        ExpectedReply::Refused(Fault::Duplicate),
    ),
    (
        ShortAsk::Submit("T2", 1, 50_000, 1000),
        1000,
        None,
        ExpectedReply::Refused(Fault::Shortage),
    ),
    (
        ShortAsk::Position,
        1000,
        None,
        ExpectedReply::Position(50_000, 20_000, 30_000),
    ),
];

const REPEATS_ITSELF: &[Does] = &[
    Does::Answers(REPEATS),
    Does::Holds((
        [2, 1, 1],
        [20_000, 50_000, 30_000],
        50_000,
        [0, 0, 20_000, 50_000, 30_000],
    )),
    Does::Knows("T1", (true, Some(1), [false; 2]), None),
    Does::Knows("T2", (false, None, [false; 2]), None),
    Does::Knows("F1", (false, None, [false; 2]), None),
];

/// Repeats get the same replies and store nothing; duplicates and a submission of more than is
/// available are refused.
#[test]
fn repeats_its_commands(rt: HostRuntime) -> Result<(), Fault> {
    goes(&rt, 0, First::Nothing, REPEATS_ITSELF)
}

const ONE_REJECTED: &[Row] = &[
    (
        ShortAsk::Fund("F1", 500),
        1000,
        None,
        ExpectedReply::Done("F1"),
    ),
    (
        ShortAsk::Submit("T1", 1, 200, 1000),
        1000,
        None,
        ExpectedReply::Taken("T1", 11_000),
    ),
    (
        ShortAsk::Submit("T2", 1, 100, 1000),
        1000,
        None,
        ExpectedReply::Taken("T2", 11_000),
    ),
    (
        ShortAsk::Investigate("T2"),
        1000,
        Some(End::Rejected("AC04")),
        ExpectedReply::Decided(0, "T2", End::Rejected("AC04")),
    ),
    (
        ShortAsk::Investigate("T1"),
        1000,
        Some(End::Accepted),
        ExpectedReply::Decided(0, "T1", End::Accepted),
    ),
    (
        ShortAsk::Defund("G1", 100),
        1000,
        None,
        ExpectedReply::Done("G1"),
    ),
    (
        ShortAsk::Statement(0, 10),
        1000,
        None,
        ExpectedReply::Lines(&[
            (1, LineKind::Funded, None, "F1", 500, 500),
            (2, LineKind::Paid, Some(1), "T1", 200, 300),
            (3, LineKind::Defunded, None, "G1", 100, 200),
        ]),
    ),
    (
        ShortAsk::Statement(0, 1),
        1000,
        None,
        ExpectedReply::Lines(&[(1, LineKind::Funded, None, "F1", 500, 500)]),
    ),
];

const IS_REJECTED: &[Does] = &[Does::Answers(ONE_REJECTED), Does::Keeps(6)];

/// A rejected transfer has no statement line.
#[test]
fn pays_and_is_rejected(rt: HostRuntime) -> Result<(), Fault> {
    goes(&rt, 0, First::Nothing, IS_REJECTED)
}
