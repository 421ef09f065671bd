//! Replies to a participant that transfers were forwarded to.
use crate::ledger::answering::Row;
use crate::ledger::asked::ShortAsk;
use crate::ledger::cases::{Does, First, goes};
use crate::ledger::told::ExpectedReply;
use inst_base::Fault;
use inst_command::LineKind;
use inst_fixtures::End;

const FETCHES: &[Row] = &[
    (
        ShortAsk::Fetch(1),
        1000,
        None,
        ExpectedReply::Inbox(&[(0, "T1", 20_000, 11_000)]),
    ),
    (
        ShortAsk::Fetch(9),
        1000,
        None,
        ExpectedReply::Inbox(&[(2, "T1", 20_000, 11_000)]),
    ),
    (ShortAsk::Fetch(1), 1000, None, ExpectedReply::Inbox(&[])),
];

const UNKNOWN: &[Row] = &[
    (
        ShortAsk::Confirm(0, "D2"),
        2000,
        Some(End::Accepted),
        ExpectedReply::Refused(Fault::UnknownTransfer),
    ),
    (
        ShortAsk::Confirm(1, "T1"),
        2000,
        Some(End::Accepted),
        ExpectedReply::Refused(Fault::UnknownTransfer),
    ),
    (
        ShortAsk::Confirm(0, "T1"),
        2000,
        None,
        ExpectedReply::Refused(Fault::Expired),
    ),
    (
        ShortAsk::Reject(2, "T1", "AC04"),
        2000,
        None,
        ExpectedReply::Pending(2, "T1"),
    ),
    (
        ShortAsk::Position,
        2000,
        None,
        ExpectedReply::Position(0, 0, 0),
    ),
];

const CONFIRMS_AND_REJECTS: &[Row] = &[
    (
        ShortAsk::Confirm(0, "T1"),
        2000,
        Some(End::Accepted),
        ExpectedReply::Decided(0, "T1", End::Accepted),
    ),
    (
        ShortAsk::Confirm(0, "T1"),
        11_000,
        Some(End::TimedOut),
        ExpectedReply::Decided(0, "T1", End::Accepted),
    ),
    (
        ShortAsk::Confirm(0, "T1"),
        11_000,
        None,
        ExpectedReply::Decided(0, "T1", End::Accepted),
    ),
    (
        ShortAsk::Reject(2, "T1", "AC04"),
        2000,
        Some(End::Rejected("AC04")),
        ExpectedReply::Decided(2, "T1", End::Rejected("AC04")),
    ),
    (
        ShortAsk::Reject(2, "T1", "AC04"),
        2100,
        None,
        ExpectedReply::Decided(2, "T1", End::Rejected("AC04")),
    ),
    (
        ShortAsk::Confirm(2, "T1"),
        2200,
        Some(End::Accepted),
        ExpectedReply::Decided(2, "T1", End::Rejected("AC04")),
    ),
    (
        ShortAsk::Position,
        2200,
        None,
        ExpectedReply::Position(20_000, 0, 20_000),
    ),
    (
        ShortAsk::Defund("D2", 20_000),
        3000,
        None,
        ExpectedReply::Done("D2"),
    ),
    (
        ShortAsk::Position,
        3000,
        None,
        ExpectedReply::Position(0, 0, 0),
    ),
    (
        ShortAsk::Statement(0, 10),
        3000,
        None,
        ExpectedReply::Lines(&[
            (1, LineKind::Received, Some(0), "T1", 20_000, 20_000),
            (2, LineKind::Defunded, None, "D2", 20_000, 0),
        ]),
    ),
];

const FETCHES_AND_DECIDES: &[Does] = &[
    Does::Answers(FETCHES),
    Does::Keeps(4),
    Does::Answers(UNKNOWN),
    Does::Answers(CONFIRMS_AND_REJECTS),
    Does::Holds(([7, 1, 0], [0, 0, 0], -20_000, [0, 20_000, 0, 0, 0])),
    Does::Knows("T1", (false, None, [true, false]), Some(End::Accepted)),
];

/// A beneficiary fetches, confirms and rejects, defunds what it received, and reads its statement.
/// T1 came from participant 0; none came from participant 1.
#[test]
fn fetches_confirms_and_rejects(rt: HostRuntime) -> Result<(), Fault> {
    goes(
        &rt,
        1,
        First::Forwarded(20_000, 20_000),
        FETCHES_AND_DECIDES,
    )
}

const RECEIVES_BOTH: &[Row] = &[
    (
        ShortAsk::Confirm(2, "T1"),
        1000,
        Some(End::Accepted),
        ExpectedReply::Decided(2, "T1", End::Accepted),
    ),
    (
        ShortAsk::Confirm(0, "T1"),
        1000,
        Some(End::Accepted),
        ExpectedReply::Decided(0, "T1", End::Accepted),
    ),
    (
        ShortAsk::Statement(0, 10),
        1000,
        None,
        ExpectedReply::Lines(&[
            (1, LineKind::Received, Some(2), "T1", 300, 300),
            (2, LineKind::Received, Some(0), "T1", 100, 400),
        ]),
    ),
];

const RECEIVES: &[Does] = &[Does::Answers(RECEIVES_BOTH)];

/// Two transfers with the same identifier from two originators: each statement line has its own
/// amount.
#[test]
fn receives_two_of_one_name(rt: HostRuntime) -> Result<(), Fault> {
    goes(&rt, 1, First::Forwarded(100, 300), RECEIVES)
}
