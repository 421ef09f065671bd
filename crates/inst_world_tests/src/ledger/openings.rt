//! Books that are opened again: they keep the money and the keys, and begin a new statement.
use crate::ledger::answering::Row;
use crate::ledger::asked::ShortAsk;
use crate::ledger::cases::{Does, First, goes};
use crate::ledger::told::ExpectedReply;
use inst_base::Fault;
use inst_command::LineKind;
use inst_fixtures::End;

const GOES_ON: &[Row] = &[
    (
        ShortAsk::Fetch(9),
        1000,
        None,
        ExpectedReply::Inbox(&[(0, "T1", 20_000, 11_000), (2, "T1", 20_000, 11_000)]),
    ),
    (
        ShortAsk::Confirm(0, "T1"),
        1000,
        Some(End::Accepted),
        ExpectedReply::Decided(0, "T1", End::Accepted),
    ),
    (
        ShortAsk::Position,
        1000,
        None,
        ExpectedReply::Position(20_000, 0, 20_000),
    ),
    (
        ShortAsk::Statement(0, 10),
        1000,
        None,
        ExpectedReply::Lines(&[(1, LineKind::Received, Some(0), "T1", 20_000, 20_000)]),
    ),
];

const OPENS_AND_GOES_ON: &[Does] = &[Does::OpensAgain, Does::Answers(GOES_ON)];

/// A transfer that was forwarded before an opening is fetched and confirmed after it.
#[test]
fn goes_on_after_an_opening(rt: HostRuntime) -> Result<(), Fault> {
    goes(&rt, 1, First::Forwarded(20_000, 20_000), OPENS_AND_GOES_ON)
}

const FUNDED: &[Row] = &[(
    ShortAsk::Fund("F1", 500),
    0,
    None,
    ExpectedReply::Done("F1"),
)];

/// 500 cents before an opening and 300 after it give one statement line.
pub(crate) const FUNDED_AGAIN: &[Row] = &[
    (
        ShortAsk::Statement(0, 10),
        1000,
        None,
        ExpectedReply::Lines(&[]),
    ),
    (
        ShortAsk::Fund("F2", 300),
        1000,
        None,
        ExpectedReply::Done("F2"),
    ),
    (
        ShortAsk::Statement(0, 10),
        1000,
        None,
        ExpectedReply::Lines(&[(1, LineKind::Funded, None, "F2", 300, 800)]),
    ),
];

const OPENS_AND_FUNDS: &[Does] = &[
    Does::Answers(FUNDED),
    Does::OpensAgain,
    Does::Answers(FUNDED_AGAIN),
];

/// After an opening the lines are numbered from 1 again, and start from the position reached
/// before.
#[test]
fn begins_a_new_statement(rt: HostRuntime) -> Result<(), Fault> {
    goes(&rt, 0, First::Nothing, OPENS_AND_FUNDS)
}

#[test]
fn reserves_and_keeps(rt: HostRuntime) -> Result<(), Fault> {
    goes(&rt, 2, First::Opened, &[Does::Keeps(1)])
}
