//! Commands that are refused.
use crate::ledger::answering::Row;
use crate::ledger::asked::ShortAsk;
use crate::ledger::cases::{Does, First, goes};
use crate::ledger::told::ExpectedReply;
use inst_base::Fault;
use inst_fixtures::End;

const REFUSED: &[Row] = &[
    (
        ShortAsk::Fund("F1", 1000),
        0,
        None,
        ExpectedReply::Done("F1"),
    ),
    (
        ShortAsk::Submit("T1", 1, 400, 1000),
        1000,
        None,
        ExpectedReply::Taken("T1", 11_000),
    ),
    (
        ShortAsk::Submit("T1", 0, 601, 2001),
        1000,
        None,
        ExpectedReply::Refused(Fault::SelfTransfer),
    ),
    (
        ShortAsk::Investigate("T2"),
        1000,
        Some(End::Accepted),
        ExpectedReply::Refused(Fault::UnknownTransfer),
    ),
    (
        ShortAsk::Confirm(0, "T1"),
        1000,
        Some(End::Accepted),
        ExpectedReply::Refused(Fault::UnknownTransfer),
    ),
    (
        ShortAsk::Submit("T1", 1, 601, 2001),
        1000,
        None,
        ExpectedReply::Refused(Fault::Duplicate),
    ),
    (
        ShortAsk::Submit("T2", 1, 601, 2001),
        1000,
        None,
        ExpectedReply::Refused(Fault::StampAhead),
    ),
    (
        ShortAsk::Submit("T2", 1, 601, 1000),
        11_000,
        None,
        ExpectedReply::Refused(Fault::Expired),
    ),
    (
        ShortAsk::Submit("T2", 1, 601, 1000),
        10_999,
        None,
        ExpectedReply::Refused(Fault::Shortage),
    ),
    (
        ShortAsk::Submit("T2", 1, 400, 1000),
        10_999,
        None,
        ExpectedReply::Taken("T2", 11_000),
    ),
    (
        ShortAsk::Submit("T3", 1, 601, 1000),
        10_999,
        None,
        ExpectedReply::Refused(Fault::Full),
    ),
];

const IS_REFUSED: &[Does] = &[Does::Answers(REFUSED), Does::Keeps(3)];

/// Each command could be refused for several faults, and gets the first in order: all seven that a
/// participant's books can give, by number.
#[test]
fn meets_the_first_refusal(rt: HostRuntime) -> Result<(), Fault> {
    goes(&rt, 0, First::Nothing, IS_REFUSED)
}
