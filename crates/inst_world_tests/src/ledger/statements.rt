//! Parts of statements, from the ledger's lines and from a pass over the events.
use crate::ledger::answering::Row;
use crate::ledger::asked::ShortAsk;
use crate::ledger::cases::{Does, First, goes};
use crate::ledger::openings::FUNDED_AGAIN;
use crate::ledger::told::ExpectedReply;
use inst_base::Fault;
use inst_command::LineKind;
use inst_fixtures::{End, Shown};

const MOVES: &[Row] = &[
    (
        ShortAsk::Statement(0, 10),
        1000,
        None,
        ExpectedReply::Lines(&[]),
    ),
    (
        ShortAsk::Fund("F1", 500),
        1000,
        None,
        ExpectedReply::Done("F1"),
    ),
    (
        ShortAsk::Submit("T1", 2, 200, 1000),
        1000,
        None,
        ExpectedReply::Taken("T1", 11_000),
    ),
    (
        ShortAsk::Investigate("T1"),
        1000,
        Some(End::Accepted),
        ExpectedReply::Decided(1, "T1", End::Accepted),
    ),
    (
        ShortAsk::Confirm(2, "T1"),
        1000,
        Some(End::Accepted),
        ExpectedReply::Decided(2, "T1", End::Accepted),
    ),
    (
        ShortAsk::Defund("G1", 100),
        1000,
        None,
        ExpectedReply::Done("G1"),
    ),
];

const LINES: &[Shown] = &[
    (1, LineKind::Funded, None, "F1", 500, 500),
    (2, LineKind::Paid, Some(2), "T1", 200, 300),
    (3, LineKind::Received, Some(2), "T1", 300, 600),
    (4, LineKind::Defunded, None, "G1", 100, 500),
];

const PARTS: &[Row] = &[
    (
        ShortAsk::Statement(0, 10),
        1000,
        None,
        ExpectedReply::Lines(LINES),
    ),
    (
        ShortAsk::Statement(1, 2),
        1000,
        None,
        ExpectedReply::Lines(&[
            (2, LineKind::Paid, Some(2), "T1", 200, 300),
            (3, LineKind::Received, Some(2), "T1", 300, 600),
        ]),
    ),
    (
        ShortAsk::Statement(3, 10),
        1000,
        None,
        ExpectedReply::Lines(&[(4, LineKind::Defunded, None, "G1", 100, 500)]),
    ),
    (
        ShortAsk::Statement(4, 10),
        1000,
        None,
        ExpectedReply::Lines(&[]),
    ),
    (
        ShortAsk::Statement(u64::MAX, 100),
        1000,
        None,
        ExpectedReply::Lines(&[]),
    ),
];

const SHOWS_PARTS: &[Does] = &[
    Does::Answers(MOVES),
    Does::Answers(PARTS),
    Does::Walks(0, 0, &[]),
    Does::Walks(0, u32::MAX, LINES),
    Does::Walks(u64::MAX, u32::MAX, &[]),
    Does::OpensAgain,
    Does::Answers(FUNDED_AGAIN),
];

/// 500 cents are funded, 200 paid, 300 received and 100 defunded, while another transfer with the
/// same identifier is pending. Parts of the four lines are asked for; the pass also for none and
/// for more than all. After an opening the lines are numbered from 1 again, and start from the
/// position reached before.
#[test]
fn shows_what_moved_the_position(rt: HostRuntime) -> Result<(), Fault> {
    goes(&rt, 1, First::Forwarded(100, 300), SHOWS_PARTS)
}
