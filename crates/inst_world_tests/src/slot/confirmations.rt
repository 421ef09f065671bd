//! A transfer is confirmed or rejected, and both sides book it.
use crate::slot::answers::ExpectedResult;
use crate::slot::cases::{Case, Does, comes};
use crate::slot::histories::ShortEvent;
use inst_base::Fault;
use inst_fixtures::End;
use std::test::Fail;

const CONFIRMED_BEFORE_EXPIRE: Case = Case {
    margin: 0,
    rows: &[
        (1, Does::Deliver(0, 0), 0, ExpectedResult::New(true)),
        (
            1,
            Does::Confirm(0, "T1"),
            10_999,
            ExpectedResult::Decided(End::Accepted),
        ),
        (
            0,
            Does::Position,
            10_999,
            ExpectedResult::Position(50_000, 20_000, 30_000),
        ),
        (
            1,
            Does::Position,
            10_999,
            ExpectedResult::Position(20_000, 0, 20_000),
        ),
        (0, Does::Expire(0), 11_000, ExpectedResult::New(true)),
        (0, Does::Learn(0, 0), 0, ExpectedResult::New(false)),
        (1, Does::Learn(0, 0), 0, ExpectedResult::New(false)),
        (0, Does::Expire(0), 11_000, ExpectedResult::New(false)),
        (
            0,
            Does::Position,
            11_000,
            ExpectedResult::Position(30_000, 0, 30_000),
        ),
        (
            1,
            Does::Confirm(0, "T1"),
            12_000,
            ExpectedResult::Decided(End::Accepted),
        ),
        (
            1,
            Does::Reject(0, "T1", "AC04"),
            12_000,
            ExpectedResult::Decided(End::Accepted),
        ),
        (
            0,
            Does::Investigate("T1"),
            12_000,
            ExpectedResult::Decided(End::Accepted),
        ),
    ],
    histories: [
        &[
            ShortEvent::Funded("F1", 50_000),
            ShortEvent::Taken("T1", 1, 20_000, 1000),
            ShortEvent::Booked(0, "T1", End::Accepted),
        ],
        &[
            ShortEvent::Forwarded(0, "T1", 20_000, 11_000),
            ShortEvent::Booked(0, "T1", End::Accepted),
        ],
        &[],
    ],
};

#[test]
fn confirmed_before_expire(rt: HostRuntime) -> Result<(), Fail> {
    comes(&rt, &CONFIRMED_BEFORE_EXPIRE)
}

const CONFIRMED_LATE: Case = Case {
    margin: 0,
    rows: &[
        (1, Does::Deliver(0, 0), 0, ExpectedResult::New(true)),
        (
            1,
            Does::Confirm(0, "T1"),
            11_000,
            ExpectedResult::Decided(End::TimedOut),
        ),
        (0, Does::Learn(0, 0), 0, ExpectedResult::New(true)),
        (
            0,
            Does::Position,
            11_000,
            ExpectedResult::Position(50_000, 0, 50_000),
        ),
        (1, Does::Position, 11_000, ExpectedResult::Position(0, 0, 0)),
    ],
    histories: [
        &[
            ShortEvent::Funded("F1", 50_000),
            ShortEvent::Taken("T1", 1, 20_000, 1000),
            ShortEvent::Booked(0, "T1", End::TimedOut),
        ],
        &[
            ShortEvent::Forwarded(0, "T1", 20_000, 11_000),
            ShortEvent::Booked(0, "T1", End::TimedOut),
        ],
        &[],
    ],
};

#[test]
fn confirmed_late(rt: HostRuntime) -> Result<(), Fail> {
    comes(&rt, &CONFIRMED_LATE)
}

const UNTOLD_THEN_LEARNT: Case = Case {
    margin: 0,
    rows: &[
        (1, Does::Deliver(0, 0), 0, ExpectedResult::New(true)),
        (
            1,
            Does::Confirm(0, "T1"),
            2000,
            ExpectedResult::Decided(End::Accepted),
        ),
        (
            0,
            Does::Position,
            2000,
            ExpectedResult::Position(50_000, 20_000, 30_000),
        ),
        (
            1,
            Does::Position,
            2000,
            ExpectedResult::Position(20_000, 0, 20_000),
        ),
        (0, Does::Learn(0, 0), 0, ExpectedResult::New(true)),
        (
            0,
            Does::Position,
            2000,
            ExpectedResult::Position(30_000, 0, 30_000),
        ),
    ],
    histories: [
        &[
            ShortEvent::Funded("F1", 50_000),
            ShortEvent::Taken("T1", 1, 20_000, 1000),
            ShortEvent::Booked(0, "T1", End::Accepted),
        ],
        &[
            ShortEvent::Forwarded(0, "T1", 20_000, 11_000),
            ShortEvent::Booked(0, "T1", End::Accepted),
        ],
        &[],
    ],
};

#[test]
fn untold_then_learnt(rt: HostRuntime) -> Result<(), Fail> {
    comes(&rt, &UNTOLD_THEN_LEARNT)
}

const REJECTED_WITH_REASON: Case = Case {
    margin: 0,
    rows: &[
        (1, Does::Deliver(0, 0), 0, ExpectedResult::New(true)),
        (
            1,
            Does::Reject(0, "T1", "AC04"),
            2000,
            ExpectedResult::Decided(End::Rejected("AC04")),
        ),
        (
            0,
            Does::Investigate("T1"),
            2100,
            ExpectedResult::Decided(End::Rejected("AC04")),
        ),
        (
            1,
            Does::Confirm(0, "T1"),
            2200,
            ExpectedResult::Decided(End::Rejected("AC04")),
        ),
        (
            0,
            Does::Position,
            2200,
            ExpectedResult::Position(50_000, 0, 50_000),
        ),
    ],
    histories: [
        &[
            ShortEvent::Funded("F1", 50_000),
            ShortEvent::Taken("T1", 1, 20_000, 1000),
            ShortEvent::Booked(0, "T1", End::Rejected("AC04")),
        ],
        &[
            ShortEvent::Forwarded(0, "T1", 20_000, 11_000),
            ShortEvent::Booked(0, "T1", End::Rejected("AC04")),
        ],
        &[],
    ],
};

#[test]
fn rejected_with_reason(rt: HostRuntime) -> Result<(), Fail> {
    comes(&rt, &REJECTED_WITH_REASON)
}

const CONFIRMED_IN_THE_MARGIN: Case = Case {
    margin: 2000,
    rows: &[
        (1, Does::Deliver(0, 0), 0, ExpectedResult::New(true)),
        (
            1,
            Does::Confirm(0, "T1"),
            9000,
            ExpectedResult::Refused(Fault::Expired),
        ),
        (
            0,
            Does::Position,
            9000,
            ExpectedResult::Position(50_000, 20_000, 30_000),
        ),
        (
            1,
            Does::Reject(0, "T1", "AC04"),
            10_999,
            ExpectedResult::Decided(End::Rejected("AC04")),
        ),
        (
            1,
            Does::Confirm(0, "T1"),
            9000,
            ExpectedResult::Decided(End::Rejected("AC04")),
        ),
    ],
    histories: [
        &[
            ShortEvent::Funded("F1", 50_000),
            ShortEvent::Taken("T1", 1, 20_000, 1000),
        ],
        &[
            ShortEvent::Forwarded(0, "T1", 20_000, 11_000),
            ShortEvent::Booked(0, "T1", End::Rejected("AC04")),
        ],
        &[],
    ],
};

#[test]
fn confirmed_in_the_margin(rt: HostRuntime) -> Result<(), Fail> {
    comes(&rt, &CONFIRMED_IN_THE_MARGIN)
}
