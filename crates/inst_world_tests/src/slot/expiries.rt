//! A transfer times out.
use crate::slot::answers::ExpectedResult;
use crate::slot::cases::{Case, Does, comes};
use crate::slot::histories::ShortEvent;
use inst_base::Fault;
use inst_fixtures::End;
use std::test::Fail;

const EXPIRE_BEFORE_CONFIRM: Case = Case {
    margin: 0,
    rows: &[
        (1, Does::Deliver(0, 0), 0, ExpectedResult::New(true)),
        (0, Does::Expire(0), 10_999, ExpectedResult::New(false)),
        (0, Does::Expire(0), 11_000, ExpectedResult::New(true)),
        (
            1,
            Does::Confirm(0, "T1"),
            10_999,
            ExpectedResult::Decided(End::TimedOut),
        ),
    ],
    histories: [
        &[
            ShortEvent::Funded("F1", 50_000),
            ShortEvent::Taken("T1", 1, 20_000, 1000),
            ShortEvent::Booked(0, "T1", End::TimedOut),
        ],
        &[
            ShortEvent::Forwarded(0, "T1", 20_000, 11_000),
            ShortEvent::Booked(0, "T1", End::TimedOut),
        ],
        &[],
    ],
};

#[test]
fn expire_before_confirm(rt: HostRuntime) -> Result<(), Fail> {
    comes(&rt, &EXPIRE_BEFORE_CONFIRM)
}

const EXPIRED_BEFORE_DELIVERY: Case = Case {
    margin: 0,
    rows: &[
        (0, Does::Expire(0), 11_000, ExpectedResult::New(true)),
        (1, Does::Deliver(0, 0), 0, ExpectedResult::New(false)),
        (1, Does::Learn(0, 0), 0, ExpectedResult::New(false)),
        (
            1,
            Does::Confirm(0, "T1"),
            11_000,
            ExpectedResult::Refused(Fault::UnknownTransfer),
        ),
    ],
    histories: [
        &[
            ShortEvent::Funded("F1", 50_000),
            ShortEvent::Taken("T1", 1, 20_000, 1000),
            ShortEvent::Booked(0, "T1", End::TimedOut),
        ],
        &[],
        &[],
    ],
};

#[test]
fn expired_before_delivery(rt: HostRuntime) -> Result<(), Fail> {
    comes(&rt, &EXPIRED_BEFORE_DELIVERY)
}

const INVESTIGATE_AT_THE_DEADLINE: Case = Case {
    margin: 0,
    rows: &[
        (0, Does::Investigate("T1"), 10_999, ExpectedResult::Pending),
        (
            0,
            Does::Investigate("T2"),
            10_999,
            ExpectedResult::Refused(Fault::UnknownTransfer),
        ),
        (
            1,
            Does::Investigate("T1"),
            10_999,
            ExpectedResult::Refused(Fault::UnknownTransfer),
        ),
        (
            0,
            Does::Investigate("T1"),
            11_000,
            ExpectedResult::Decided(End::TimedOut),
        ),
        (
            0,
            Does::Position,
            11_000,
            ExpectedResult::Position(50_000, 0, 50_000),
        ),
    ],
    histories: [
        &[
            ShortEvent::Funded("F1", 50_000),
            ShortEvent::Taken("T1", 1, 20_000, 1000),
            ShortEvent::Booked(0, "T1", End::TimedOut),
        ],
        &[],
        &[],
    ],
};

#[test]
fn investigate_at_the_deadline(rt: HostRuntime) -> Result<(), Fail> {
    comes(&rt, &INVESTIGATE_AT_THE_DEADLINE)
}

const DUE_ONE_AFTER_ANOTHER: Case = Case {
    margin: 0,
    rows: &[
        (
            0,
            Does::Submit("T2", 1, 200, 500),
            1000,
            ExpectedResult::Taken(10_500),
        ),
        (
            0,
            Does::DueAfter(None, Some((10_500, 1))),
            1000,
            ExpectedResult::New(true),
        ),
        (
            0,
            Does::DueAfter(Some((10_500, 1)), Some((11_000, 0))),
            1000,
            ExpectedResult::New(true),
        ),
        (0, Does::Expire(1), 10_500, ExpectedResult::New(true)),
        (
            0,
            Does::DueAfter(None, Some((11_000, 0))),
            1000,
            ExpectedResult::New(true),
        ),
        (
            0,
            Does::DueAfter(Some((11_000, 0)), None),
            1000,
            ExpectedResult::New(true),
        ),
    ],
    histories: [
        &[
            ShortEvent::Funded("F1", 50_000),
            ShortEvent::Taken("T1", 1, 20_000, 1000),
            ShortEvent::Taken("T2", 1, 200, 500),
            ShortEvent::Booked(0, "T2", End::TimedOut),
        ],
        &[],
        &[],
    ],
};

#[test]
fn due_one_after_another(rt: HostRuntime) -> Result<(), Fail> {
    comes(&rt, &DUE_ONE_AFTER_ANOTHER)
}
