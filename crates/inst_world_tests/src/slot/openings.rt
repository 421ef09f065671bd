//! Slots that open again from the books of a hub.
use crate::slot::answers::ExpectedResult;
use crate::slot::cases::{Case, Does, comes_again};
use crate::slot::histories::ShortEvent;
use inst_base::Fault;
use inst_command::LineKind;
use inst_fixtures::End;
use std::test::Fail;

/// T1 is settled, and T2 is pending.
const ONE_SETTLED: Case = Case {
    margin: 0,
    rows: &[
        (
            0,
            Does::Submit("T2", 1, 200, 1500),
            1500,
            ExpectedResult::Taken(11_500),
        ),
        (1, Does::Deliver(0, 0), 0, ExpectedResult::New(true)),
        (1, Does::Deliver(0, 1), 0, ExpectedResult::New(true)),
        (1, Does::Fetch(1), 1600, ExpectedResult::Inbox(&["T1"])),
        (
            1,
            Does::Confirm(0, "T1"),
            2000,
            ExpectedResult::Decided(End::Accepted),
        ),
        (0, Does::Learn(0, 0), 0, ExpectedResult::New(true)),
    ],
    histories: [
        &[
            ShortEvent::Funded("F1", 50_000),
            ShortEvent::Taken("T1", 1, 20_000, 1000),
            ShortEvent::Taken("T2", 1, 200, 1500),
            ShortEvent::Booked(0, "T1", End::Accepted),
        ],
        &[
            ShortEvent::Forwarded(0, "T1", 20_000, 11_000),
            ShortEvent::Forwarded(0, "T2", 200, 11_500),
            ShortEvent::Fetched(1),
            ShortEvent::Booked(0, "T1", End::Accepted),
        ],
        &[],
    ],
};

const CARRIED_AND_ADOPTED: Case = Case {
    margin: 0,
    rows: &[
        (1, Does::Misses(1), 0, ExpectedResult::New(true)),
        (1, Does::Adopt(0, 1), 0, ExpectedResult::New(false)),
        (1, Does::Adopt(2, 0), 0, ExpectedResult::New(false)),
        (2, Does::Adopt(0, 0), 0, ExpectedResult::New(false)),
        (0, Does::Adopt(0, 0), 0, ExpectedResult::New(false)),
        (1, Does::UnbookedFrom(0, None), 0, ExpectedResult::New(true)),
        (1, Does::Adopt(0, 0), 0, ExpectedResult::New(true)),
        (
            1,
            Does::UnbookedFrom(0, Some((0, 0))),
            0,
            ExpectedResult::New(true),
        ),
        (1, Does::Adopt(0, 0), 0, ExpectedResult::New(false)),
        (1, Does::Misses(0), 0, ExpectedResult::New(true)),
        (1, Does::Deliver(0, 0), 0, ExpectedResult::New(false)),
        (
            0,
            Does::DueAfter(None, Some((11_500, 0))),
            0,
            ExpectedResult::New(true),
        ),
        (
            0,
            Does::Position,
            3000,
            ExpectedResult::Position(30_000, 200, 29_800),
        ),
        (
            1,
            Does::Position,
            3000,
            ExpectedResult::Position(20_000, 0, 20_000),
        ),
        (1, Does::Fetch(9), 3000, ExpectedResult::Inbox(&["T2"])),
        (
            1,
            Does::Confirm(0, "T2"),
            3000,
            ExpectedResult::Decided(End::Accepted),
        ),
        (
            1,
            Does::Position,
            3000,
            ExpectedResult::Position(20_200, 0, 20_200),
        ),
        (
            0,
            Does::Position,
            3000,
            ExpectedResult::Position(30_000, 200, 29_800),
        ),
        (0, Does::Learn(0, 0), 0, ExpectedResult::New(true)),
        (
            0,
            Does::Position,
            3000,
            ExpectedResult::Position(29_800, 0, 29_800),
        ),
        (
            0,
            Does::Statement,
            3000,
            ExpectedResult::Lines(&[(1, LineKind::Paid, 29_800)]),
        ),
        (
            1,
            Does::Statement,
            3000,
            ExpectedResult::Lines(&[(1, LineKind::Received, 20_200)]),
        ),
        (2, Does::Statement, 3000, ExpectedResult::Lines(&[])),
    ],
    histories: [
        &[
            ShortEvent::Funded("F1", 50_000),
            ShortEvent::Taken("T1", 1, 20_000, 1000),
            ShortEvent::Taken("T2", 1, 200, 1500),
            ShortEvent::Booked(0, "T1", End::Accepted),
            ShortEvent::Opened,
            ShortEvent::Booked(0, "T2", End::Accepted),
        ],
        &[
            ShortEvent::Forwarded(0, "T1", 20_000, 11_000),
            ShortEvent::Forwarded(0, "T2", 200, 11_500),
            ShortEvent::Fetched(1),
            ShortEvent::Booked(0, "T1", End::Accepted),
            ShortEvent::Opened,
            ShortEvent::Fetched(1),
            ShortEvent::Booked(0, "T2", End::Accepted),
        ],
        &[ShortEvent::Opened],
    ],
};

#[test]
fn carried_and_adopted(rt: HostRuntime) -> Result<(), Fail> {
    comes_again(&rt, &ONE_SETTLED, false, &CARRIED_AND_ADOPTED)
}

/// The place of the settled transfer is free again, and a repeat of it takes none.
const PLACES_GIVEN_BACK: Case = Case {
    margin: 0,
    rows: &[
        (0, Does::TellPlace("T1"), 0, ExpectedResult::New(false)),
        (0, Does::Pays("T1", Some(1)), 0, ExpectedResult::New(true)),
        (0, Does::TellPlace("T2"), 0, ExpectedResult::New(true)),
        (
            0,
            Does::Submit("T3", 1, 300, 3000),
            3000,
            ExpectedResult::Taken(13_000),
        ),
        (
            0,
            Does::Submit("T4", 1, 300, 3000),
            3000,
            ExpectedResult::Refused(Fault::Full),
        ),
        (
            0,
            Does::Submit("T1", 1, 20_000, 1000),
            3000,
            ExpectedResult::Taken(11_000),
        ),
        (
            0,
            Does::Investigate("T1"),
            3000,
            ExpectedResult::Decided(End::Accepted),
        ),
        (0, Does::Fund("F1", 50_000), 3000, ExpectedResult::Done),
        (0, Does::Expire(0), 11_500, ExpectedResult::New(true)),
        (0, Does::Expire(1), 11_500, ExpectedResult::New(false)),
        (
            0,
            Does::Position,
            11_500,
            ExpectedResult::Position(30_000, 300, 29_700),
        ),
        (1, Does::Learn(0, 0), 0, ExpectedResult::New(false)),
        (1, Does::Adopt(0, 0), 0, ExpectedResult::New(false)),
    ],
    histories: [
        &[
            ShortEvent::Funded("F1", 50_000),
            ShortEvent::Taken("T1", 1, 20_000, 1000),
            ShortEvent::Taken("T2", 1, 200, 1500),
            ShortEvent::Booked(0, "T1", End::Accepted),
            ShortEvent::Opened,
            ShortEvent::Taken("T3", 1, 300, 3000),
            ShortEvent::Booked(0, "T2", End::TimedOut),
        ],
        &[
            ShortEvent::Forwarded(0, "T1", 20_000, 11_000),
            ShortEvent::Forwarded(0, "T2", 200, 11_500),
            ShortEvent::Fetched(1),
            ShortEvent::Booked(0, "T1", End::Accepted),
            ShortEvent::Opened,
        ],
        &[ShortEvent::Opened],
    ],
};

#[test]
fn places_given_back(rt: HostRuntime) -> Result<(), Fail> {
    comes_again(&rt, &ONE_SETTLED, false, &PLACES_GIVEN_BACK)
}

/// T1 and T2 are pending.
const BOTH_PENDING: Case = Case {
    margin: 0,
    rows: &[
        (
            0,
            Does::Submit("T2", 1, 200, 1500),
            1500,
            ExpectedResult::Taken(11_500),
        ),
        (1, Does::Deliver(0, 0), 0, ExpectedResult::New(true)),
        (1, Does::Deliver(0, 1), 0, ExpectedResult::New(true)),
    ],
    histories: [
        &[
            ShortEvent::Funded("F1", 50_000),
            ShortEvent::Taken("T1", 1, 20_000, 1000),
            ShortEvent::Taken("T2", 1, 200, 1500),
        ],
        &[
            ShortEvent::Forwarded(0, "T1", 20_000, 11_000),
            ShortEvent::Forwarded(0, "T2", 200, 11_500),
        ],
        &[],
    ],
};

/// Places of transfers with these identifiers, but with another amount and another deadline.
const OTHER_TERMS: Case = Case {
    margin: 0,
    rows: &[
        (0, Does::Fund("F1", 50_000), 0, ExpectedResult::Done),
        (
            0,
            Does::Submit("T1", 1, 20_001, 1000),
            1500,
            ExpectedResult::Taken(11_000),
        ),
        (
            0,
            Does::Submit("T2", 1, 200, 1501),
            1501,
            ExpectedResult::Taken(11_501),
        ),
        (1, Does::Misses(2), 0, ExpectedResult::New(true)),
        (1, Does::Adopt(0, 0), 0, ExpectedResult::New(false)),
        (1, Does::Adopt(0, 1), 0, ExpectedResult::New(false)),
        (1, Does::Misses(2), 0, ExpectedResult::New(true)),
    ],
    histories: [
        &[
            ShortEvent::Opened,
            ShortEvent::Funded("F1", 50_000),
            ShortEvent::Taken("T1", 1, 20_001, 1000),
            ShortEvent::Taken("T2", 1, 200, 1501),
        ],
        &[
            ShortEvent::Forwarded(0, "T1", 20_000, 11_000),
            ShortEvent::Forwarded(0, "T2", 200, 11_500),
            ShortEvent::Opened,
        ],
        &[ShortEvent::Opened],
    ],
};

#[test]
fn other_terms(rt: HostRuntime) -> Result<(), Fail> {
    comes_again(&rt, &BOTH_PENDING, true, &OTHER_TERMS)
}

/// The places of the same transfers are found in any order.
const SAME_TERMS: Case = Case {
    margin: 0,
    rows: &[
        (0, Does::Fund("F1", 50_000), 0, ExpectedResult::Done),
        (
            0,
            Does::Submit("T2", 1, 200, 1500),
            1501,
            ExpectedResult::Taken(11_500),
        ),
        (
            0,
            Does::Submit("T1", 1, 20_000, 1000),
            1501,
            ExpectedResult::Taken(11_000),
        ),
        (1, Does::Adopt(0, 1), 0, ExpectedResult::New(true)),
        (1, Does::Misses(1), 0, ExpectedResult::New(true)),
        (1, Does::Adopt(0, 1), 0, ExpectedResult::New(false)),
        (1, Does::Adopt(0, 0), 0, ExpectedResult::New(true)),
        (
            1,
            Does::Reject(0, "T2", "AC04"),
            2000,
            ExpectedResult::Decided(End::Rejected("AC04")),
        ),
        (0, Does::Learn(0, 0), 0, ExpectedResult::New(true)),
        (0, Does::Learn(0, 1), 0, ExpectedResult::New(false)),
    ],
    histories: [
        &[
            ShortEvent::Opened,
            ShortEvent::Funded("F1", 50_000),
            ShortEvent::Taken("T2", 1, 200, 1500),
            ShortEvent::Taken("T1", 1, 20_000, 1000),
            ShortEvent::Booked(0, "T2", End::Rejected("AC04")),
        ],
        &[
            ShortEvent::Forwarded(0, "T1", 20_000, 11_000),
            ShortEvent::Forwarded(0, "T2", 200, 11_500),
            ShortEvent::Opened,
            ShortEvent::Booked(0, "T2", End::Rejected("AC04")),
        ],
        &[ShortEvent::Opened],
    ],
};

#[test]
fn same_terms(rt: HostRuntime) -> Result<(), Fail> {
    comes_again(&rt, &BOTH_PENDING, true, &SAME_TERMS)
}
