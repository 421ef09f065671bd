//! The places of transfers, and what is delivered from them.
use crate::slot::answers::ExpectedResult;
use crate::slot::cases::{Case, Does, comes};
use crate::slot::histories::ShortEvent;
use inst_base::Fault;
use inst_fixtures::End;
use std::test::Fail;

const WRONG_DELIVERIES: Case = Case {
    margin: 0,
    rows: &[
        (1, Does::Deliver(0, 0), 0, ExpectedResult::New(true)),
        (1, Does::Deliver(0, 0), 0, ExpectedResult::New(false)),
        (2, Does::Deliver(0, 0), 0, ExpectedResult::New(false)),
        (0, Does::Deliver(0, 0), 0, ExpectedResult::New(false)),
        (1, Does::Deliver(0, 1), 0, ExpectedResult::New(false)),
        (1, Does::Deliver(2, 7), 0, ExpectedResult::New(false)),
        (0, Does::Expire(1), 11_000, ExpectedResult::New(false)),
        (2, Does::Learn(0, 0), 0, ExpectedResult::New(false)),
        (
            2,
            Does::Confirm(0, "T1"),
            1000,
            ExpectedResult::Refused(Fault::UnknownTransfer),
        ),
    ],
    histories: [
        &[
            ShortEvent::Funded("F1", 50_000),
            ShortEvent::Taken("T1", 1, 20_000, 1000),
        ],
        &[ShortEvent::Forwarded(0, "T1", 20_000, 11_000)],
        &[],
    ],
};

#[test]
fn wrong_deliveries(rt: HostRuntime) -> Result<(), Fail> {
    comes(&rt, &WRONG_DELIVERIES)
}

const PLACES_FULL_AND_FETCHED: Case = Case {
    margin: 0,
    rows: &[
        (
            0,
            Does::Submit("T2", 1, 200, 1000),
            1000,
            ExpectedResult::Taken(11_000),
        ),
        (1, Does::Deliver(0, 0), 0, ExpectedResult::New(true)),
        (1, Does::Deliver(0, 1), 0, ExpectedResult::New(true)),
        (
            1,
            Does::Confirm(0, "T1"),
            2000,
            ExpectedResult::Decided(End::Accepted),
        ),
        (
            1,
            Does::Confirm(0, "T2"),
            2000,
            ExpectedResult::Decided(End::Accepted),
        ),
        (0, Does::Learn(0, 1), 0, ExpectedResult::New(true)),
        (
            0,
            Does::Submit("T3", 1, 60_000, 3000),
            3000,
            ExpectedResult::Refused(Fault::Full),
        ),
        (1, Does::Fetch(1), 3000, ExpectedResult::Inbox(&["T1"])),
        (1, Does::Fetch(1), 3000, ExpectedResult::Inbox(&["T2"])),
        (1, Does::Fetch(1), 3000, ExpectedResult::Inbox(&[])),
        (
            0,
            Does::Position,
            3000,
            ExpectedResult::Position(49_800, 20_000, 29_800),
        ),
    ],
    histories: [
        &[
            ShortEvent::Funded("F1", 50_000),
            ShortEvent::Taken("T1", 1, 20_000, 1000),
            ShortEvent::Taken("T2", 1, 200, 1000),
            ShortEvent::Booked(0, "T2", End::Accepted),
        ],
        &[
            ShortEvent::Forwarded(0, "T1", 20_000, 11_000),
            ShortEvent::Forwarded(0, "T2", 200, 11_000),
            ShortEvent::Booked(0, "T1", End::Accepted),
            ShortEvent::Booked(0, "T2", End::Accepted),
            ShortEvent::Fetched(1),
            ShortEvent::Fetched(1),
        ],
        &[],
    ],
};

#[test]
fn places_full_and_fetched(rt: HostRuntime) -> Result<(), Fail> {
    comes(&rt, &PLACES_FULL_AND_FETCHED)
}

const EACH_AT_ITS_PLACE: Case = Case {
    margin: 0,
    rows: &[
        (
            0,
            Does::Submit("T2", 1, 200, 1500),
            1500,
            ExpectedResult::Taken(11_500),
        ),
        (0, Does::TellPlace("T2"), 1500, ExpectedResult::New(true)),
        (0, Does::TellPlace("T3"), 1500, ExpectedResult::New(false)),
        (
            0,
            Does::Pays("T2", Some(1)),
            1500,
            ExpectedResult::New(true),
        ),
        (0, Does::Pays("T3", None), 1500, ExpectedResult::New(true)),
        (1, Does::Deliver(0, 1), 0, ExpectedResult::New(true)),
        (1, Does::Pays("T2", None), 1500, ExpectedResult::New(true)),
        (1, Does::Deliver(0, 0), 0, ExpectedResult::New(true)),
        (
            1,
            Does::UnbookedFrom(0, Some((0, 1))),
            0,
            ExpectedResult::New(true),
        ),
        (
            1,
            Does::UnbookedFrom(1, Some((1, 0))),
            0,
            ExpectedResult::New(true),
        ),
        (1, Does::UnbookedFrom(2, None), 0, ExpectedResult::New(true)),
        (0, Does::Expire(0), 11_000, ExpectedResult::New(true)),
        (0, Does::Expire(1), 11_000, ExpectedResult::New(false)),
        (0, Does::Investigate("T2"), 11_000, ExpectedResult::Pending),
        (
            1,
            Does::Confirm(0, "T2"),
            11_000,
            ExpectedResult::Decided(End::Accepted),
        ),
        (
            1,
            Does::UnbookedFrom(0, Some((1, 0))),
            0,
            ExpectedResult::New(true),
        ),
        (1, Does::Learn(0, 0), 0, ExpectedResult::New(true)),
        (1, Does::UnbookedFrom(0, None), 0, ExpectedResult::New(true)),
        (
            1,
            Does::Position,
            11_000,
            ExpectedResult::Position(200, 0, 200),
        ),
    ],
    histories: [
        &[
            ShortEvent::Funded("F1", 50_000),
            ShortEvent::Taken("T1", 1, 20_000, 1000),
            ShortEvent::Taken("T2", 1, 200, 1500),
            ShortEvent::Booked(0, "T1", End::TimedOut),
        ],
        &[
            ShortEvent::Forwarded(0, "T2", 200, 11_500),
            ShortEvent::Forwarded(0, "T1", 20_000, 11_000),
            ShortEvent::Booked(0, "T2", End::Accepted),
            ShortEvent::Booked(0, "T1", End::TimedOut),
        ],
        &[],
    ],
};

#[test]
fn each_at_its_place(rt: HostRuntime) -> Result<(), Fail> {
    comes(&rt, &EACH_AT_ITS_PLACE)
}
