//! Lines of books, and the cases made of them.

/// Lines of books.
pub(crate) type BookLines = &'static [&'static [u8]];

/// The books that a hub opened from, if it wasn't its first opening, and those that it left.
pub(crate) type HubBooks = (Option<BookLines>, BookLines);

const A_FUNDED: &[u8] = br#"{"book":"AAAADEFF","cents":500,"event":"funded","ref":"F1"}"#;

const B_FUNDED: &[u8] = br#"{"book":"BBBBFRPP","cents":500,"event":"funded","ref":"F1"}"#;

const B_DEFUNDED: &[u8] = br#"{"book":"BBBBFRPP","cents":100,"event":"defunded","ref":"D1"}"#;

const B_FETCHED: &[u8] = br#"{"book":"BBBBFRPP","count":1,"event":"fetched"}"#;

const A_OPENED: &[u8] = br#"{"book":"AAAADEFF","event":"opened"}"#;

const B_OPENED: &[u8] = br#"{"book":"BBBBFRPP","event":"opened"}"#;

const C_OPENED: &[u8] = br#"{"book":"CCCCITMM","event":"opened"}"#;

// T1 of A to B.
const TAKEN: &[u8] =
    br#"{"book":"AAAADEFF","cents":100,"event":"taken","id":"T1","stamp":1000,"to":"BBBBFRPP"}"#;

const DELIVERED: &[u8] =
    br#"{"book":"BBBBFRPP","cents":100,"deadline":11000,"event":"forwarded","from":"AAAADEFF","id":"T1"}"#;

const A_ACCEPTED: &[u8] =
    br#"{"book":"AAAADEFF","event":"booked","from":"AAAADEFF","id":"T1","outcome":"accepted"}"#;

const B_ACCEPTED: &[u8] =
    br#"{"book":"BBBBFRPP","event":"booked","from":"AAAADEFF","id":"T1","outcome":"accepted"}"#;

const A_REJECTED: &[u8] =
    br#"{"book":"AAAADEFF","event":"booked","from":"AAAADEFF","id":"T1","outcome":"rejected","reason":"AC04"}"#;

const B_REJECTED: &[u8] =
    br#"{"book":"BBBBFRPP","event":"booked","from":"AAAADEFF","id":"T1","outcome":"rejected","reason":"AC04"}"#;

const A_TIMED_OUT: &[u8] =
    br#"{"book":"AAAADEFF","event":"booked","from":"AAAADEFF","id":"T1","outcome":"timed_out"}"#;

const B_TIMED_OUT: &[u8] =
    br#"{"book":"BBBBFRPP","event":"booked","from":"AAAADEFF","id":"T1","outcome":"timed_out"}"#;

// T2 of A to B.
const TAKEN_2: &[u8] =
    br#"{"book":"AAAADEFF","cents":200,"event":"taken","id":"T2","stamp":1000,"to":"BBBBFRPP"}"#;

const DELIVERED_2: &[u8] =
    br#"{"book":"BBBBFRPP","cents":200,"deadline":11000,"event":"forwarded","from":"AAAADEFF","id":"T2"}"#;

const A_TIMED_OUT_2: &[u8] =
    br#"{"book":"AAAADEFF","event":"booked","from":"AAAADEFF","id":"T2","outcome":"timed_out"}"#;

const B_TIMED_OUT_2: &[u8] =
    br#"{"book":"BBBBFRPP","event":"booked","from":"AAAADEFF","id":"T2","outcome":"timed_out"}"#;

// T3 of A to B.
const TAKEN_3: &[u8] =
    br#"{"book":"AAAADEFF","cents":300,"event":"taken","id":"T3","stamp":12000,"to":"BBBBFRPP"}"#;

const DELIVERED_3: &[u8] =
    br#"{"book":"BBBBFRPP","cents":300,"deadline":22000,"event":"forwarded","from":"AAAADEFF","id":"T3"}"#;

const A_ACCEPTED_3: &[u8] =
    br#"{"book":"AAAADEFF","event":"booked","from":"AAAADEFF","id":"T3","outcome":"accepted"}"#;

const B_ACCEPTED_3: &[u8] =
    br#"{"book":"BBBBFRPP","event":"booked","from":"AAAADEFF","id":"T3","outcome":"accepted"}"#;

// T1 of B to A.
const BACK: &[u8] =
    br#"{"book":"BBBBFRPP","cents":100,"event":"taken","id":"T1","stamp":1000,"to":"AAAADEFF"}"#;

const BACK_DELIVERED: &[u8] =
    br#"{"book":"AAAADEFF","cents":100,"deadline":11000,"event":"forwarded","from":"BBBBFRPP","id":"T1"}"#;

const A_ACCEPTED_BACK: &[u8] =
    br#"{"book":"AAAADEFF","event":"booked","from":"BBBBFRPP","id":"T1","outcome":"accepted"}"#;

const B_ACCEPTED_BACK: &[u8] =
    br#"{"book":"BBBBFRPP","event":"booked","from":"BBBBFRPP","id":"T1","outcome":"accepted"}"#;

const A_TIMED_OUT_BACK: &[u8] =
    br#"{"book":"AAAADEFF","event":"booked","from":"BBBBFRPP","id":"T1","outcome":"timed_out"}"#;

const B_TIMED_OUT_BACK: &[u8] =
    br#"{"book":"BBBBFRPP","event":"booked","from":"BBBBFRPP","id":"T1","outcome":"timed_out"}"#;

/// The outcome is the beneficiary's, so its events precede the originator's.
const ACCEPTED: &[&[u8]] = &[
    A_FUNDED, TAKEN, A_ACCEPTED, DELIVERED, B_ACCEPTED, B_DEFUNDED,
];

/// T1 timed out, and T2 is pending.
const ONE_PENDING: &[&[u8]] = &[A_FUNDED, TAKEN, A_TIMED_OUT, TAKEN_2, DELIVERED_2];

/// Books that steps explain, with the number of steps.
pub(crate) const EXPLAINED: &[(HubBooks, usize)] = &[
    // no events
    ((None, &[]), 0),
    // pending
    ((None, &[A_FUNDED, TAKEN, DELIVERED, B_FETCHED]), 4),
    // accepted, and spent
    ((None, ACCEPTED), 6),
    // rejected
    (
        (None, &[A_FUNDED, TAKEN, A_REJECTED, DELIVERED, B_REJECTED]),
        5,
    ),
    // timed out before it was delivered
    ((None, &[A_FUNDED, TAKEN, A_TIMED_OUT]), 3),
    // timed out after it was delivered
    (
        (
            None,
            &[A_FUNDED, TAKEN, A_TIMED_OUT, DELIVERED, B_TIMED_OUT],
        ),
        5,
    ),
    // paid with money that the other one had paid
    (
        (
            None,
            &[
                A_FUNDED,
                TAKEN,
                A_ACCEPTED,
                BACK_DELIVERED,
                A_ACCEPTED_BACK,
                DELIVERED,
                B_ACCEPTED,
                BACK,
                B_ACCEPTED_BACK,
            ],
        ),
        9,
    ),
    // a carried transfer times out, and a new one gets the next place
    (
        (
            Some(ONE_PENDING),
            &[
                A_FUNDED,
                TAKEN,
                A_TIMED_OUT,
                TAKEN_2,
                A_OPENED,
                TAKEN_3,
                A_ACCEPTED_3,
                A_TIMED_OUT_2,
                DELIVERED_2,
                B_OPENED,
                B_TIMED_OUT_2,
                DELIVERED_3,
                B_ACCEPTED_3,
                C_OPENED,
            ],
        ),
        6,
    ),
    // a transfer that is carried twice is accepted
    (
        (
            Some(&[A_FUNDED, TAKEN, DELIVERED, A_OPENED, B_OPENED, C_OPENED]),
            &[
                A_FUNDED, TAKEN, A_OPENED, A_OPENED, A_ACCEPTED, DELIVERED, B_OPENED, B_OPENED,
                B_ACCEPTED, C_OPENED, C_OPENED,
            ],
        ),
        2,
    ),
];

/// Books that no steps explain.
pub(crate) const UNEXPLAINED: &[HubBooks] = &[
    // each pays with money that it has only from the other
    (
        None,
        &[
            BACK_DELIVERED,
            A_ACCEPTED_BACK,
            TAKEN,
            A_ACCEPTED,
            DELIVERED,
            B_ACCEPTED,
            BACK,
            B_ACCEPTED_BACK,
        ],
    ),
    // A books its T1 before it receives B's T1, and B books its T1 before it receives A's
    (
        None,
        &[
            A_FUNDED,
            TAKEN,
            A_ACCEPTED,
            BACK_DELIVERED,
            A_TIMED_OUT_BACK,
            B_FUNDED,
            BACK,
            B_TIMED_OUT_BACK,
            DELIVERED,
            B_ACCEPTED,
        ],
    ),
    // delivered after its time-out: T2, which A sends once T1 has timed out, precedes T1 at B
    (
        None,
        &[
            A_FUNDED,
            TAKEN,
            A_TIMED_OUT,
            TAKEN_2,
            DELIVERED_2,
            DELIVERED,
            B_TIMED_OUT,
        ],
    ),
    // rejected by nobody
    (None, &[A_FUNDED, TAKEN, A_REJECTED]),
    // delivered after the opening, settled before it
    (
        Some(&[A_FUNDED, TAKEN, A_TIMED_OUT]),
        &[
            A_FUNDED,
            TAKEN,
            A_TIMED_OUT,
            A_OPENED,
            B_OPENED,
            DELIVERED,
            B_TIMED_OUT,
            C_OPENED,
        ],
    ),
    // `Opened` at a first opening
    (None, &[A_FUNDED, A_OPENED, B_OPENED, C_OPENED]),
    // not from the books that it opened from
    (Some(&[A_FUNDED]), &[B_FUNDED, A_OPENED, B_OPENED, C_OPENED]),
];
