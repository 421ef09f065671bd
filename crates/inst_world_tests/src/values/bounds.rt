//! Amounts, moments, codes, identifiers and faults, at their bounds.
use crate::comparing::{same, same_at};
use inst_base::{Cents, Code, Fault, Ident, Moment, Reason};

const BASE: u64 = 4_611_686_018_427_387_904;

const PAST_BASE: u64 = 2_199_023_255_551;

/// Cents, and the amount or the fault.
const AMOUNTS: &[(u64, Result<u64, Fault>)] = &[
    (0, Err(Fault::BadAmount)),
    (1, Ok(1)),
    (99_999_999_999, Ok(99_999_999_999)),
    (100_000_000_000, Err(Fault::BadAmount)),
    (u64::MAX, Err(Fault::BadAmount)),
];

#[test]
fn amounts_to_their_bounds(rt: HostRuntime) {
    for (cents, wanted) in AMOUNTS {
        let amount = Cents::new(*cents).map(|amount| amount.get());
        same_at(&rt, *cents, amount, *wanted);
    }
}

/// A base and a time, and the milliseconds since the base or the fault.
const MOMENTS: &[(u64, u64, Result<u64, Fault>)] = &[
    (0, 0, Ok(0)),
    (0, PAST_BASE, Ok(PAST_BASE)),
    (0, PAST_BASE + 1, Err(Fault::BadMoment)),
    (BASE, 0, Err(Fault::BadMoment)),
    (BASE, BASE - 1, Err(Fault::BadMoment)),
    (BASE, BASE, Ok(0)),
    (BASE, BASE + PAST_BASE, Ok(PAST_BASE)),
    (BASE, BASE + PAST_BASE + 1, Err(Fault::BadMoment)),
    (BASE, u64::MAX, Err(Fault::BadMoment)),
];

#[test]
fn moments_to_their_bounds(rt: HostRuntime) -> Result<(), Fault> {
    for (base, ms, wanted) in MOMENTS {
        let past_base = Moment::new(*base, *ms).map(|moment| moment.past_base());
        same_at(&rt, (*base, *ms), past_base, *wanted);
    }
    let last = Moment::new(BASE, BASE + PAST_BASE)?;
    same(&rt, last.millis(BASE), 4_611_688_217_450_643_455);
    same(&rt, last.millis(0), 2_199_023_255_551);
    Ok(())
}

/// A time stamp and a limit, and the deadline if there is one.
const DEADLINES: &[(u64, u32, Option<u64>)] = &[
    (0, 0, Some(0)),
    (1000, 10_000, Some(11_000)),
    (0, u32::MAX, Some(4_294_967_295)),
    (PAST_BASE, 0, Some(PAST_BASE)),
    (PAST_BASE, 1, None),
    (PAST_BASE - 10_000, 10_000, Some(PAST_BASE)),
    (PAST_BASE - 10_000, 10_001, None),
];

#[test]
fn deadlines_to_the_last_moment(rt: HostRuntime) -> Result<(), Fault> {
    for &(ms, limit, wanted) in DEADLINES {
        let stamp = Moment::new(0, ms)?;
        let deadline = if stamp.has_deadline(limit) {
            Some(stamp.deadline(limit).past_base())
        } else {
            None
        };
        same_at(&rt, (ms, limit), deadline, wanted);
    }
    Ok(())
}

/// Whether a clock reading is before the deadline, before it by a margin of 2 seconds, and due.
const READINGS: &[(u64, bool, bool, bool)] = &[
    (0, true, true, false),
    (8_999, true, true, false),
    (9_000, true, false, false),
    (10_999, true, false, false),
    (11_000, false, false, true),
    (11_001, false, false, true),
];

#[test]
fn readings_on_either_side_of_a_deadline(rt: HostRuntime) -> Result<(), Fault> {
    let deadline = Moment::new(0, 11_000)?;
    for &(ms, in_time, to_accept, due) in READINGS {
        let at = Moment::new(0, ms)?;
        let found = (
            at.is_in_time(deadline),
            at.is_in_time_to_accept(2000, deadline),
            at.is_in_time_to_accept(0, deadline),
            at.is_due(deadline),
        );
        same_at(&rt, ms, found, (in_time, to_accept, in_time, due));
    }
    Ok(())
}

/// Whether a time stamp is too far ahead.
const STAMPS: &[(u64, bool)] = &[(0, false), (1000, false), (2000, false), (2001, true)];

#[test]
fn stamps_on_either_side_of_what_is_ahead(rt: HostRuntime) -> Result<(), Fault> {
    let at = Moment::new(0, 1000)?;
    for &(ms, is_ahead) in STAMPS {
        same_at(&rt, ms, Moment::new(0, ms)?.is_ahead(1000, at), is_ahead);
    }
    Ok(())
}

/// Texts, and whether each is a code.
const CODES: &[(&str, bool)] = &[
    ("AAAADEFF", true),
    ("DDDDESMM123", true),
    ("AZ09AZ09", true),
    ("00000000000", true),
    ("", false),
    ("AAAADEF", false),
    ("AAAADEFF1", false),
    ("AAAADEFF12", false),
    ("AAAADEFF1234", false),
    ("AAAADEFf", false),
    ("aAAADEFF", false),
    ("AAAA EFF", false),
    ("AAAADE/F", false),
    ("AAAADE:F", false),
    ("AAAADE@F", false),
    ("AAAADE[F", false),
    ("AAAADEÉ", false),
];

fn code_text(code: &Result<Code, Fault>) -> Result<&str, Fault> {
    match code {
        Ok(code) => Ok(code.text()),
        Err(fault) => Err(*fault),
    }
}

#[test]
fn codes_by_length_and_set(rt: HostRuntime) {
    for (text, is_one) in CODES {
        let code = Code::new(text);
        let wanted = if *is_one {
            Ok(*text)
        } else {
            Err(Fault::BadField)
        };
        same_at(&rt, *text, code_text(&code), wanted);
    }
}

/// Texts, and whether each is a reason.
const REASONS: &[(&str, bool)] = &[
    ("AC04", true),
    ("AZ09", true),
    ("0000", true),
    ("", false),
    ("AC0", false),
    ("AC045", false),
    ("ac04", false),
    ("AC0z", false),
    ("AC 4", false),
    ("A/04", false),
    ("A:04", false),
    ("A@04", false),
    ("A[04", false),
    ("ACÉ", false),
];

fn reason_text(reason: &Result<Reason, Fault>) -> Result<&str, Fault> {
    match reason {
        Ok(reason) => Ok(reason.text()),
        Err(fault) => Err(*fault),
    }
}

#[test]
fn reasons_by_length_and_set(rt: HostRuntime) {
    for (text, is_one) in REASONS {
        let reason = Reason::new(text);
        let wanted = if *is_one {
            Ok(*text)
        } else {
            Err(Fault::BadField)
        };
        same_at(&rt, *text, reason_text(&reason), wanted);
    }
}

/// Texts, and whether each is an identifier.
const IDENTIFIERS: &[(&str, bool)] = &[
    ("a", true),
    (" ", true),
    ("azAZ09/-?:().,'+ ", true),
    ("INV/2026-07 O'Brien (final) part 01", true),
    ("", false),
    ("INV/2026-07 O'Brien (final) part 012", false),
    ("`", false),
    ("{", false),
    ("@", false),
    ("[", false),
    (";", false),
    (">", false),
    ("*", false),
    ("&", false),
    ("!", false),
    ("\"", false),
    ("\u{1f}", false),
    ("\n", false),
    ("=", false),
    ("_", false),
    ("é", false),
    ("T1\0", false),
];

fn identifier_text(identifier: &Result<Ident, Fault>) -> Result<&str, Fault> {
    match identifier {
        Ok(identifier) => Ok(identifier.text()),
        Err(fault) => Err(*fault),
    }
}

#[test]
fn identifiers_by_length_and_set(rt: HostRuntime) {
    for (text, is_one) in IDENTIFIERS {
        let identifier = Ident::new(text);
        let wanted = if *is_one {
            Ok(*text)
        } else {
            Err(Fault::BadIdentifier)
        };
        same_at(&rt, *text, identifier_text(&identifier), wanted);
    }
}

const SENTENCES: &[(Fault, &str)] = &[
    (Fault::NotJson, "the line is not JSON"),
    (Fault::Expired, "the clock reading is too late"),
    (Fault::Shortage, "the amount is above what is available"),
    (
        Fault::WriteFault,
        "writing the output failed, or it took no byte",
    ),
];

#[test]
fn faults_as_people_read_them(rt: HostRuntime) -> Result<(), Fault> {
    for (fault, sentence) in SENTENCES {
        let text = format!(in rt.alloc(); "{fault}")?;
        same(&rt, text.as_str(), *sentence);
    }
    Ok(())
}

const NAMES: &[(Fault, u8, &str)] = &[
    (Fault::NotJson, 1, "NotJson"),
    (Fault::BadField, 2, "BadField"),
    (Fault::BadIdentifier, 3, "BadIdentifier"),
    (Fault::BadAmount, 4, "BadAmount"),
    (Fault::BadMoment, 5, "BadMoment"),
    (Fault::UnknownParticipant, 6, "UnknownParticipant"),
    (Fault::SelfTransfer, 7, "SelfTransfer"),
    (Fault::UnknownTransfer, 8, "UnknownTransfer"),
    (Fault::Duplicate, 9, "Duplicate"),
    (Fault::StampAhead, 10, "StampAhead"),
    (Fault::Expired, 11, "Expired"),
    (Fault::Full, 12, "Full"),
    (Fault::Shortage, 13, "Shortage"),
    (Fault::Memory, 14, "Memory"),
    (Fault::BadSettings, 15, "BadSettings"),
    (Fault::LineTooLong, 16, "LineTooLong"),
    (Fault::ReadFault, 17, "ReadFault"),
    (Fault::WriteFault, 18, "WriteFault"),
];

#[test]
fn faults_by_number_and_name(rt: HostRuntime) {
    for (fault, number, name) in NAMES {
        same(&rt, (fault.number(), fault.name()), (*number, *name));
    }
}
