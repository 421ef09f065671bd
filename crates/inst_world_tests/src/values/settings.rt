//! Settings at their bounds, and finding participants by their codes.
use crate::comparing::{same, same_at};
use inst_base::{Code, Fault};
use inst_settings::{HubParameters, Settings, parse_codes};
use std::alloc::{AllocError, Global};
use std::process::Abort;
use std::test::Fail;

const LEAST: HubParameters = HubParameters {
    places: 1,
    fundings: 1,
    limit: 1,
    margin: 0,
    ahead: 0,
    ceiling: 1,
    base: 0,
};

const MOST: HubParameters = HubParameters {
    places: 1024,
    fundings: 1024,
    limit: 3_600_000,
    margin: 3_599_999,
    ahead: 60_000,
    ceiling: 99_999_999_999,
    base: 4_611_686_018_427_387_904,
};

/// Returns the numbers that the getters return.
fn told(settings: &Settings) -> HubParameters {
    HubParameters {
        places: settings.places(),
        fundings: settings.fundings(),
        limit: settings.limit(),
        margin: settings.margin(),
        ahead: settings.ahead(),
        ceiling: settings.ceiling(),
        base: settings.base(),
    }
}

/// Returns the code with this number: `AAAAD100`, `AAAAD101` and so on.
fn code(alloc: Global, index: u32) -> Result<Code, Fail> {
    let number = u64::from(index) + 100;
    let text = format!(in alloc; "AAAAD{number}")?;
    Ok(Code::new(text.as_str())?)
}

/// Returns the first `count` of these codes.
fn codes(alloc: Global, count: u32) -> Result<Vec<Code>, Fail> {
    let mut codes = Vec::new(alloc);
    for index in 0..count {
        codes.push(code(alloc, index)?)?;
    }
    Ok(codes)
}

/// Each has one number out of its range by 1.
const PAST_BOUNDS: &[HubParameters] = &[
    HubParameters { places: 0, ..LEAST },
    HubParameters {
        fundings: 0,
        ..LEAST
    },
    HubParameters { limit: 0, ..LEAST },
    HubParameters {
        ceiling: 0,
        ..LEAST
    },
    HubParameters {
        places: 1025,
        ..MOST
    },
    HubParameters {
        fundings: 1025,
        ..MOST
    },
    HubParameters {
        limit: 3_600_001,
        ..MOST
    },
    HubParameters { margin: 1, ..LEAST },
    HubParameters {
        margin: 3_600_000,
        ..MOST
    },
    HubParameters {
        ahead: 60_001,
        ..MOST
    },
    HubParameters {
        ceiling: 100_000_000_000,
        ..MOST
    },
    HubParameters {
        base: 4_611_686_018_427_387_905,
        ..MOST
    },
];

/// Checks that settings with these numbers return them.
fn takes(rt: &(impl Abort + AllocGlobal), numbers: HubParameters) -> Result<(), Fail> {
    let settings = Settings::check(codes(rt.alloc(), 1)?, numbers)?;
    same(
        rt,
        (told(&settings), settings.numbers()),
        (numbers, numbers),
    );
    Ok(())
}

/// Returns the fault of settings with this number of participants and these numbers.
fn refusal(alloc: Global, count: u32, numbers: HubParameters) -> Result<Option<Fault>, Fail> {
    Ok(Settings::check(codes(alloc, count)?, numbers).err())
}

#[test]
fn numbers_to_their_bounds(rt: HostRuntime) -> Result<(), Fail> {
    takes(&rt, LEAST)?;
    takes(&rt, MOST)?;
    for numbers in PAST_BOUNDS {
        let refusal = refusal(rt.alloc(), 1, *numbers)?;
        same_at(&rt, *numbers, refusal, Some(Fault::BadSettings));
    }
    Ok(())
}

/// Checks that there are 256 participants, that the last code has the last number, and that no
/// other code has one.
fn ends_at_the_last(rt: &impl Abort, settings: &Settings) -> Result<(), Fail> {
    same(rt, settings.participants(), 256);
    has_code(rt, settings, 255, &Code::new("AAAAD355")?);
    same(rt, settings.index_of(&Code::new("AAAAD356")?), None);
    Ok(())
}

/// The number of participants, and the fault if that is refused.
const COUNTS: &[(u32, Option<Fault>)] = &[
    (0, Some(Fault::BadSettings)),
    (1, None),
    (256, None),
    (257, Some(Fault::BadSettings)),
];

/// Checks the fault of each number of participants.
fn refuses_counts(rt: &(impl Abort + AllocGlobal)) -> Result<(), Fail> {
    for &(count, fault) in COUNTS {
        same_at(rt, count, refusal(rt.alloc(), count, MOST)?, fault);
    }
    Ok(())
}

#[test]
fn participants_to_their_bounds(rt: HostRuntime) -> Result<(), Fail> {
    refuses_counts(&rt)?;
    let settings = Settings::check(codes(rt.alloc(), 256)?, MOST)?;
    ends_at_the_last(&rt, &settings)
}

/// Checks that the code has this number, and the number this code.
fn has_code(rt: &impl Abort, settings: &Settings, index: u8, code: &Code) {
    let found = (settings.code(index), settings.index_of(code));
    same(rt, found, (Some(code), Some(index)));
}

/// Checks that there are three codes, numbered in the order in which they were given, and no other.
fn numbers_codes(rt: &impl Abort, settings: &Settings, codes: &[Code; 3]) -> Result<(), Fail> {
    let other = Code::new("DDDDESMM")?;
    let found = (
        told(settings),
        settings.participants(),
        settings.index_of(&other),
    );
    same(rt, found, (LEAST, 3, None));
    same(rt, settings.code(3), None);
    has_code(rt, settings, 0, &codes[0]);
    has_code(rt, settings, 1, &codes[1]);
    has_code(rt, settings, 2, &codes[2]);
    Ok(())
}

/// Checks that the settings and a copy of them number the codes in this way.
fn copies_codes(rt: &impl Abort, settings: &Settings, codes: &[Code; 3]) -> Result<(), Fail> {
    numbers_codes(rt, settings, codes)?;
    let copy = settings.copy()?;
    numbers_codes(rt, &copy, codes)
}

/// Checks that three codes are refused if two are equal.
fn refuses_a_code_twice(rt: &(impl Abort + AllocGlobal), codes: &[Code; 3]) -> Result<(), Fail> {
    let [first, second, _] = *codes;
    for twice in [
        [first, first, second],
        [first, second, first],
        [first, second, second],
    ] {
        let refusal = Settings::check(twice.to_vec(rt.alloc())?, LEAST).err();
        same(rt, refusal, Some(Fault::BadSettings));
    }
    Ok(())
}

/// Checks that settings with the codes in this text number them.
fn takes_codes(
    rt: &(impl Abort + AllocGlobal),
    text: &[u8],
    codes: &[Code; 3],
) -> Result<(), Fail> {
    let settings = Settings::check(parse_codes(rt.alloc(), text)?, LEAST)?;
    copies_codes(rt, &settings, codes)
}

#[test]
fn codes_are_numbered_as_given(rt: HostRuntime) -> Result<(), Fail> {
    let codes = [
        Code::new("CCCCITMM")?,
        Code::new("AAAADEFF")?,
        Code::new("AAAADEFF123")?,
    ];
    refuses_a_code_twice(&rt, &codes)?;
    takes_codes(&rt, b"CCCCITMM,AAAADEFF,AAAADEFF123", &codes)
}

const COUNTRIES: [&str; 8] = ["DE", "FR", "IT", "ES", "NL", "BE", "AT", "IE"];

const BANKS: [&str; 8] = [
    "LERC", "MEIS", "NEUN", "PIRO", "RABE", "SPEC", "TAUB", "UHUX",
];

/// Returns the code with this number as banks have them, every third with a branch: other banks,
/// the same bank in other countries and places, and other branches of one bank.
fn bank_text(alloc: Global, index: u32) -> Result<String, AllocError> {
    let bank = BANKS[(index % 8) as usize];
    let country = COUNTRIES[(index / 8 % 8) as usize];
    let place = 10 + index / 64;
    if index % 3 == 0 {
        let branch = 100 + u64::from(index);
        format!(in alloc; "{bank}{country}{place}{branch}")
    } else {
        format!(in alloc; "{bank}{country}{place}")
    }
}

fn bank_code(alloc: Global, index: u32) -> Result<Code, Fail> {
    let text = bank_text(alloc, index)?;
    Ok(Code::new(text.as_str())?)
}

/// Returns the first `count` of these codes.
fn bank_codes(alloc: Global, count: u32) -> Result<Vec<Code>, Fail> {
    let mut codes = Vec::new(alloc);
    for index in 0..count {
        codes.push(bank_code(alloc, index)?)?;
    }
    Ok(codes)
}

/// Checks that the first 64 codes have their numbers and the others none.
fn numbers_the_first(rt: &impl Abort, settings: &Settings, codes: &[Code]) {
    for (number, code) in codes.iter().enumerate() {
        let wanted = if number < 64 { Some(number) } else { None };
        same_at(rt, *code, settings.index_of(code).map(usize::from), wanted);
    }
}

#[test]
fn every_code_of_a_bank_has_its_number(rt: HostRuntime) -> Result<(), Fail> {
    let codes = bank_codes(rt.alloc(), 128)?;
    let settings = Settings::check(bank_codes(rt.alloc(), 64)?, MOST)?;
    numbers_the_first(&rt, &settings, &codes);
    Ok(())
}
