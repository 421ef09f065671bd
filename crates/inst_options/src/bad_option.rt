//! Naming the option for which settings are refused.
ghost use Rattle.std.specs.Prelude.{◌≡◌, IfSome, MatchOption, Some, None, codes, false, map};
ghost use Rattle.clap.specs.Words.{first_of, found_of, rows_of};
ghost use Rattle.inst_chain.specs.Chain.{is_digest};
ghost use Rattle.inst_options.specs.Options.{NamesNoLog};
ghost use Rattle.inst_options.specs.BadOptions.{AreInside, IsBadOption, IsInside, IsOutside};
ghost use Rattle.inst_options.specs.BadOptions.{ranges};
ghost use Rattle.inst_options.specs.inner.BadOptions.{range_of};

use crate::options::{flag, text, whole};
use crate::texts;
use clap::ArgMatches;
use inst_chain::is_digest;
use inst_settings::{MOST_AHEAD, MOST_BASE, MOST_CEILING, MOST_FUNDINGS, MOST_LIMIT, MOST_PLACES};

/// An option whose value, together with the others, no hub can have.
#[derive(Clone, Copy)]
pub struct BadOption<'a> {
    /// The option's name, without the dashes.
    pub name: &'static str,
    /// The value that was given.
    pub value: &'a str,
    /// The values that are allowed, in words.
    pub range: &'static str,
}

/// The range of an option that is a number.
struct Bound {
    name: &'static str,
    least: u64,
    most: u64,
    range: &'static str,
}

const BOUNDS: &'static [Bound] = &[
    Bound {
        name: "places",
        least: 1,
        most: MOST_PLACES as u64,
        range: "1 to 1024",
    },
    Bound {
        name: "fundings",
        least: 1,
        most: MOST_FUNDINGS as u64,
        range: "1 to 1024",
    },
    Bound {
        name: "limit",
        least: 1,
        most: MOST_LIMIT as u64,
        range: "1 to 3600000",
    },
    Bound {
        name: "ahead",
        least: 0,
        most: MOST_AHEAD as u64,
        range: "0 to 60000",
    },
    Bound {
        name: "ceiling",
        least: 1,
        most: MOST_CEILING,
        range: "1 to 99999999999",
    },
    Bound {
        name: "base",
        least: 0,
        most: MOST_BASE,
        range: "0 to 4611686018427387904 (2^62)",
    },
    Bound {
        name: "transfers",
        least: 1,
        most: MOST_PLACES as u64,
        range: "1 to 1024 and at most --places",
    },
    Bound {
        name: "openings",
        least: 1,
        most: 10,
        range: "1 to 10",
    },
];

/// Returns the table of ranges. Code visits the table through this call, so that the constant is in
/// no proof about options.
fn bounds() -> &'static [Bound]
    ensures { map range_of result.now ≡ ranges }
{
    BOUNDS
}

/// Returns an option for which settings were refused: the participants if all numbers are in range.
pub(crate) fn bad_option<'a>(options: &ArgMatches<'a>) -> Option<BadOption<'a>>
    ensures { IfSome result (IsBadOption (rows_of (found_of options.now))) }
{
    let bad = match number_out_of_range(options) {
        Some(bad) => return Some(bad),
        None => bad_margin(options).or(bad_log_option(options)),
    };
    if bad.is_some() {
        return bad;
    }
    let value = text(options, "participants").ok()?;
    Some(BadOption {
        name: "participants",
        value,
        range: texts::PARTICIPANTS,
    })
}

/// Returns the first option whose number is out of its range.
fn number_out_of_range<'a>(options: &ArgMatches<'a>) -> Option<BadOption<'a>>
    ensures { MatchOption result (AreInside (rows_of (found_of options.now)))
        (IsBadOption (rows_of (found_of options.now))) }
{
    for bound in bounds() {
        if let Some(value) = outside(options, bound) {
            return Some(BadOption {
                name: bound.name,
                value,
                range: bound.range,
            });
        }
    }
    None
}

/// Returns the value of an option whose number is out of this range.
fn outside<'a>(options: &ArgMatches<'a>, bound: &Bound) -> Option<&'a str>
    ensures outside { MatchOption result
        (IsInside (rows_of (found_of options.now)) (range_of bound.now))
        (λ _. IsOutside (rows_of (found_of options.now)) (range_of bound.now)) }
    ensures value { IfSome result (λ value.
        first_of bound.now.name.now (rows_of (found_of options.now)) ≡ Some value.now) }
{
    let Ok(number) = whole(options, bound.name) else {
        return None;
    };
    if bound.least <= number && number <= bound.most {
        return None;
    }
    match text(options, bound.name) {
        Ok(value) => Some(value),
        Err(_) => None,
    }
}

/// Returns the margin, unless it is below the limit.
fn bad_margin<'a>(options: &ArgMatches<'a>) -> Option<BadOption<'a>>
    ensures { IfSome result (IsBadOption (rows_of (found_of options.now))) }
{
    let Ok(limit) = whole(options, "limit") else {
        return None;
    };
    let Ok(margin) = whole(options, "margin") else {
        return None;
    };
    match text(options, "margin") {
        Ok(value) if limit <= margin => Some(BadOption {
            name: "margin",
            value,
            range: "less than --limit",
        }),
        _ => None,
    }
}

/// Returns an option about a log that is malformed, or that is given without `--log`.
fn bad_log_option<'a>(options: &ArgMatches<'a>) -> Option<BadOption<'a>>
    ensures { IfSome result (IsBadOption (rows_of (found_of options.now))) }
{
    if let Some(value) = malformed_digest(options) {
        return Some(BadOption {
            name: "digest",
            value,
            range: texts::DIGEST,
        });
    }
    let name = if flag(options, "resume") {
        "resume"
    } else if text(options, "digest").is_ok() {
        "digest"
    } else {
        "told"
    };
    let value = given_without_log(options, name)?;
    Some(BadOption {
        name,
        value,
        range: "given together with --log",
    })
}

/// Returns the text that is given as a digest, if it isn't one.
fn malformed_digest<'a>(options: &ArgMatches<'a>) -> Option<&'a str>
    ensures value { IfSome result (λ value.
        first_of (codes "digest") (rows_of (found_of options.now)) ≡ Some value.now) }
    ensures none { IfSome result (λ value. is_digest value.now ≡ false) }
{
    let value = text(options, "digest").ok()?;
    if is_digest(value.as_bytes()) {
        None
    } else {
        Some(value)
    }
}

/// Returns the value of this option, if no log is named.
fn given_without_log<'a>(options: &ArgMatches<'a>, name: &str) -> Option<&'a str>
    ensures value { IfSome result (λ value.
        first_of name.now (rows_of (found_of options.now)) ≡ Some value.now) }
    ensures no_log { IfSome result (λ _. NamesNoLog (rows_of (found_of options.now))) }
{
    match text(options, "log") {
        Ok(_) => None,
        Err(_) => text(options, name).ok(),
    }
}
