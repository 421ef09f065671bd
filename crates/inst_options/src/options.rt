//! Reading the options of a subcommand.
ghost use Rattle.std.specs.Prelude.{◌≡◌, ◌^◌, ◌⊎◌, ◌↔◌, IfOk, IfErr, OnErr, IsOkUnless, Some, None};
ghost use Rattle.std.specs.Prelude.{true};
ghost use Rattle.std.specs.Prelude.{codes, map, option_map};
ghost use Rattle.clap.specs.Words.{first_of, found_of, rows_of};
ghost use Rattle.inst_options.specs.Options.{AreOfNoLog, AreTexts, GivesNoDigest, HasAHub, IsText};
ghost use Rattle.inst_options.specs.Options.{IsFlag, Gives, GivesNoneBelow, Chooses, IsDrill};
ghost use Rattle.inst_options.specs.Options.{DescribesALog, GivesDigest, GivesOrNot, IsGiven};
ghost use Rattle.inst_options.specs.Options.{must_resume};
ghost use Rattle.inst_options.specs.Changes.{GivesChanges};
ghost use Rattle.inst_options.specs.inner.Options.{GivesLog, IsWish};
ghost use Rattle.inst_options.specs.inner.Options.{ChooseNone, AskForNone};
ghost use Rattle.inst_options.specs.Asking.{IsBeginRefusal};
ghost use Rattle.inst_settings.specs.Lawful.{IsSettings};

use crate::invocation::{Invocation, LogOptions, NextOptions};
use crate::setting_changes::SettingChanges;
use clap::ArgMatches;
use inst_base::Fault;
use inst_chain::is_digest;
use inst_settings::{HubParameters, Settings, parse_codes};
use std::alloc::{AllocError, Global};

/// Returns what a subcommand and its options ask for. Fails with `BadSettings` as [`hub_wish`]
/// does, and for a malformed digest.
pub(crate) fn wish<'a>(
    alloc: Global,
    name: &str,
    options: &ArgMatches<'a>,
) -> Result<Invocation<'a>, Fault>
    ensures wish { IfOk result (IsWish name.now (rows_of (found_of options.now))) }
    ensures fault { IfErr result
        (IsBeginRefusal (AskForNone name.now (rows_of (found_of options.now))
        ⊎ AreOfNoLog (rows_of (found_of options.now)))) }
{
    if name == "log" {
        return Ok(Invocation::Log(text_if_any(options, "file")));
    }
    if name == "next" {
        return Ok(Invocation::Next(NextOptions {
            from: text_if_any(options, "log"),
            to: text_if_any(options, "to"),
            digest: digest(options)?,
            positions: flag(options, "positions"),
            changes: changes(options),
        }));
    }
    if name == "audit" {
        return Ok(Invocation::Audit(texts(alloc, options, "files")?));
    }
    if name == "explain" {
        return Ok(Invocation::Explain(text_if_any(options, "fault")));
    }
    hub_wish(alloc, name, options)
}

/// Returns what a subcommand with a hub and its options ask for; any name but `play`, `drill` and
/// `check` means `run`. Fails with `BadSettings` if a number of a drill is too large, then as
/// [`log_options`] does, and then as [`settings`] does; these come last, so no later failure drops
/// them.
fn hub_wish<'a>(
    alloc: Global,
    name: &str,
    options: &ArgMatches<'a>,
) -> Result<Invocation<'a>, Fault>
    requires hub { HasAHub name.now }
    ensures wish { IfOk result (IsWish name.now (rows_of (found_of options.now))) }
    ensures fault { IfErr result
        (IsBeginRefusal (AskForNone name.now (rows_of (found_of options.now))
        ⊎ AreOfNoLog (rows_of (found_of options.now)))) }
{
    if name == "drill" {
        let (transfers, openings) = drill_options(options)?;
        let script = text_given(options, "script");
        let settings = settings(alloc, options)?;
        return Ok(Invocation::Drill(settings, transfers, openings, script));
    }
    if name == "check" {
        return Ok(Invocation::Check(settings(alloc, options)?));
    }
    let log = log_options(options)?;
    let sums = flag(options, "summary");
    let settings = settings(alloc, options)?;
    if name == "play" {
        return Ok(Invocation::Play(settings, log, sums));
    }
    Ok(Invocation::Run(settings, log, sums))
}

/// Returns `true` if this option without a value is given.
pub(crate) fn flag(options: &ArgMatches<'_>, name: &str) -> bool
    ensures { IsFlag name.now (rows_of (found_of options.now)) result }
{
    options.get_flag(name)
}

/// Returns the log that the options name, if any.
///
/// # Errors
/// `BadSettings` if the digest is malformed, or if an option is about a log and none is named.
fn log_options<'a>(options: &ArgMatches<'a>) -> Result<Option<LogOptions<'a>>, Fault>
    ensures log { IfOk result (GivesLog (rows_of (found_of options.now))) }
    ensures none { OnErr result (AreOfNoLog (rows_of (found_of options.now))) }
    ensures fault { IsOkUnless result Fault.BadSettings }
{
    let digest = digest(options)?;
    let told = number_given(options, "told");
    let resume = must_resume(flag(options, "resume"), told, digest);
    let path = options.get_str("log");
    match path {
        Some(path) => Ok(Some(LogOptions {
            path,
            told,
            resume,
            digest,
        })),
        None if describe_a_log(options) => Err(Fault::BadSettings),
        None => Ok(None),
    }
}

/// Returns `true` if an option is about a log, other than its name.
fn describe_a_log(options: &ArgMatches<'_>) -> bool
    ensures { (result ≡ true) → DescribesALog (rows_of (found_of options.now)) }
{
    is_given(options, "told") || is_given(options, "digest") || flag(options, "resume")
}

fn is_given(options: &ArgMatches<'_>, name: &str) -> bool
    ensures { (result ≡ true) ↔ IsGiven name.now (rows_of (found_of options.now)) }
{
    options.get_str(name).is_some()
}

/// Returns `true` if the log must exist: this is asked for, or a digest or a number of replies
/// above 0 is given.
fn must_resume(asked: bool, told: Option<u64>, digest: Option<&str>) -> bool
    ensures { result ≡ must_resume asked told (option_map (λ d. d.now) digest.entry) }
{
    asked || digest.is_some() || told.unwrap_or(0) > 0
}

/// Returns the digest that the options give, if any.
///
/// # Errors
/// `BadSettings` if it is malformed.
fn digest<'a>(options: &ArgMatches<'a>) -> Result<Option<&'a str>, Fault>
    ensures digest { IfOk result (λ r.
        GivesDigest (rows_of (found_of options.now)) (option_map (λ d. d.now) r)) }
    ensures none { OnErr result (GivesNoDigest (rows_of (found_of options.now))) }
    ensures fault { IsOkUnless result Fault.BadSettings }
{
    match options.get_str("digest") {
        Some(text) if is_digest(text.as_bytes()) => Ok(Some(text)),
        Some(_) => Err(Fault::BadSettings),
        None => Ok(None),
    }
}

/// Returns the settings that the options change.
fn changes<'a>(options: &ArgMatches<'a>) -> SettingChanges<'a>
    ensures { GivesChanges (rows_of (found_of options.now)) result }
{
    SettingChanges {
        participants: text_given(options, "participants"),
        places: number_given(options, "places"),
        fundings: number_given(options, "fundings"),
        limit: number_given(options, "limit"),
        margin: number_given(options, "margin"),
        ahead: number_given(options, "ahead"),
        ceiling: number_given(options, "ceiling"),
        base: number_given(options, "base"),
    }
}

/// Returns the numbers of transfers and openings of a drill.
fn drill_options(options: &ArgMatches<'_>) -> Result<(u16, u8), Fault>
    ensures drill { IfOk result (λ r. IsDrill (rows_of (found_of options.now)) r.0 r.1) }
    ensures none { OnErr result
        (GivesNoneBelow (2 ^ 16) (rows_of (found_of options.now)) (codes "transfers")
        ⊎ GivesNoneBelow (2 ^ 8) (rows_of (found_of options.now)) (codes "openings")) }
    ensures fault { IsOkUnless result Fault.BadSettings }
{
    let transfers = small(options, "transfers")?;
    let openings = tiny(options, "openings")?;
    Ok((transfers, openings))
}

/// Returns the settings that the options give. Fails with `BadSettings` if a code is malformed or a
/// number out of its range. The codes come last, so no later failure drops them.
fn settings(alloc: Global, options: &ArgMatches<'_>) -> Result<Settings, Fault>
    ensures lawful { IfOk result (λ settings. IsSettings settings) }
    ensures fault { IfErr result (IsBeginRefusal (ChooseNone (rows_of (found_of options.now)))) }
    ensures chosen { IfOk result (λ settings. Chooses (rows_of (found_of options.now)) settings) }
{
    let participants = text(options, "participants")?;
    let places = small(options, "places")?;
    let fundings = small(options, "fundings")?;
    let limit = medium(options, "limit")?;
    let margin = medium(options, "margin")?;
    let ahead = medium(options, "ahead")?;
    let ceiling = whole(options, "ceiling")?;
    let base = whole(options, "base")?;
    let numbers = HubParameters {
        places,
        fundings,
        limit,
        margin,
        ahead,
        ceiling,
        base,
    };
    let codes = parse_codes(alloc, participants.as_bytes())?;
    Settings::check(codes, numbers)
}

/// Returns the text of an option.
pub(crate) fn text<'a>(options: &ArgMatches<'a>, name: &str) -> Result<&'a str, Fault>
    ensures text { IfOk result (λ text.
        first_of name.now (rows_of (found_of options.now)) ≡ Some text.now) }
    ensures none { OnErr result (first_of name.now (rows_of (found_of options.now)) ≡ None) }
    ensures fault { IsOkUnless result Fault.BadSettings }
{
    options.get_str(name).ok_or(Fault::BadSettings)
}

/// Returns the text of an option, if it has one.
fn text_given<'a>(options: &ArgMatches<'a>, name: &str) -> Option<&'a str>
    ensures { option_map (λ text. text.now) result
        ≡ first_of name.now (rows_of (found_of options.now)) }
{
    options.get_str(name)
}

/// Returns the text of an option, or an empty one.
fn text_if_any<'a>(options: &ArgMatches<'a>, name: &str) -> &'a str
    ensures { IsText name.now (rows_of (found_of options.now)) result.now }
{
    options.get_str(name).unwrap_or("")
}

/// Returns the texts of an option or of positional words, in the order of the words.
fn texts<'a>(
    alloc: Global,
    options: &ArgMatches<'a>,
    name: &str,
) -> Result<Vec<&'a str>, AllocError>
    ensures { IfOk result (λ texts.
        AreTexts name.now (rows_of (found_of options.now)) (map (λ text. text.now) texts.items)) }
{
    let given = options.get_strs(name).unwrap_or(&[]);
    let mut texts = Vec::new(alloc);
    texts.extend_from_slice(given)?;
    Ok(texts)
}

/// Returns the number of an option, if it has one; the command line has parsed it as a whole number.
fn number_given(options: &ArgMatches<'_>, name: &str) -> Option<u64>
    ensures { GivesOrNot (rows_of (found_of options.now)) name.now result }
{
    options.get_one::<u64>(name)
}

/// Returns the number of an option, which the command line has parsed as a whole number.
pub(crate) fn whole(options: &ArgMatches<'_>, name: &str) -> Result<u64, Fault>
    ensures number { IfOk result (Gives (rows_of (found_of options.now)) name.now) }
    ensures none { OnErr result
        (GivesNoneBelow (2 ^ 64) (rows_of (found_of options.now)) name.now) }
    ensures fault { IsOkUnless result Fault.BadSettings }
{
    options.get_one::<u64>(name).ok_or(Fault::BadSettings)
}

fn medium(options: &ArgMatches<'_>, name: &str) -> Result<u32, Fault>
    ensures number { IfOk result (Gives (rows_of (found_of options.now)) name.now) }
    ensures none { OnErr result
        (GivesNoneBelow (2 ^ 32) (rows_of (found_of options.now)) name.now) }
    ensures fault { IsOkUnless result Fault.BadSettings }
{
    u32::try_from(whole(options, name)?).map_err(|_| Fault::BadSettings)
}

fn small(options: &ArgMatches<'_>, name: &str) -> Result<u16, Fault>
    ensures number { IfOk result (Gives (rows_of (found_of options.now)) name.now) }
    ensures none { OnErr result
        (GivesNoneBelow (2 ^ 16) (rows_of (found_of options.now)) name.now) }
    ensures fault { IsOkUnless result Fault.BadSettings }
{
    u16::try_from(whole(options, name)?).map_err(|_| Fault::BadSettings)
}

fn tiny(options: &ArgMatches<'_>, name: &str) -> Result<u8, Fault>
    ensures number { IfOk result (Gives (rows_of (found_of options.now)) name.now) }
    ensures none { OnErr result (GivesNoneBelow (2 ^ 8) (rows_of (found_of options.now)) name.now) }
    ensures fault { IsOkUnless result Fault.BadSettings }
{
    u8::try_from(whole(options, name)?).map_err(|_| Fault::BadSettings)
}
