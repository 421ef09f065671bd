//! Reading the first line of a log.
ghost use Rattle.std.specs.Prelude.{◌≡◌, ◌⊎◌, ◌<◌, ◌^◌, ◌++◌, [], ◌∷◌, List, ℕ, Option, Some, None};
ghost use Rattle.std.specs.Prelude.{true, map, codes, IfOk, IfSome, option_map, ok_or};
ghost use Rattle.std.specs.List.{list_all};
ghost use Rattle.serde_json.specs.Data.{string};
ghost use Rattle.serde_json.specs.View.{view, items_view};
ghost use Rattle.inst_base.specs.Text.{is_code};
ghost use Rattle.inst_base.specs.declared.fault.Fault.TheVariants.{NotJson};
ghost use Rattle.inst_settings.specs.Settings.{HubSettings};
ghost use Rattle.inst_settings.specs.Lawful.{IsSettings, AreOfAHub, numbers_of};
ghost use Rattle.inst_base.specs.Newline.{newline, NoNewline};
ghost use Rattle.inst_json.specs.Replies.{items};
ghost use Rattle.inst_json.specs.Lines.{json_of};
ghost use Rattle.inst_chain.specs.Chain.{IsHexadecimal};
ghost use Rattle.inst_chain.specs.declared.digest.Digest.{Digest};
ghost use Rattle.inst_logged.specs.Header.{mode_word, first_origin};
ghost use Rattle.inst_logged.specs.LogHeader.{IsHeaderLine, beginning_with};
ghost use Rattle.inst_logged.specs.inner.LogHeader.{HeaderSays, SaysSettings, SaysOrigin, number_in};
ghost use Rattle.inst_logged.specs.inner.LogHeader.{header_text, list_in, version_number};
ghost use Rattle.inst_logged.specs.declared.header.Origin.{Origin};
ghost use Rattle.inst_logged.specs.declared.version.Version.TheVariants.{Two};

use crate::Version;
use crate::header::{Origin, header_line};
use inst_base::Code;
use inst_chain::Digest;
use inst_lines::Mode;
use inst_settings::{HubParameters, Settings};
use serde_json::Value;
use std::alloc::{AllocError, Global};

/// The contents of a log's first line.
#[derive(Drop)]
pub struct LogHeader {
    /// The mode: the log's lines are commands or steps.
    pub mode: Mode,
    /// The settings of the hub.
    pub settings: Settings,
    /// The number of lines of books that follow; `None` if the hub opened for the first time.
    pub books: Option<u64>,
    /// The last digest of the log before, if the line has one.
    pub previous: Option<Digest>,
}

/// Returns the contents of a log's first line, given with or without its newline, or `None` if it
/// can't be one.
///
/// # Errors
///
/// [`AllocError`] if the settings or the line's JSON value can't be allocated.
pub fn read_beginning(alloc: Global, line: &[u8]) -> Result<Option<LogHeader>, AllocError>
    ensures { (version : Version) (mode : Mode) (s : HubSettings) (origin : Origin) →
        IsHeaderLine version mode s origin line.now
        → IfOk result (λ beginning. beginning ≡ Some (beginning_with mode s origin)) }
{
    match value_of(alloc, without_newline(line))? {
        Some(value) => beginning_in(alloc, &value),
        None => Ok(None),
    }
}

/// Returns the line without its newline.
fn without_newline(line: &[u8]) -> &[u8]
    ensures { (text : List ℕ) → NoNewline text →
        (line.now ≡ text) ⊎ (line.now ≡ text ++ newline ∷ []) → result.now ≡ text }
{
    line.strip_suffix(b"\n").unwrap_or(line)
}

/// Returns the JSON value of a line, or `None` if it isn't JSON.
fn value_of(alloc: Global, line: &[u8]) -> Result<Option<Value>, AllocError>
    ensures { IfOk result (λ value. ok_or (option_map view value) NotJson ≡ json_of line.now) }
{
    match Value::from_slice(alloc, line) {
        Ok(value) => Ok(Some(value)),
        Err(error) if error.is_memory() => Err(AllocError),
        Err(_) => Ok(None),
    }
}

/// Returns the contents of a first line with this JSON value, or `None` if it can't be one.
fn beginning_in(alloc: Global, value: &Value) -> Result<Option<LogHeader>, AllocError>
    ensures { (version : Version) (mode : Mode) (s : HubSettings) (origin : Origin) → AreOfAHub s →
        HeaderSays version mode s origin (view value.now)
        → IfOk result (λ beginning. beginning ≡ Some (beginning_with mode s origin)) }
{
    let Some(mode) = mode_of(value) else {
        return Ok(None);
    };
    let Origin { books, previous } = origin_in(value);
    match settings_of(alloc, value)? {
        Some(settings) => Ok(Some(LogHeader {
            mode,
            settings,
            books,
            previous,
        })),
        None => Ok(None),
    }
}

/// Returns the members about the books.
fn origin_in(value: &Value) -> Origin
    ensures back { (origin : Origin) → SaysOrigin origin (view value.now) → result ≡ origin }
    ensures digest { IfSome result.previous IsHexadecimal }
{
    Origin {
        books: number(value, "books"),
        previous: previous_in(value),
    }
}

/// Returns the last digest of the log before, or `None` if there is none or it isn't 64 lower-case
/// hexadecimal digits.
fn previous_in(value: &Value) -> Option<Digest>
    ensures back { (previous : Option Digest) → IfSome previous IsHexadecimal →
        header_text (codes "previous") (view value.now) ≡ option_map (λ digest. digest.text) previous
        → result ≡ previous }
    ensures digest { IfSome result IsHexadecimal }
{
    let digest = Digest::of(value.get("previous")?.as_str()?)?;
    if !digest.is_hexadecimal() {
        return None;
    }
    Some(digest)
}

fn mode_of(value: &Value) -> Option<Mode>
    ensures { (mode : Mode) → header_text (codes "log") (view value.now) ≡ Some (mode_word mode) →
        result ≡ Some mode }
{
    match value.get("log")?.as_str()? {
        "run" => Some(Mode::Run),
        "play" => Some(Mode::Play),
        _ => None,
    }
}

fn settings_of(alloc: Global, value: &Value) -> Result<Option<Settings>, AllocError>
    ensures { (s : HubSettings) → AreOfAHub s → SaysSettings s (view value.now) →
        IfOk result (λ settings. settings ≡ Some s) }
{
    let Some(numbers) = numbers_of(value) else {
        return Ok(None);
    };
    let Some(codes) = codes_of(alloc, value)? else {
        return Ok(None);
    };
    Ok(Settings::check(codes, numbers).ok())
}

/// Returns the codes of the participants.
fn codes_of(alloc: Global, value: &Value) -> Result<Option<Vec<Code>>, AllocError>
    ensures { (listed : List (List ℕ)) → list_all is_code listed ≡ true →
        list_in (codes "participants") (view value.now) ≡ Some (items (map string listed))
        → IfOk result (λ found. option_map (λ codes. codes.items) found ≡ Some listed) }
{
    match value.get("participants").and_then(Value::as_array) {
        Some(listed) => codes_in(alloc, listed),
        None => Ok(None),
    }
}

/// Returns the listed codes, or `None` if one isn't a code.
fn codes_in(alloc: Global, listed: &[Value]) -> Result<Option<Vec<Code>>, AllocError>
    ensures { (named : List (List ℕ)) → list_all is_code named ≡ true →
        items_view listed.now ≡ items (map string named)
        → IfOk result (λ found. option_map (λ codes. codes.items) found ≡ Some named) }
{
    let mut codes = Vec::new(alloc);
    for value in listed {
        match code_of(value) {
            Some(code) => codes.push(code)?,
            None => return Ok(None),
        }
    }
    Ok(Some(codes))
}

/// Returns the code in this value.
fn code_of(value: &Value) -> Option<Code>
    ensures { (code : List ℕ) → is_code code ≡ true → view value.now ≡ string code →
        result ≡ Some code }
{
    Code::new(value.as_str()?).ok()
}

/// Returns the numbers of the settings.
fn numbers_of(value: &Value) -> Option<HubParameters>
    ensures { (s : HubSettings) → IsSettings s → SaysSettings s (view value.now) →
        result ≡ Some (numbers_of s) }
{
    Some(HubParameters {
        places: small(value, "places")?,
        fundings: small(value, "fundings")?,
        limit: medium(value, "limit")?,
        margin: medium(value, "margin")?,
        ahead: medium(value, "ahead")?,
        ceiling: number(value, "ceiling")?,
        base: number(value, "base")?,
    })
}

fn number(value: &Value, name: &str) -> Option<u64>
    ensures { result ≡ number_in name.now (view value.now) }
{
    value.get(name)?.as_u64()
}

fn small(value: &Value, name: &str) -> Option<u16>
    ensures { (n : ℕ) → n < 2 ^ 16 → number_in name.now (view value.now) ≡ Some n →
        result ≡ Some n }
{
    u16::try_from(number(value, name)?).ok()
}

fn medium(value: &Value, name: &str) -> Option<u32>
    ensures { (n : ℕ) → n < 2 ^ 32 → number_in name.now (view value.now) ≡ Some n →
        result ≡ Some n }
{
    u32::try_from(number(value, name)?).ok()
}

/// Returns the version in a log's first line, given with or without its newline.
///
/// Returns `One` for `"version":1`, else `Two`, also for an empty line or no JSON. Returns `None`
/// for JSON without `log` and `version`.
///
/// # Errors
///
/// [`AllocError`] if the line's JSON value can't be allocated.
pub fn version_of(alloc: Global, line: &[u8]) -> Result<Option<Version>, AllocError>
    ensures none { line.now ≡ [] → IfOk result (λ version. version ≡ Some Two) }
    ensures back { (version : Version) (mode : Mode) (s : HubSettings) (origin : Origin) →
        IsHeaderLine version mode s origin line.now
        → IfOk result (λ found. found ≡ Some version) }
{
    if line.is_empty() {
        return Ok(Some(Version::Two));
    }
    match value_of(alloc, without_newline(line))? {
        Some(value) => Ok(version_in(&value)),
        None => Ok(Some(Version::Two)),
    }
}

/// Returns the version in a first line with this JSON value, or `None` if it can't be one.
fn version_in(value: &Value) -> Option<Version>
    ensures { (version : Version) →
        number_in (codes "version") (view value.now) ≡ Some (version_number version) →
        result ≡ Some version }
{
    if value.get("log").is_none() && value.get("version").is_none() {
        return None;
    }
    match number(value, "version") {
        Some(1) => Some(Version::One),
        _ => Some(Version::Two),
    }
}

/// Returns the members about the books in the first line of a log, given with its newline. Returns
/// none if the line has other settings.
pub(crate) fn known_origin(
    alloc: Global,
    version: Version,
    mode: Mode,
    settings: &Settings,
    first: &[u8],
) -> Result<Origin, AllocError>
    ensures none { first.now ≡ [] → IfOk result (λ origin. origin ≡ first_origin) }
    ensures back { (origin : Origin) → IsHeaderLine version mode settings.now origin first.now →
        IfOk result (λ found. found ≡ origin) }
    ensures digest { IfOk result (λ found. IfSome found.previous IsHexadecimal) }
{
    if first.is_empty() {
        return Ok(Origin::first());
    }
    let line = without_newline(first);
    let origin = origin_of(alloc, first)?;
    let expected = header_line(alloc, version, mode, settings, origin)?;
    if expected.as_bytes() != line {
        return Ok(Origin::first());
    }
    Ok(origin)
}

/// Returns the members about the books that a first line has.
fn origin_of(alloc: Global, line: &[u8]) -> Result<Origin, AllocError>
    ensures back { (version : Version) (mode : Mode) (s : HubSettings) (origin : Origin) →
        IsHeaderLine version mode s origin line.now
        → IfOk result (λ found. found ≡ origin) }
    ensures digest { IfOk result (λ found. IfSome found.previous IsHexadecimal) }
{
    match value_of(alloc, without_newline(line))? {
        Some(value) => Ok(origin_in(&value)),
        None => Ok(Origin::first()),
    }
}
