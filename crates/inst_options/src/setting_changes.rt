//! Changing the settings of a hub.
ghost use Rattle.std.specs.Prelude.{◌≡◌, ◌^◌, ◌≤◌, IfErr, IfOk, IsOkUnless, OnErr, unwrap_or};
ghost use Rattle.inst_settings.specs.Lawful.{IsSettings};
ghost use Rattle.inst_options.specs.Changes.{changed, AreRefusedChanges, AreFormed};

use inst_base::Fault;
use inst_settings::{HubParameters, Settings, parse_codes};
use std::alloc::Global;

/// The settings that a next opening changes, as they are given. `None` leaves a setting as it was.
#[derive(Clone, Copy)]
pub struct SettingChanges<'a> {
    /// The codes of all participants, with commas between them: those of before in the same order,
    /// then those of who joins.
    pub participants: Option<&'a str>,
    /// The most live transfers of an originator.
    pub places: Option<u64>,
    /// The most fund and defund commands of a participant between two openings.
    pub fundings: Option<u64>,
    /// The maximum execution time, in milliseconds.
    pub limit: Option<u64>,
    /// The cut-off before the deadline, in milliseconds.
    pub margin: Option<u64>,
    /// How far a time stamp may be after the clock reading, in milliseconds.
    pub ahead: Option<u64>,
    /// The largest amount of a command, in cents.
    pub ceiling: Option<u64>,
    /// The absolute milliseconds from which moments are counted.
    pub base: Option<u64>,
}

impl<'a> SettingChanges<'a> {
    ghost use Rattle.std.specs.Prelude.{true};
    ghost use Rattle.inst_settings.specs.Settings.{HubSettings};

    /// No change.
    const NONE: SettingChanges<'static> = SettingChanges {
        participants: None,
        places: None,
        fundings: None,
        limit: None,
        margin: None,
        ahead: None,
        ceiling: None,
        base: None,
    };

    /// Returns `true` if nothing changes.
    pub fn is_empty(&self) -> bool
        ensures same { result ≡ true → (s : HubSettings) → changed self.now s ≡ s }
        ensures formed { result ≡ true → AreFormed self.now }
    {
        self.participants.is_none()
            && self.places.is_none()
            && self.fundings.is_none()
            && self.limit.is_none()
            && self.margin.is_none()
            && self.ahead.is_none()
            && self.ceiling.is_none()
            && self.base.is_none()
    }

    /// Returns each change alone, with the name of its option.
    pub fn each_alone(&self) -> [(&'static str, SettingChanges<'a>); 8] {
        let none = SettingChanges::NONE;
        [
            (
                "participants",
                SettingChanges {
                    participants: self.participants,
                    ..none
                },
            ),
            (
                "places",
                SettingChanges {
                    places: self.places,
                    ..none
                },
            ),
            (
                "fundings",
                SettingChanges {
                    fundings: self.fundings,
                    ..none
                },
            ),
            (
                "limit",
                SettingChanges {
                    limit: self.limit,
                    ..none
                },
            ),
            (
                "margin",
                SettingChanges {
                    margin: self.margin,
                    ..none
                },
            ),
            (
                "ahead",
                SettingChanges {
                    ahead: self.ahead,
                    ..none
                },
            ),
            (
                "ceiling",
                SettingChanges {
                    ceiling: self.ceiling,
                    ..none
                },
            ),
            (
                "base",
                SettingChanges {
                    base: self.base,
                    ..none
                },
            ),
        ]
    }
}

/// Returns the settings after these changes.
///
/// # Errors
///
/// - [`Fault::BadSettings`] if no hub can have them: a code is malformed or occurs twice, or a
///   number is out of its range.
/// - [`Fault::Memory`] if an allocation fails.
pub fn changed_settings(
    alloc: Global,
    settings: &Settings,
    changes: &SettingChanges<'_>,
) -> Result<Settings, Fault>
    ensures settings { IfOk result (λ s. s ≡ changed changes.now settings.now) }
    ensures lawful { IfOk result (λ s. IsSettings s × AreFormed changes.now) }
    ensures fault { IfErr result (AreRefusedChanges changes.now settings.now) }
{
    let old = settings.numbers();
    let numbers = HubParameters {
        places: small(changes.places, old.places)?,
        fundings: small(changes.fundings, old.fundings)?,
        limit: medium(changes.limit, old.limit)?,
        margin: medium(changes.margin, old.margin)?,
        ahead: medium(changes.ahead, old.ahead)?,
        ceiling: changes.ceiling.unwrap_or(old.ceiling),
        base: changes.base.unwrap_or(old.base),
    };
    let codes = match changes.participants {
        Some(text) => parse_codes(alloc, text.as_bytes())?,
        None => settings.codes().to_vec(alloc)?,
    };
    Settings::check(codes, numbers)
}

/// Returns the number that is given, if any, or else the old one. Fails with `BadSettings` if it
/// has more than 16 bits.
fn small(given: Option<u64>, old: u16) -> Result<u16, Fault>
    ensures number { IfOk result (λ n. n ≡ unwrap_or given old) }
    ensures large { OnErr result (2 ^ 16 ≤ unwrap_or given old) }
    ensures fault { IsOkUnless result Fault.BadSettings }
{
    match given {
        Some(number) => u16::try_from(number).map_err(|_| Fault::BadSettings),
        None => Ok(old),
    }
}

/// The same, of 32 bits.
fn medium(given: Option<u64>, old: u32) -> Result<u32, Fault>
    ensures number { IfOk result (λ n. n ≡ unwrap_or given old) }
    ensures large { OnErr result (2 ^ 32 ≤ unwrap_or given old) }
    ensures fault { IsOkUnless result Fault.BadSettings }
{
    match given {
        Some(number) => u32::try_from(number).map_err(|_| Fault::BadSettings),
        None => Ok(old),
    }
}
