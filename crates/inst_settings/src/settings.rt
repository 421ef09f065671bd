//! The checked settings of a hub.
ghost use Rattle.std.specs.Prelude.{◌≡◌, ◌≢◌, ◌<◌, ◌≤◌, Some, true, false, [], length, get_or};
ghost use Rattle.std.specs.Prelude.{slice_get, IfOk, OnErr, IsOkUnless};
ghost use Rattle.std.specs.Option.{option_copied};
ghost use Rattle.inst_base.specs.Cents.{is_amount};

use crate::codes::{are_different, index_of};
use crate::finder::{Finder, Holders};
use crate::hub_parameters::HubParameters;
use crate::ranges::{
    MOST_AHEAD, MOST_BASE, MOST_CEILING, MOST_FUNDINGS, MOST_LIMIT, MOST_PARTICIPANTS, MOST_PLACES,
};
use inst_base::{Code, Fault};
use std::alloc::AllocError;
use std::marker::Model;

/// The settings of a hub, with all numbers in their ranges and no two equal codes.
///
/// ```text
/// let codes = vec![in alloc; Code::new("AAAADEFF")?, Code::new("BBBBFRPP")?]?;
/// let numbers = HubParameters { places: 1_024, ..HubParameters::DEFAULT };
/// let settings = Settings::check(codes, numbers)?;
/// settings.index_of(&Code::new("BBBBFRPP")?) // Some(1)
/// ```
#[derive(Drop)]
pub struct Settings {
    codes: Vec<Code>,
    finder: Finder,
    numbers: HubParameters,
}

impl Model for Settings {
    ghost use Rattle.inst_settings.specs.Settings.{HubSettings};
    ghost use Rattle.inst_settings.specs.Lawful.{IsSettings, settings_from};
    ghost use Rattle.inst_settings.specs.Finder.{TellsAll};

    ghost Value = { HubSettings };

    ghost view = { λ s. settings_from s.codes.items s.numbers };

    ghost invariant = { λ s. IsSettings (settings_from s.codes.items s.numbers)
        × TellsAll s.codes.items s.finder.table };
}

impl Settings {
    ghost use Rattle.inst_settings.specs.Settings.{participants, is_participant, is_within_ceiling};
    ghost use Rattle.inst_settings.specs.Codes.{index_of};
    ghost use Rattle.inst_settings.specs.Lawful.{IsSettings, numbers_of, settings_from};

    /// Makes settings of these codes and numbers. Participants are numbered from 0 in the order of
    /// the codes. The codes are compared pairwise; nothing is allocated.
    ///
    /// # Errors
    ///
    /// [`Fault::BadSettings`] if a number is outside its range (see [`HubParameters`]), there are
    /// no codes or more than 256, or two codes are equal.
    pub fn check(codes: Vec<Code>, numbers: HubParameters) -> Result<Settings, Fault>
        ensures ok { IfOk result (λ s. IsSettings s × (s ≡ settings_from codes.items numbers)) }
        ensures err { OnErr result (¬ IsSettings (settings_from codes.items numbers)) }
        ensures only { IsOkUnless result Fault.BadSettings }
    {
        let HubParameters {
            places,
            fundings,
            limit,
            margin,
            ahead,
            ceiling,
            base,
        } = numbers;
        if codes.is_empty() || codes.len() > MOST_PARTICIPANTS || !are_different(&codes) {
            return Err(Fault::BadSettings);
        }
        if places == 0 || places > MOST_PLACES || fundings == 0 || fundings > MOST_FUNDINGS {
            return Err(Fault::BadSettings);
        }
        if limit == 0 || limit > MOST_LIMIT || margin >= limit || ahead > MOST_AHEAD {
            return Err(Fault::BadSettings);
        }
        if ceiling == 0 || ceiling > MOST_CEILING || base > MOST_BASE {
            return Err(Fault::BadSettings);
        }
        let finder = Finder::new(&codes);
        Ok(Settings {
            codes,
            finder,
            numbers,
        })
    }

    /// Copies the settings.
    ///
    /// # Errors
    ///
    /// [`AllocError`] if the codes can't be copied.
    pub fn copy(&self) -> Result<Settings, AllocError>
        ensures ok { IfOk result (λ s. s ≡ self.now) }
        ensures lawful { IsSettings self.now }
    {
        Ok(Settings {
            codes: self.codes.clone()?,
            finder: self.finder,
            numbers: self.numbers,
        })
    }

    /// Returns the number of the participant with this code, or `None`. Most codes cost one table
    /// look-up, known or not; if several participants share the code's mark, all codes are
    /// searched.
    pub fn index_of(&self, code: &Code) -> Option<u8>
        ensures { result ≡ index_of code.now self.now.codes }
    {
        match self.finder.holders(code) {
            Holders::Nobody => None,
            Holders::Only(number) => self.has_at(number, code).then_some(number),
            Holders::Several => index_of(&self.codes, code).map(|index| index as u8),
        }
    }

    /// Returns `true` if the participant with this number has this code.
    #[inline(always)]
    fn has_at(&self, number: u8, code: &Code) -> bool
        ensures here { result ≡ true → Some number ≡ index_of code.now self.now.codes }
        ensures elsewhere { result ≡ false → number < length self.now.codes
            → get_or self.now.codes number [] ≢ code.now }
    {
        let number = usize::from(number);
        number < self.codes.len() && self.codes[number] == *code
    }

    /// Returns the code of the participant with this number, or `None` if there is no such
    /// participant.
    pub fn code(&self, index: u8) -> Option<&Code>
        ensures { option_copied result ≡ slice_get self.now.codes index }
    {
        self.codes.get(usize::from(index))
    }

    /// Returns the codes of the participants, by number.
    pub fn codes(&self) -> &[Code]
        ensures { result.now ≡ self.now.codes }
    {
        &self.codes
    }

    /// Returns the number of participants, 1 to 256.
    pub fn participants(&self) -> u16
        ensures value { result ≡ participants self.now }
        ensures some { 1 ≤ result }
        ensures most { result ≤ MOST_PARTICIPANTS }
    {
        self.codes.len() as u16
    }

    /// Returns `true` if a participant has this number.
    pub fn has_participant(&self, number: u8) -> bool
        ensures { result ≡ is_participant self.now number }
    {
        usize::from(number) < self.codes.len()
    }

    /// Returns the settings without the participants.
    pub fn numbers(&self) -> HubParameters
        ensures { result ≡ numbers_of self.now }
    {
        self.numbers
    }

    /// Returns the most live transfers of an originator, 1 to 1,024.
    pub fn places(&self) -> u16
        ensures value { result ≡ self.now.places }
        ensures some { 1 ≤ result }
        ensures most { result ≤ MOST_PLACES }
    {
        self.numbers.places
    }

    /// Returns the most fund and defund commands that are kept for a participant between two
    /// openings, 1 to 1,024.
    pub fn fundings(&self) -> u16
        ensures value { result ≡ self.now.fundings }
        ensures some { 1 ≤ result }
        ensures most { result ≤ MOST_FUNDINGS }
    {
        self.numbers.fundings
    }

    /// Returns the time from a transfer's time stamp to its deadline, in milliseconds.
    pub fn limit(&self) -> u32
        ensures value { result ≡ self.now.limit }
        ensures some { 1 ≤ result }
        ensures most { result ≤ MOST_LIMIT }
    {
        self.numbers.limit
    }

    /// Returns the cut-off before the deadline, within which no transfer is accepted, in
    /// milliseconds.
    pub fn margin(&self) -> u32
        ensures value { result ≡ self.now.margin }
        ensures below { result < self.now.limit }
    {
        self.numbers.margin
    }

    /// Returns how far a time stamp may be after the clock reading, in milliseconds.
    pub fn ahead(&self) -> u32
        ensures value { result ≡ self.now.ahead }
        ensures most { result ≤ MOST_AHEAD }
    {
        self.numbers.ahead
    }

    /// Returns the largest amount of a command, in cents.
    pub fn ceiling(&self) -> u64
        ensures value { result ≡ self.now.ceiling }
        ensures some { 1 ≤ result }
        ensures most { result ≤ MOST_CEILING }
    {
        self.numbers.ceiling
    }

    /// Returns `true` if a command may have this amount: 1 cent to the ceiling.
    pub fn allows(&self, cents: u64) -> bool
        ensures value { result ≡ is_within_ceiling self.now cents }
        ensures amount { result ≡ true → is_amount cents ≡ true }
    {
        (1..=self.numbers.ceiling).contains(&cents)
    }

    /// Returns the absolute milliseconds from which moments are counted.
    pub fn base(&self) -> u64
        ensures value { result ≡ self.now.base }
        ensures most { result ≤ MOST_BASE }
    {
        self.numbers.base
    }
}
