//! Moments, and the rules of time as methods of [`Moment`].
ghost use Rattle.std.specs.Prelude.{◌≡◌, ℕ, ◌+◌, ◌≤◌, ◌^◌, true};
ghost use Rattle.inst_base.specs.Moment.{is_moment, moment_of};
ghost use Rattle.inst_base.specs.TimeLimit.{deadline_of, is_in_time, is_due, is_in_time_to_accept};
ghost use Rattle.inst_base.specs.TimeLimit.{is_ahead};
ghost use Rattle.inst_base.specs.declared.moment.TheConstants.{LAST};

use crate::Fault;
use std::marker::Model;

/// The last moment, in milliseconds since the base of a hub: 2^41 - 1, about 69 years.
pub const LAST: u64 = 2_199_023_255_551;

/// A moment of a hub, in milliseconds since its base, 0 to 2^41 - 1.
///
/// The base is the setting of that name, in milliseconds since an epoch that the embedding program
/// chooses. Moments of hubs with different bases can't be compared.
///
/// ```text
/// let stamp = Moment::new(1_000_000, 1_001_000)?;         // 1,000 ms since the base
/// let deadline = stamp.deadline(10_000);                  // 11,000 ms since the base
/// Moment::new(1_000_000, 1_010_999)?.is_in_time(deadline) // true
/// Moment::new(1_000_000, 1_011_000)?.is_due(deadline)     // true
/// ```
#[derive(Clone, Copy, Debug, PartialEq, Eq, PartialOrd, Ord)]
pub struct Moment {
    past_base: u64,
}

impl Model for Moment {
    ghost Value = { ℕ };

    ghost view = { λ moment. moment.past_base };

    ghost invariant = { λ moment. moment.past_base ≤ LAST };

    ghost inverse = { λ past_base. record { past_base = past_base } };
}

impl Moment {
    /// Makes the moment at `ms` milliseconds, for a hub whose base is `base`; both count from one
    /// epoch.
    ///
    /// # Errors
    ///
    /// [`Fault::BadMoment`] if `ms` is outside `base` to `base` + 2^41 - 1.
    pub fn new(base: u64, ms: u64) -> Result<Moment, Fault>
        ensures { result ≡ moment_of base ms }
    {
        if ms < base || ms - base > LAST {
            return Err(Fault::BadMoment);
        }
        Ok(Moment {
            past_base: ms - base,
        })
    }

    /// Returns the moment in milliseconds since the epoch, for a hub whose base is `base`.
    ///
    /// Requires `base` of at most 2^62.
    pub fn millis(self, base: u64) -> u64
        requires { base ≤ 2 ^ 62 }
        ensures { result ≡ base + self }
    {
        base + self.past_base
    }

    /// Returns the milliseconds since the base, 0 to 2^41 - 1.
    pub fn past_base(self) -> u64
        ensures value { result ≡ self }
        ensures within { result ≤ LAST }
    {
        self.past_base
    }

    /// Returns `true` if this time stamp plus `limit` milliseconds is at most 2^41 - 1.
    pub fn has_deadline(self, limit: u32) -> bool
        ensures { result ≡ is_moment (deadline_of limit self) }
    {
        self.past_base + u64::from(limit) <= LAST
    }

    /// Returns the deadline of a transfer with this time stamp: `limit` milliseconds later.
    ///
    /// Requires `has_deadline(limit)`.
    pub fn deadline(self, limit: u32) -> Moment
        requires { is_moment (deadline_of limit self) ≡ true }
        ensures { result ≡ deadline_of limit self }
    {
        Moment {
            past_base: self.past_base + u64::from(limit),
        }
    }

    /// Returns `true` if this clock reading is before the deadline.
    pub fn is_in_time(self, deadline: Moment) -> bool
        ensures { result ≡ is_in_time deadline self }
    {
        self.past_base < deadline.past_base
    }

    /// Returns `true` if a transfer with this deadline is due at this clock reading: it can only
    /// time out.
    pub fn is_due(self, deadline: Moment) -> bool
        ensures { result ≡ is_due deadline self }
    {
        !self.is_in_time(deadline)
    }

    /// Returns `true` if a confirmation at this clock reading is in time: more than `margin`
    /// milliseconds before the deadline.
    pub fn is_in_time_to_accept(self, margin: u32, deadline: Moment) -> bool
        ensures { result ≡ is_in_time_to_accept margin deadline self }
    {
        self.past_base + u64::from(margin) < deadline.past_base
    }

    /// Returns `true` if this time stamp is more than `ahead` milliseconds after the clock reading
    /// `at`.
    pub fn is_ahead(self, ahead: u32, at: Moment) -> bool
        ensures { result ≡ is_ahead ahead self at }
    {
        self.past_base > at.past_base + u64::from(ahead)
    }
}
