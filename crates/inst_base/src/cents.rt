//! Amounts in cents.
ghost use Rattle.std.specs.Prelude.{◌≡◌, ℕ, ◌≤◌};
ghost use Rattle.inst_base.specs.Cents.{cents_of};
ghost use Rattle.inst_base.specs.declared.cents.TheConstants.{MOST_CENTS};

use crate::Fault;
use std::marker::Model;

/// The largest amount of a transfer or funding, in cents: 999,999,999.99 euro.
pub const MOST_CENTS: u64 = 99_999_999_999;

/// An amount in whole cents, 1 to 99,999,999,999.
#[derive(Clone, Copy, Debug, PartialEq, Eq)]
pub struct Cents {
    cents: u64,
}

impl Model for Cents {
    ghost Value = { ℕ };

    ghost view = { λ amount. amount.cents };

    ghost invariant = { λ amount. (1 ≤ amount.cents) × (amount.cents ≤ MOST_CENTS) };

    ghost inverse = { λ cents. record { cents = cents } };
}

impl Cents {
    /// Makes an amount of `cents` cents.
    ///
    /// # Errors
    ///
    /// [`Fault::BadAmount`] if `cents` is outside 1 to 99,999,999,999.
    pub fn new(cents: u64) -> Result<Cents, Fault>
        ensures { result ≡ cents_of cents }
    {
        if cents == 0 || cents > MOST_CENTS {
            return Err(Fault::BadAmount);
        }
        Ok(Cents { cents })
    }

    /// Returns the number of cents.
    pub fn get(self) -> u64
        ensures value { result ≡ self }
        ensures above { 1 ≤ result }
        ensures within { result ≤ MOST_CENTS }
    {
        self.cents
    }
}
