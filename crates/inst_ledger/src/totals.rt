//! Running totals of a history's fundings.
ghost use Rattle.std.specs.Prelude.{◌≡◌, ◌<◌, ◌^◌, ◌+◌};
ghost use Rattle.inst_ledger.specs.inner.Beside.{totals_with};

/// The running totals of a history's fundings, in cents.
#[derive(Clone, Copy)]
pub(crate) struct Totals {
    pub(crate) funded: u128,
    pub(crate) defunded: u128,
}

impl Totals {
    /// Returns the totals of an empty history.
    pub(crate) fn new() -> Self
        ensures { result ≡ record { funded = 0; defunded = 0 } }
    {
        Totals {
            funded: 0,
            defunded: 0,
        }
    }

    /// Adds the amount of a fund or defund command.
    pub(crate) fn keep(&mut self, is_defunding: bool, cents: u64)
        requires funded { self.old.funded + cents < 2 ^ 128 }
        requires defunded { self.old.defunded + cents < 2 ^ 128 }
        ensures { self.new ≡ totals_with is_defunding cents self.old }
    {
        if is_defunding {
            self.defunded += u128::from(cents);
        } else {
            self.funded += u128::from(cents);
        }
    }
}
