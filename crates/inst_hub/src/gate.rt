//! Gates: a hook in a call, for tests.

/// A hook that runs while a call holds the asker's lock. Tests use it to wait for other threads.
pub trait Gate {
    /// Runs once in each call, after the slot of the participant `who` answered and before its lock
    /// is given back.
    fn pass(&self, who: u8);
}

/// A gate that does nothing.
#[derive(Clone, Copy)]
pub struct Ungated;

impl Gate for Ungated {
    fn pass(&self, _who: u8) {}
}
