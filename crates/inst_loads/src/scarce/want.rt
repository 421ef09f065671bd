//! What the rows share: the hoard, and the counts of calls and failures.
use crate::flaw::Flaw;
use crate::hoard::Hoard;

/// The growth of the memory that is left from one try to the next, in bytes.
pub(crate) const QUANTUM: usize = 16;

/// The most tries of a call.
pub(crate) const MOST_TRIES: usize = 4_096;

/// Whether a call allocates.
#[derive(Clone, Copy)]
pub(crate) enum Need {
    /// It allocates, so it must fail at least once.
    Takes,
    /// It promises not to allocate.
    TakesNone,
    /// It may find spare capacity from an earlier allocation.
    MayTake,
}

/// How many calls succeeded, and how many tries failed to allocate before.
#[derive(Clone, Copy)]
pub(crate) struct Tries {
    pub(crate) answered: u32,
    pub(crate) refused: usize,
    /// The flaw of the first call that failed to allocate though it must not, or never failed
    /// though it must.
    pub(crate) flaw: Option<Flaw>,
}

impl Tries {
    pub(crate) fn new() -> Tries {
        Tries {
            answered: 0,
            refused: 0,
            flaw: None,
        }
    }

    /// Counts a call that succeeded after `refused` failures.
    pub(crate) fn count(&mut self, need: Need, refused: usize) {
        self.answered = self.answered.saturating_add(1);
        self.refused = self.refused.saturating_add(refused);
        let flaw = match need {
            Need::Takes if refused == 0 => Flaw::NeverRefused,
            Need::TakesNone if refused > 0 => Flaw::Needless,
            _ => return,
        };
        if self.flaw.is_none() {
            self.flaw = Some(flaw);
        }
    }
}

/// The hoard that takes the memory, and the counts.
#[derive(Drop)]
pub(crate) struct Want {
    pub(crate) hoard: Hoard,
    pub(crate) tries: Tries,
}

/// Returns `OtherAnswer` unless the answer is right.
pub(crate) fn check_answer(is_right: bool) -> Result<(), Flaw> {
    if !is_right {
        return Err(Flaw::OtherAnswer);
    }
    Ok(())
}
