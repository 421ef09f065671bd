//! Counts over a history that a ledger doesn't have.
ghost use Rattle.std.specs.Prelude.{◌≡◌, ℕ, ◌+◌, ◌-◌, ◌<◌, ◌≤◌, ◌^◌, slice_index, slice_set};
ghost use Rattle.inst_settings.specs.declared.ranges.TheConstants.{MOST_PARTICIPANTS};

use inst_settings::MOST_PARTICIPANTS;

/// Counts of forwarded transfers by their originator's number, and the number of openings.
#[derive(Clone, Copy, Drop)]
pub(crate) struct LiveCounts {
    /// The live ones.
    pub(crate) live: [usize; MOST_PARTICIPANTS],
    /// Those without a booked outcome.
    pub(crate) waiting: [usize; MOST_PARTICIPANTS],
    pub(crate) openings: usize,
}

impl LiveCounts {
    /// Returns the counts of an empty history.
    pub(crate) fn new() -> LiveCounts
        ensures live { (from : ℕ) → from < MOST_PARTICIPANTS → slice_index result.live from ≡ 0 }
        ensures waiting { (from : ℕ) → from < MOST_PARTICIPANTS →
            slice_index result.waiting from ≡ 0 }
        ensures openings { result.openings ≡ 0 }
    {
        LiveCounts {
            live: [0; MOST_PARTICIPANTS],
            waiting: [0; MOST_PARTICIPANTS],
            openings: 0,
        }
    }

    /// Counts a transfer forwarded from this originator.
    pub(crate) fn arrive(&mut self, from: u8)
        requires live { slice_index self.old.live from + 1 < 2 ^ 64 }
        requires waiting { slice_index self.old.waiting from + 1 < 2 ^ 64 }
        ensures live { self.new.live
            ≡ slice_set self.old.live from (slice_index self.old.live from + 1) }
        ensures waiting { self.new.waiting
            ≡ slice_set self.old.waiting from (slice_index self.old.waiting from + 1) }
        ensures openings { self.new.openings ≡ self.old.openings }
    {
        self.live[usize::from(from)] += 1;
        self.waiting[usize::from(from)] += 1;
    }

    /// Counts the booked outcome of a transfer from this originator.
    pub(crate) fn settle(&mut self, from: u8)
        requires { 1 ≤ slice_index self.old.waiting from }
        ensures live { self.new.live ≡ self.old.live }
        ensures waiting { self.new.waiting
            ≡ slice_set self.old.waiting from (slice_index self.old.waiting from - 1) }
        ensures openings { self.new.openings ≡ self.old.openings }
    {
        self.waiting[usize::from(from)] -= 1;
    }

    /// Counts an opening: only transfers without a booked outcome stay live.
    pub(crate) fn begin(&mut self)
        requires { self.old.openings + 1 < 2 ^ 64 }
        ensures live { self.new.live ≡ self.old.waiting }
        ensures waiting { self.new.waiting ≡ self.old.waiting }
        ensures openings { self.new.openings ≡ self.old.openings + 1 }
    {
        let waiting = self.waiting;
        self.live = waiting;
        self.openings += 1;
    }
}
