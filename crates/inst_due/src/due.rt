//! The set of deadlines.
ghost use Rattle.std.specs.Prelude.{◌≡◌, ◌≤◌, [], true, false, OnOk, OnErr};
ghost use Rattle.std.specs.Bool.{OnFalse};
ghost use Rattle.std.specs.List.{insert};
ghost use Rattle.std.specs.VecDeque.{deque_len};
ghost use Rattle.inst_base.specs.TimeLimit.{is_due};
ghost use Rattle.inst_due.specs.Due.{has, comes_before, comes_after, Adds, TakesOut, IsLeast};
ghost use Rattle.inst_due.specs.inner.Due.{IsRankOf};

use inst_base::Moment;
use std::alloc::{AllocError, AllocFailed, Global};
use std::cmp::Ordering;
use std::collections::VecDeque;
use std::marker::Model;

/// An originator's unbooked transfers in the order in which they are due: a set of pairs of a
/// deadline and the index of a place, ordered by deadline, then by index.
///
/// The pairs are in one sorted sequence. Deadlines come nearly in order, so most pairs are added at
/// its end and taken out at either end, which is where it is fast.
///
/// ```text
/// let mut due = Due::new(alloc);
/// due.add(deadline, 0)?;      // at 11,000 ms
/// due.first_due(at_10_999)    // None
/// due.first_due(at_11_000)    // Some((deadline, 0))
/// due.take_out(deadline, 0)   // true
/// ```
#[derive(Drop)]
pub struct Due {
    pairs: VecDeque<(Moment, u16)>,
}

impl Model for Due {
    ghost use Rattle.std.specs.Prelude.{ℕ, List};
    ghost use Rattle.inst_due.specs.inner.Due.{IsRising};

    ghost Value = { List (ℕ × ℕ) };

    ghost view = { λ due. due.pairs.items };

    ghost invariant = { λ due. IsRising due.pairs.items };
}

impl Due {
    /// Makes an empty set; doesn't allocate.
    pub fn new(alloc: Global) -> Self
        ensures { result ≡ [] }
    {
        Due {
            pairs: VecDeque::new(alloc),
        }
    }

    /// Adds a pair; does nothing if it is there.
    ///
    /// Cost: a search logarithmic in the number of pairs, then a move of the pairs on the shorter
    /// side of the new one, none at either end. If the capacity is used up, all pairs may move.
    ///
    /// # Errors
    ///
    /// [`AllocError`] if an allocation fails, which can't happen for a pair that is there. The set
    /// is unchanged.
    pub fn add(&mut self, deadline: Moment, index: u16) -> Result<(), AllocError>
        ensures ok { OnOk result (Adds self.old self.new deadline index) }
        ensures present { has self.old deadline index ≡ true → self.new ≡ self.old }
        ensures err { OnErr result (self.new ≡ self.old) }
        ensures absent { OnErr result (has self.old deadline index ≡ false) }
    {
        let pair = (deadline, index);
        if let Err(place) = self.place_of(&pair) {
            put(&mut self.pairs, place, pair)?;
        }
        Ok(())
    }

    /// Removes a pair, and returns `true` if it was there.
    ///
    /// Cost: a search logarithmic in the number of pairs, then a move of the pairs on the shorter
    /// side, none at either end.
    pub fn take_out(&mut self, deadline: Moment, index: u16) -> bool
        ensures there { result ≡ has self.old deadline index }
        ensures taken_out { TakesOut self.old self.new deadline index }
        ensures unchanged { OnFalse result (self.new ≡ self.old) }
    {
        match self.place_of(&(deadline, index)) {
            // Most pairs are the first when they are removed, and a pop takes fewer steps.
            Ok(0) => self.pairs.pop_front().is_some(),
            Ok(place) => self.pairs.remove(place).is_some(),
            Err(_) => false,
        }
    }

    /// Returns the first pair if its deadline isn't after `at`, else `None`. Cost: constant.
    pub fn first_due(&self, at: Moment) -> Option<(Moment, u16)>
        ensures { IsLeast self.now (λ pair. is_due pair.0 at) result }
    {
        let first = *self.pairs.front()?;
        at.is_due(first.0).then_some(first)
    }

    /// Returns the first pair after this one, which needn't be in the set; the first of all for
    /// `None`. Cost: logarithmic in the number of pairs.
    pub fn next_after(&self, pair: Option<(Moment, u16)>) -> Option<(Moment, u16)>
        ensures { IsLeast self.now (comes_after pair) result }
    {
        match pair {
            None => Some(*self.pairs.front()?),
            Some(pair) => self.above(pair),
        }
    }

    /// Returns the first pair after this one.
    fn above(&self, pair: (Moment, u16)) -> Option<(Moment, u16)>
        ensures { IsLeast self.now (comes_before pair) result }
    {
        let place = self.pairs.partition_point(|other| *other <= pair);
        self.pairs.get(place).copied()
    }

    /// Returns the pair's index, or else the index where it would be inserted. Most pairs are at an
    /// end, so the ends are compared first.
    fn place_of(&self, pair: &(Moment, u16)) -> Result<usize, usize>
        ensures { IsRankOf self.now pair.now result }
    {
        let Some(last) = self.pairs.back() else {
            return Err(0);
        };
        match last.cmp(pair) {
            Ordering::Less => Err(self.pairs.len()),
            Ordering::Equal => Ok(self.pairs.len() - 1),
            Ordering::Greater if self.pairs.front() == Some(pair) => Ok(0),
            Ordering::Greater => self.pairs.binary_search(pair),
        }
    }
}

/// Inserts the pair at this index. Most pairs come last, where a push takes fewer steps.
fn put(
    row: &mut VecDeque<(Moment, u16)>,
    place: usize,
    pair: (Moment, u16),
) -> Result<(), AllocFailed<(Moment, u16)>>
    requires { place ≤ deque_len row.old }
    ensures ok { OnOk result (row.new.items ≡ insert row.old.items place pair) }
    ensures err { OnErr result (row.new.items ≡ row.old.items) }
{
    if place == row.len() {
        row.push_back(pair)
    } else {
        row.insert(place, pair)
    }
}
