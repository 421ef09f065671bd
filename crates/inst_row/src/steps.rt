//! The kinds of step on a row. Each type's contract says what the seat that takes the step learns.
use crate::lawful::Lawful;
use crate::view::RowView;
use atomic_table::{Join, Play, Split};
use std::marker::PhantomData;

/// The compare-exchange that takes a lock, or finds it taken.
pub struct LockTaking<L> {
    law: PhantomData<L>,
}

impl<T, E, K, L: Lawful<T, E, K>> Play<Option<T>, RowView<E, K>> for LockTaking<L> {
    ghost use Rattle.inst_row.specs.Steps.{takes_lock};

    ghost then = { takes_lock L.law L.history };
}

/// The compare-exchange that marks a lock as awaited.
pub struct Awaiting;

impl<T, E, K> Play<Option<T>, RowView<E, K>> for Awaiting {
    ghost use Rattle.inst_row.specs.Steps.{tells_nothing};

    ghost then = { tells_nothing };
}

/// The swap that gives a lock back.
pub struct Giving<L> {
    law: PhantomData<L>,
}

impl<T, E, K, L: Lawful<T, E, K>> Play<Option<T>, RowView<E, K>> for Giving<L> {
    ghost use Rattle.inst_row.specs.Steps.{gives_lock};

    ghost then = { gives_lock L.history };
}

/// The split that makes a new seat with one part, which has seen as much.
pub struct TellFront;

impl<E, K> Split<RowView<E, K>> for TellFront {
    ghost use Rattle.inst_row.specs.View.{informed_row_view, left_of};

    ghost left = { left_of };

    ghost right = { informed_row_view };
}

/// The join of two seats into one that has the parts of both and has seen what both had seen.
pub struct UniteSeats;

impl<E, K> Join<RowView<E, K>> for UniteSeats {
    ghost use Rattle.inst_row.specs.View.{united_row_view, nobody};

    ghost both = { united_row_view };

    ghost spent = { nobody };
}
