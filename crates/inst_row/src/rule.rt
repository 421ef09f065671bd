//! The rule of a row's table.
use crate::lawful::Lawful;
use crate::row_start::RowStart;
use crate::view::RowView;
use atomic_table::TableRule;
use std::marker::PhantomData;

/// The rule that holds of the locks and of all seats between any two steps of any threads.
///
/// The word of a lock is 0 while its value is in its slot and keeps its law. Otherwise a seat has
/// the lock; at 2 others may sleep until it is given back.
pub struct Guarding<L> {
    law: PhantomData<L>,
}

impl<T, E, K, L: Lawful<T, E, K>> TableRule<Option<T>, RowView<E, K>, RowStart<T, K>>
    for Guarding<L> {
    ghost use Rattle.inst_row.specs.Rule.{Guarded};
    ghost use Rattle.inst_row.specs.View.{first_row_view};

    ghost holds = { λ key s. Guarded L.law L.history key.about.value s };

    ghost first = { λ key. first_row_view L.history key.about.value key.values.value.items };
}
