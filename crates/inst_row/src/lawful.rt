//! The law and the history of a value behind a lock.
ghost use Rattle.std.specs.Prelude.{ℕ, List};

/// The law that a row keeps for its values, and their history. Only contracts use it; it has no
/// value at run time.
pub trait Lawful<T, E, K> {
    // The law of the value behind the lock with this number, in a row opened with this key.
    ghost law: { K → ℕ → T → Type 0 };

    // The events of a value, oldest first. It only grows.
    ghost history: { T → List E };
}
