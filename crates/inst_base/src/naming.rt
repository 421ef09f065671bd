//! A way to name a type to the verifier.

/// Names the type `T` to the verifier; does nothing at run time.
///
/// The verifier loads a foreign enum nested in a type only if the function names it.
#[inline(always)]
pub const fn mention<T>() {}
