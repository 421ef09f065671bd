//! Short ASCII texts, stored inline.
ghost use Rattle.std.specs.Prelude.{◌≡◌, ◌≤◌, length, nat_eq};
ghost use Rattle.std.specs.Cmp.{partial_equiv_from_equiv};
ghost use Rattle.std.specs.Cmp.Lexicographic.{pointwise, nat_list_eq_equiv};
ghost use Rattle.std.specs.Cmp.Rules.{hashing};
ghost use Rattle.std.specs.Hash as fed;
ghost use Rattle.std.proofs.Common.{rules};
ghost use Rattle.std.specs.Str.{IsAscii};

use std::hash::{Hash, Hasher};
use std::marker::Model;
use std::{fmt, str};

/// A text of at most `N` ASCII bytes, stored inline. Unused bytes are 0, so equal texts are equal
/// values.
#[derive(Clone, Copy)]
pub(crate) struct ShortText<const N: usize> {
    bytes: [u8; N],
    len: u8,
}

impl<const N: usize> Model for ShortText<N> {
    ghost use Rattle.std.specs.Prelude.{ℕ, List, ◌++◌, ◌-◌, ◌≤◌, length, take, replicate};
    ghost use Rattle.std.proofs.Common.{sym, ap, subst, ◌∙◌, take-append-drop, length-take-le};
    ghost use Rattle.inst_base.specs.inner.ShortText.{IsPaddedText};

    ghost Value = { List ℕ };

    ghost view = { λ text. take text.len text.bytes };

    ghost invariant = { λ text. IsPaddedText N text.bytes text.len };

    ghost inverse = { λ xs. record { bytes = xs ++ replicate (N - length xs) 0; len = length xs } };

    // The text has `len` bytes; padded with zeros it is the array again.
    ghost inverse_ok = { λ text kept i.
        let within = subst (λ (n : ℕ). text.len ≤ n) (sym kept.room_is) kept.within in
        let same = length-take-le text.len text.bytes within in
        let filled = ap (λ (n : ℕ). take text.len text.bytes ++ replicate (N - n) 0) same in
        let zeros = ap (λ (rest : List ℕ). take text.len text.bytes ++ rest) (sym kept.zeros) in
        record {
          bytes = (filled ∙ zeros ∙ take-append-drop text.len text.bytes) i;
          len = same i;
        } };
}

impl<const N: usize> ShortText<N> {
    /// Copies `text`.
    pub(crate) fn new(text: &str) -> Self
        requires fits { length text.now ≤ N }
        requires small { N ≤ 255 }
        requires ascii { IsAscii text.now }
        ensures { result ≡ text.now }
    {
        let mut bytes = [0; N];
        bytes[..text.len()].copy_from_slice(text.as_bytes());
        ShortText {
            bytes,
            len: text.len() as u8,
        }
    }

    /// Returns the text.
    pub(crate) fn as_str(&self) -> &str
        ensures value { result.now ≡ self.now }
        ensures fits { length result.now ≤ N }
    {
        unsafe { str::from_utf8_unchecked(&self.bytes[..self.len as usize]) }
    }
}

impl<const N: usize> PartialEq for ShortText<N> {
    ghost eq = { pointwise nat_eq };

    ghost laws = { partial_equiv_from_equiv nat_list_eq_equiv };

    fn eq(&self, other: &Self) -> bool {
        self.as_str() == other.as_str()
    }
}

impl<const N: usize> Eq for ShortText<N> {
    ghost laws = { nat_list_eq_equiv };
}

impl<const N: usize> Hash for ShortText<N> {
    ghost hash_input = { fed.str };

    ghost respects_eq = { Prim.search (hashing, rules) };

    fn hash<H: Hasher>(&self, state: &mut H) {
        self.as_str().hash(state);
    }
}

impl<const N: usize> fmt::Debug for ShortText<N> {
    fn fmt<W: fmt::Write>(&self, f: &mut fmt::Formatter<W>) -> fmt::Result {
        write!(f, "{:?}", self.as_str())
    }
}
