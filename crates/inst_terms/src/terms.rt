//! The terms words of a place.
ghost use Rattle.std.specs.Prelude.{◌≡◌, Some, ◌↔◌};
ghost use Rattle.inst_terms.specs.declared.terms.Terms.{Terms};
ghost use Rattle.inst_terms.specs.Terms.{IsTerms, words_of};

use crate::identifier::{pack_identifier, read_identifier};
use inst_base::{Cents, Ident};

/// The factor of the cents in the first terms word, so the number of beneficiaries that it can
/// name. A hub has no more participants.
pub const BENEFICIARIES: u64 = 256;

/// The contents of a place's terms words: the amount, the originator's identifier and the
/// beneficiary's number of a transfer. Its size is 48 bytes.
///
/// ```text
/// let terms = Terms { cents: Cents::new(50_000)?, id: Ident::new("T1")?, to: 1 };
/// pack(&terms)                           // [12800001, 6356, 0, 0, 0]
/// unpack(&[12800001, 6356, 0, 0, 0])     // Some(terms)
/// ```
#[derive(Clone, Copy, Debug, PartialEq, Eq)]
pub struct Terms {
    pub cents: Cents,
    pub id: Ident,
    pub to: u8,
}

/// Returns the five terms words. Different terms have different words.
pub fn pack(terms: &Terms) -> [u64; 5]
    ensures words { result ≡ words_of terms.now }
    ensures form { IsTerms terms.now }
{
    let &Terms { to, cents, id } = terms;
    let [first, second, third, fourth] = pack_identifier(&id);
    [
        cents.get() * BENEFICIARIES + u64::from(to),
        first,
        second,
        third,
        fourth,
    ]
}

/// Returns the terms with these words, or `None` if no terms have them: the amount isn't 1 to
/// 99,999,999,999 cents, a word of the identifier is 2^63 or more, or the characters aren't an
/// identifier followed by zeros.
pub fn unpack(words: &[u64; 5]) -> Option<Terms>
    ensures { (terms : Terms) → (result ≡ Some terms) ↔
        (IsTerms terms × (words_of terms ≡ words.now)) }
{
    let &[money, first, second, third, fourth] = words;
    let to = (money % BENEFICIARIES) as u8;
    let cents = Cents::new(money / BENEFICIARIES).ok()?;
    let id = read_identifier(&[first, second, third, fourth])?;
    Some(Terms { to, cents, id })
}
