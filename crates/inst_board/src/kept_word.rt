//! The outcome word of one place of a plain board.
ghost use Rattle.std.specs.Prelude.{◌≡◌, ℕ};
ghost use Rattle.inst_board.specs.Standing.{IsLawful, word_of};
ghost use Rattle.inst_board.specs.Plain.{standing_of};

use crate::Kept;
use inst_terms::{Word, pack_outcome, read_outcome};
use std::marker::Model;
use std::snapshot::Snapshot;

/// The outcome word of a place, in eight bytes.
///
/// Contracts see all that is kept of the place. At run time the terms are stored elsewhere, and the
/// deadline of a decided place isn't stored, since nothing reads it.
#[derive(Drop)]
pub(crate) struct KeptWord {
    number: u64,
    /// The value that contracts see; it takes no space.
    kept: Snapshot<Kept>,
}

impl Model for KeptWord {
    ghost use Rattle.std.specs.Prelude.{◌≡◌};
    ghost use Rattle.inst_terms.specs.Word.{IsWord, word_number};
    ghost use Rattle.inst_board.specs.declared.plain.Kept.{Kept};
    ghost use Rattle.inst_board.specs.Standing.{word_of};
    ghost use Rattle.inst_board.specs.Plain.{standing_of};

    ghost Value = { Kept };

    ghost view = { λ word. word.kept.value };

    ghost invariant = { λ word. IsWord (word_of (standing_of word.kept.value))
        × (word_number (word_of (standing_of word.kept.value)) ≡ word.number) };
}

impl KeptWord {
    /// Makes the word of a place with this content.
    #[inline(always)]
    pub(crate) fn new(kept: &Kept) -> KeptWord
        requires { (margin : ℕ) × IsLawful margin (standing_of kept.now) }
        ensures { result ≡ kept.now }
    {
        KeptWord {
            number: pack_outcome(&word_of(kept)),
            kept: Snapshot::of(kept),
        }
    }

    /// Returns the content of the word.
    #[inline(always)]
    pub(crate) fn says(&self) -> Word
        ensures { result ≡ word_of (standing_of self.now) }
    {
        match read_outcome(self.number) {
            Some(word) => word,
            None => unreachable!(),
        }
    }
}

/// Returns the content of the word of a place with this content.
#[inline(always)]
fn word_of(kept: &Kept) -> Word
    ensures { result ≡ word_of (standing_of kept.now) }
{
    match kept {
        Kept::Unused | Kept::Written(_) => Word::Unused,
        Kept::Pending(_, deadline) => Word::Pending(*deadline),
        Kept::Decided(_, _, outcome, at) => Word::Decided(*outcome, *at),
    }
}
