//! Encoding and decoding of the words of a place.
ghost use Rattle.std.specs.Prelude.{◌≡◌, ℕ, IsTrue};
ghost use Rattle.inst_base.specs.Moment.{is_moment};
ghost use Rattle.inst_terms.specs.Terms.{IsTerms, words_of};
ghost use Rattle.inst_terms.specs.Word.{number, outcome_number, IsOutcome};
ghost use Rattle.inst_board.specs.Standing.{Standing, word_of};
ghost use Rattle.inst_cell.specs.Rule.{encode, IsShowable};

use inst_base::Moment;
use inst_command::Outcome;
use inst_terms::{Terms, Word, pack, pack_outcome, read_outcome};

/// Returns the outcome word of a place that is pending until the deadline.
pub(crate) fn pending_word(deadline: Moment) -> u64
    ensures value { result ≡ number deadline 0 0 }
    ensures moment { IsTrue (is_moment deadline) }
{
    pack_outcome(&Word::Pending(deadline))
}

/// Returns the outcome word of a place that was decided at the clock reading `at`.
pub(crate) fn decided_word(outcome: &Outcome, at: Moment) -> u64
    ensures value { result ≡ outcome_number outcome.now at }
    ensures word { IsOutcome outcome.now × IsTrue (is_moment at) }
{
    pack_outcome(&Word::Decided(*outcome, at))
}

/// Decodes the outcome word of a place.
pub(crate) fn read_word(word: u64) -> Word
    requires { (margin : ℕ) × (p : Standing) × IsShowable margin p × (word ≡ encode p) }
    ensures { (margin : ℕ) (p : Standing) → IsShowable margin p → word ≡ encode p →
        result ≡ word_of p }
{
    match read_outcome(word) {
        Some(read) => read,
        None => unreachable!(),
    }
}

/// Encodes terms as five words.
pub(crate) fn pack_terms(terms: &Terms) -> [u64; 5]
    ensures value { result ≡ words_of terms.now }
    ensures form { IsTerms terms.now }
{
    pack(terms)
}
