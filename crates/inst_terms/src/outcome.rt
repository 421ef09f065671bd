//! The outcome word of a place.
ghost use Rattle.std.specs.Prelude.{◌≡◌, ◌<◌, Some, ◌↔◌, IsTrue};
ghost use Rattle.inst_base.specs.Moment.{is_moment};
ghost use Rattle.inst_terms.specs.declared.word.Word.{Word};
ghost use Rattle.inst_terms.specs.Word.{IsWord, HasWordForm, number, word_number, reason_room};
ghost use Rattle.inst_terms.specs.Word.{kinds};

use crate::Word;
use crate::reason::{pack_reason, read_reason};
use inst_base::Moment;
use inst_command::Outcome;

// The kinds of word, in its two lowest bits.
const PENDING: u64 = 0;

const ACCEPTED: u64 = 1;

const REJECTED: u64 = 2;

const TIMED_OUT: u64 = 3;

const KINDS: u64 = 4;

/// One more than the largest number in the 21 bits of the reason.
const REASON_ROOM: u64 = 2_097_152;

/// Returns the number of an outcome word: 0 if the place is unused. Different words have different
/// numbers, provided that a pending deadline is at least 1.
pub fn pack_outcome(word: &Word) -> u64
    ensures number { result ≡ word_number word.now }
    ensures form { HasWordForm word.now }
{
    match word {
        Word::Unused => 0,
        Word::Pending(deadline) => number(deadline.past_base(), 0, PENDING),
        Word::Decided(outcome, at) => {
            let at = at.past_base();
            match outcome {
                Outcome::Accepted => number(at, 0, ACCEPTED),
                Outcome::Rejected(reason) => number(at, pack_reason(reason), REJECTED),
                Outcome::TimedOut => number(at, 0, TIMED_OUT),
            }
        }
    }
}

/// Returns the outcome word with this number, or `None` if no place has such a word: a pending one
/// with moment 0 or with a reason, an accepted or timed out one with a reason, or a rejected one
/// whose reason is 36^4 or more.
pub fn read_outcome(word: u64) -> Option<Word>
    ensures { (read : Word) → (result ≡ Some read) ↔ (IsWord read × (word_number read ≡ word)) }
{
    if word == 0 {
        return Some(Word::Unused);
    }
    let kind = word % KINDS;
    let reason = word / KINDS % REASON_ROOM;
    let at = Moment::new(0, word / KINDS / REASON_ROOM).ok()?;
    if kind == REJECTED {
        let reason = read_reason(reason)?;
        return Some(Word::Decided(Outcome::Rejected(reason), at));
    }
    if reason != 0 {
        return None;
    }
    match kind {
        ACCEPTED => Some(Word::Decided(Outcome::Accepted, at)),
        TIMED_OUT => Some(Word::Decided(Outcome::TimedOut, at)),
        _ => Some(Word::Pending(at)),
    }
}

/// Returns the number with these three parts, the moment in the highest bits.
fn number(moment: u64, reason: u64, kind: u64) -> u64
    requires moment { IsTrue (is_moment moment) }
    requires reason { reason < reason_room }
    requires kind { kind < kinds }
    ensures { result ≡ number moment reason kind }
{
    (moment * REASON_ROOM + reason) * KINDS + kind
}
