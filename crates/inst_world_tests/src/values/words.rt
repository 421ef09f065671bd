//! The words of a place, packed and unpacked, against numbers computed elsewhere.
use crate::comparing::{same, same_at};
use inst_base::{Cents, Fault, Ident, Moment, Reason, mention};
use inst_command::Outcome;
use inst_terms::{Terms, Word, pack, pack_outcome, read_outcome, unpack};
use std::process::Abort;

fn terms(to: u8, cents: u64, id: &str) -> Result<Terms, Fault> {
    Ok(Terms {
        to,
        cents: Cents::new(cents)?,
        id: Ident::new(id)?,
    })
}

fn moment(ms: u64) -> Result<Moment, Fault> {
    Moment::new(0, ms)
}

fn rejected(reason: &str, at: u64) -> Result<Word, Fault> {
    Ok(Word::Decided(Outcome::Rejected(Reason::new(reason)?), moment(at)?))
}

fn both_ways_terms(rt: &impl Abort, terms: Terms, words: [u64; 5]) {
    same(rt, pack(&terms), words);
    same(rt, unpack(&words), Some(terms));
}

fn both_ways_word(rt: &impl Abort, word: Word, number: u64) {
    same(rt, pack_outcome(&word), number);
    same(rt, read_outcome(number), Some(word));
}

#[test]
fn the_words_of_terms(rt: HostRuntime) -> Result<(), Fault> {
    both_ways_terms(&rt, terms(1, 50_000, "T1")?, [12_800_001, 6356, 0, 0, 0]);
    both_ways_terms(
        &rt,
        terms(255, 99_999_999_999, "T1")?,
        [25_599_999_999_999, 6356, 0, 0, 0],
    );
    both_ways_terms(
        &rt,
        terms(0, 1, "ABCDEFGHIJKLMNOPQRSTUVWXYZabcdefghi")?,
        [
            256,
            5_301_051_446_564_806_977,
            5_954_676_236_578_137_546,
            7_040_646_590_819_035_731,
            59_570_708_593_324_514,
        ],
    );
    Ok(())
}

#[test]
fn the_outcome_words(rt: HostRuntime) -> Result<(), Fault> {
    both_ways_word(&rt, Word::Unused, 0);
    both_ways_word(&rt, Word::Pending(moment(11_000)?), 92_274_688_000);
    both_ways_word(
        &rt,
        Word::Pending(moment(2_199_023_255_551)?),
        18_446_744_073_701_163_008,
    );
    both_ways_word(
        &rt,
        Word::Decided(Outcome::Accepted, moment(10_999)?),
        92_266_299_393,
    );
    both_ways_word(&rt, rejected("AC04", 2000)?, 16_779_144_466);
    both_ways_word(
        &rt,
        Word::Decided(Outcome::TimedOut, moment(11_000)?),
        92_274_688_003,
    );
    Ok(())
}

#[test]
fn words_that_no_terms_have(rt: HostRuntime) {
    let t1 = 6356;
    for words in [
        // A `!`, a character after a 0, no character, 36 characters.
        [12_800_001, 33, 0, 0, 0],
        [12_800_001, 84 + 49 * 128 * 128, 0, 0, 0],
        [12_800_001, t1, 84, 0, 0],
        [12_800_001, 0, 0, 0, 0],
        [12_800_001, NINE_A, NINE_A, NINE_A, NINE_A],
        // 2^63 and more.
        [12_800_001, t1, 1 << 63, 0, 0],
        [12_800_001, t1 + (1 << 63), 0, 0, 0],
        // No cents, and one cent more than the most.
        [1, t1, 0, 0, 0],
        [100_000_000_000 * 256, t1, 0, 0, 0],
        [u64::MAX, t1, 0, 0, 0],
    ] {
        same_at(&rt, words, unpack(&words), None);
    }
}

/// The word of `AAAAAAAAA`.
const NINE_A: u64 = 4_720_623_483_429_609_665;

#[test]
fn words_that_no_outcome_has(rt: HostRuntime) {
    mention::<Outcome>();
    let at = 2000 << 23;
    for word in [
        // Pending with a reason, and with moment 0.
        at + (5 << 2),
        7 << 2,
        // Accepted and timed out with a reason.
        at + (1 << 2) + 1,
        at + (482_116 << 2) + 3,
        // A reason of 36^4, and the largest number that its bits hold.
        at + (1_679_616 << 2) + 2,
        at + (2_097_151 << 2) + 2,
    ] {
        same_at(&rt, word, read_outcome(word), None);
    }
}
