//! An identifier in four words of nine characters.
ghost use Rattle.std.specs.Prelude.{◌≡◌, ◌+◌, ◌/◌, ◌%◌, ◌<◌, ◌≤◌, ℕ, List, length, get_or, Some};
ghost use Rattle.std.specs.Prelude.{IsTrue, true, ◌≢◌, ◌↔◌, nat_lt};
ghost use Rattle.std.specs.List.{list_all};
ghost use Rattle.std.specs.Str.{IsAscii};
ghost use Rattle.inst_base.specs.Text.{is_identifier};
ghost use Rattle.inst_terms.specs.Identifier.{nine_from, identifier_words};
ghost use Rattle.inst_terms.specs.inner.Identifier.{digit, StandsIn};

use inst_base::Ident;
use std::str;

/// The number of characters in four words.
const ROOM: usize = 36;
/// The number of characters in a word.
const NINE: usize = 9;
/// An upper bound of a word: nine characters below 128 make a number below 128^9 = 2^63.
const LIMIT: u64 = 1 << 63;

/// Returns the four words of an identifier.
pub(crate) fn pack_identifier(id: &Ident) -> [u64; 4]
    ensures words { result ≡ identifier_words id.now }
    ensures form { IsTrue (is_identifier id.now) }
{
    let text = id.text().as_bytes();
    let characters = padded(text);
    [
        word_from(&characters, 0, text.len()),
        word_from(&characters, NINE, text.len()),
        word_from(&characters, 2 * NINE, text.len()),
        word_from(&characters, 3 * NINE, text.len()),
    ]
}

/// Returns the identifier with these four words, or `None` if no identifier has them.
pub(crate) fn read_identifier(words: &[u64; 4]) -> Option<Ident>
    ensures { (id : List ℕ) → (result ≡ Some id) ↔
        (IsTrue (is_identifier id) × (identifier_words id ≡ words.now)) }
{
    if !are_below_limit(words) {
        return None;
    }
    identifier_in(&characters_of(words), length_of(words))
}

/// Returns `true` if each word is below the bound for nine characters.
fn are_below_limit(words: &[u64; 4]) -> bool
    ensures { result ≡ list_all (λ word. nat_lt word LIMIT) words.now }
{
    words.iter().all(|&word| word < LIMIT)
}

/// Returns the characters of a text, padded with zeros.
fn padded(text: &[u8]) -> [u8; ROOM]
    requires { length text.now ≤ ROOM }
    ensures { (k : ℕ) → get_or result k 0 ≡ get_or text.now k 0 }
{
    let mut characters = [0; ROOM];
    characters[..text.len()].copy_from_slice(text);
    characters
}

/// Returns the word of the nine characters from `start` on, without reading them if the text has
/// ended.
fn word_from(characters: &[u8; ROOM], start: usize, len: usize) -> u64
    requires ascii { IsAscii characters.now }
    requires start { start + NINE ≤ ROOM }
    requires zeros { (k : ℕ) → len ≤ k → get_or characters.now k 0 ≡ 0 }
    ensures { result ≡ nine_from characters.now start }
{
    if len <= start {
        return 0;
    }
    nine_from(characters, start)
}

/// Returns the word of the nine characters from `start` on.
fn nine_from(characters: &[u8; ROOM], start: usize) -> u64
    requires ascii { IsAscii characters.now }
    requires start { start + NINE ≤ ROOM }
    ensures { result ≡ nine_from characters.now start }
{
    let mut word = 0;
    for place in (0..NINE).rev() {
        word = word * 128 + u64::from(characters[start + place]);
    }
    word
}

/// Returns the 36 characters of four words.
fn characters_of(words: &[u64; 4]) -> [u8; ROOM]
    ensures { (k : ℕ) → k < ROOM →
        get_or result k 0 ≡ digit (get_or words.now (k / NINE) 0) (k % NINE) }
{
    let mut characters = [0; ROOM];
    for index in 0..words.len() {
        // A word of 0 has nine zeros, which the array has already.
        if words[index] != 0 {
            put_nine(&mut characters, NINE * index, words[index]);
        }
    }
    characters
}

/// Writes the nine characters of a word from `start` on.
// Kept out of line: inlined for each word, it would hold the characters of all four at once, which
// are more than there are registers.
#[inline(never)]
fn put_nine(characters: &mut [u8; ROOM], start: usize, word: u64)
    requires { start + NINE ≤ ROOM }
    ensures here { (k : ℕ) → k < NINE → get_or characters.new (start + k) 0 ≡ digit word k }
    ensures before { (k : ℕ) → k < start → get_or characters.new k 0 ≡ get_or characters.old k 0 }
    ensures behind { (k : ℕ) → start + NINE ≤ k →
        get_or characters.new k 0 ≡ get_or characters.old k 0 }
{
    for place in 0..NINE {
        characters[start + place] = digit(word, place);
    }
}

/// Returns the character at `place` of a word.
fn digit(word: u64, place: usize) -> u8
    requires { place < NINE }
    ensures { result ≡ digit word place }
{
    ((word >> (7 * place)) % 128) as u8
}

/// Returns the identifier in the first `len` characters; the others are zeros.
fn identifier_in(characters: &[u8; ROOM], len: usize) -> Option<Ident>
    requires within { len ≤ ROOM }
    requires zeros { (k : ℕ) → len ≤ k → get_or characters.now k 0 ≡ 0 }
    requires last { (k : ℕ) → k + 1 ≡ len → get_or characters.now k 0 ≢ 0 }
    ensures { (id : List ℕ) → (result ≡ Some id) ↔
        (IsTrue (is_identifier id) × StandsIn id characters.now) }
{
    let Ok(text) = str::from_utf8(&characters[..len]) else {
        return None;
    };
    Ident::new(text).ok()
}

/// Returns the number of characters in four words, without the zeros at the end.
fn length_of(words: &[u64; 4]) -> usize
    requires { list_all (λ word. nat_lt word LIMIT) words.now ≡ true }
    ensures within { result ≤ ROOM }
    ensures zeros { (k : ℕ) → result ≤ k → k < ROOM →
        digit (get_or words.now (k / NINE) 0) (k % NINE) ≡ 0 }
    ensures last { (k : ℕ) → k + 1 ≡ result → digit (get_or words.now (k / NINE) 0) (k % NINE) ≢ 0 }
{
    for index in (0..words.len()).rev() {
        if words[index] != 0 {
            return NINE * index + length_in(words[index]);
        }
    }
    0
}

/// Returns the number of characters in a word, without the zeros at the end.
fn length_in(word: u64) -> usize
    requires some { 0 < word }
    requires below { word < LIMIT }
    ensures some { 1 ≤ result }
    ensures within { result ≤ NINE }
    ensures zeros { (k : ℕ) → result ≤ k → digit word k ≡ 0 }
    ensures last { (k : ℕ) → k + 1 ≡ result → digit word k ≢ 0 }
{
    word.ilog2() as usize / 7 + 1
}
