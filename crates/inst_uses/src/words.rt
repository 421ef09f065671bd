//! Words of terms and outcomes, places by deadline, and the fields of a line.

use inst_base::{Cents, Fault, Ident, Moment};
use inst_command::Outcome;
use inst_due::Due;
use inst_json::{Field, Fields, Form, scan};
use inst_terms::{Terms, Word, pack, pack_outcome, read_outcome, unpack};
use std::alloc::Global;

/// Packs a transfer's terms and outcome into words, and reads them back.
pub fn terms(at: Moment) -> Result<(Option<Terms>, Option<Word>), Fault> {
    let terms = Terms {
        cents: Cents::new(50_000)?,
        id: Ident::new("T1")?,
        to: 1,
    };
    let words = pack(&terms); // [12800001, 6356, 0, 0, 0]
    let word = pack_outcome(&Word::Decided(Outcome::Accepted, at));
    Ok((unpack(&words), read_outcome(word))) // `Some` of both
}

/// Returns the place that is due first.
pub fn due(alloc: Global, at: Moment) -> Result<Option<(Moment, u16)>, Fault> {
    let mut due = Due::new(alloc);
    due.add(Moment::new(0, 12_000)?, 0)?;
    due.add(Moment::new(0, 11_000)?, 1)?;
    Ok(due.first_due(at)) // 11,000 and 1, if `at` is 11,000 or later
}

/// Returns the command of a line, if one pass can find it.
pub fn command_word(line: &[u8]) -> Option<&str> {
    let mut fields = Fields::new();
    match (scan(line, &mut fields), fields.cmd) {
        (Form::Plain, Field::Text(word)) => Some(word), // "position" for {"cmd":"position"}
        _ => None, // not JSON, or to be read as a JSON value
    }
}
