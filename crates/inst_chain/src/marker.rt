//! Making and recognizing marks.
ghost use Rattle.std.specs.Prelude.{◌≡◌, ◌<◌, ◌++◌, [], ◌∷◌, List, ℕ, slice_index, bytes_eq, true};
ghost use Rattle.std.specs.Prelude.{false, OnOk};
ghost use Rattle.inst_base.specs.Newline.{newline};
ghost use Rattle.inst_log.specs.Layout.{recovered_lines, AreWholeLines};
ghost use Rattle.inst_chain.specs.Chain.{is_mark, mark_of, mark_with, has_mark, has_digest, said};
ghost use Rattle.inst_chain.specs.Checking.{Digests};
ghost use Rattle.hex.specs.Hex.{encode_lower};

use crate::digest::{DIGEST_LEN, Digest};
use hex::encode_to_slice;
use inst_log::first_line;
use sha2::{Digest as _, Sha256};
use std::alloc::AllocError;

/// The length of a mark in bytes, without its newline.
pub const MARK_LEN: usize = DIGEST_LEN + 3;

/// Makes the marks of a log.
#[derive(Clone, Drop)]
pub struct Marker {
    hasher: Sha256,
}

impl Marker {
    /// Returns the marker of an empty log.
    pub fn new() -> Marker
        ensures { Digests result [] }
    {
        Marker {
            hasher: Sha256::new(),
        }
    }

    /// Adds bytes of the log to the next digest.
    pub fn add(&mut self, bytes: &[u8])
        ensures { (text : List ℕ) → Digests self.old text → Digests self.new (text ++ bytes.now) }
    {
        self.hasher.update(bytes);
    }

    /// Returns the mark of the bytes added since the last one, and adds this mark with its newline
    /// to the next digest.
    pub fn mark(&mut self) -> [u8; MARK_LEN]
        ensures line { recovered_lines (result ++ newline ∷ []) ≡ result ∷ [] }
        ensures is { is_mark result ≡ true }
        ensures mark { (text : List ℕ) → Digests self.old text → result ≡ mark_of text }
        ensures next { (text : List ℕ) → Digests self.old text →
            Digests self.new (mark_of text ++ newline ∷ []) }
    {
        let mark = mark_by(&self.hasher.finalize_reset());
        self.hasher.update(&mark);
        self.hasher.update(b"\n");
        mark
    }
}

/// Returns the mark with this digest.
fn mark_by(digest: &[u8; 32]) -> [u8; MARK_LEN]
    ensures mark { result ≡ 123 ∷ 1 ∷ 123 ∷ encode_lower digest.now }
    ensures bytes { (i : ℕ) → slice_index digest.now i < 256 }
{
    let mut mark = [b'{'; MARK_LEN];
    mark[1] = 1;
    let _ = encode_to_slice(digest, &mut mark[3..]);
    mark
}

/// Returns `true` if the line is a mark.
pub fn is_mark(line: &[u8]) -> bool
    ensures { result ≡ is_mark line.now }
{
    match line {
        [a, b, c, d, ..] => *a == b'{' && *b == 1 && *c == b'{' && *d != 1,
        _ => false,
    }
}

/// Appends their mark to the lines of a batch that has no closed byte yet.
///
/// # Errors
///
/// [`AllocError`] if the batch can't grow; drop marker and batch.
pub fn mark_lines(marker: &mut Marker, batch: &mut Vec<u8>) -> Result<(), AllocError>
    requires { AreWholeLines batch.old.items }
    ensures whole { OnOk result (AreWholeLines batch.new.items) }
    ensures lines { OnOk result ((text : List ℕ) → Digests marker.old text
        → recovered_lines batch.new.items
        ≡ recovered_lines batch.old.items ++ mark_of (text ++ batch.old.items) ∷ []) }
    ensures digests { OnOk result ((text : List ℕ) → Digests marker.old text
        → Digests marker.new (mark_of (text ++ batch.old.items) ++ newline ∷ [])) }
    ensures said { OnOk result (said (recovered_lines batch.new.items)
        ≡ said (recovered_lines batch.old.items)) }
{
    marker.add(batch);
    let mark = marker.mark();
    batch.extend_from_slice(&mark)?;
    batch.push(b'\n')?;
    Ok(())
}

/// Returns `true` if one of the whole lines that the bytes begin with is a mark.
pub fn has_mark(bytes: &[u8]) -> bool
    ensures { result ≡ has_mark (recovered_lines bytes.now) }
{
    let mut rest = bytes;
    while let Some(len) = first_line(rest) {
        if is_mark(&rest[..len - 1]) {
            return true;
        }
        rest = &rest[len..];
    }
    false
}

/// Returns `true` if one of the whole lines that the bytes begin with is the mark with this digest.
pub fn has_digest(bytes: &[u8], digest: &Digest) -> bool
    ensures { result ≡ has_digest digest.now (recovered_lines bytes.now) }
{
    let mut rest = bytes;
    while let Some(len) = first_line(rest) {
        if is_mark_with(&rest[..len - 1], digest) {
            return true;
        }
        rest = &rest[len..];
    }
    false
}

/// Returns `true` if the line is the mark with this digest.
fn is_mark_with(line: &[u8], digest: &Digest) -> bool
    ensures { result ≡ bytes_eq line.now (mark_with digest.now.text) }
{
    let mut mark = [b'{'; MARK_LEN];
    mark[1] = 1;
    mark[3..].copy_from_slice(&digest.text);
    line == mark.as_slice()
}
