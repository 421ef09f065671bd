//! Cutting bytes that arrive in pieces into whole lines.
ghost use Rattle.std.specs.Prelude.{◌≡◌, ◌≤◌, ◌<◌, ◌+◌, ◌-◌, ◌^◌, ◌++◌, [], List, ℕ, length, take};
ghost use Rattle.std.specs.Prelude.{drop, IfOk, OnOk};
ghost use Rattle.inst_log.specs.Layout.{recovered_lines, AreWholeLines};
ghost use Rattle.inst_log.specs.Pieces.{HasCut, is_shut, stops};

use crate::front::kept_len;
use std::alloc::{AllocError, Global};
use std::mem;

/// Cuts a file that arrives in pieces into whole lines.
#[derive(Drop)]
pub struct LineCutter {
    /// The beginning of a line whose newline hasn't arrived.
    held: Vec<u8>,
    /// How many bytes of the file precede the next piece.
    at: usize,
}

impl LineCutter {
    /// Starts at the byte `at` of a file.
    pub fn new(alloc: Global, at: usize) -> LineCutter
        ensures at { result.at ≡ at }
        ensures held { result.held.items ≡ [] }
    {
        LineCutter {
            held: Vec::new(alloc),
            at,
        }
    }

    /// Returns how many bytes of the file precede the next piece.
    pub fn at(&self) -> usize
        ensures { result ≡ self.now.at }
    {
        self.at
    }

    /// Returns the position after the last line that was cut off.
    pub fn end(&self) -> usize
        ensures { result ≡ self.now.at - length self.now.held.items }
    {
        self.at.saturating_sub(self.held.len())
    }

    /// Returns `true` if no further line can begin, whatever bytes follow.
    pub fn stops(&self) -> bool
        ensures { result ≡ stops self.now }
    {
        !self.held.is_empty() && self.held[0] != b'{'
    }

    /// Returns `true` if the byte 0 follows the lines that were cut off.
    pub fn is_shut(&self) -> bool
        ensures { result ≡ is_shut self.now.held.items }
    {
        !self.held.is_empty() && self.held[0] == 0
    }

    /// Takes the next piece and returns the lines that end in it, each with its newline.
    ///
    /// # Errors
    ///
    /// [`AllocError`] if the lines can't be allocated; drop the cutter then.
    pub fn take(&mut self, piece: &[u8]) -> Result<Vec<u8>, AllocError>
        requires { self.old.at + length piece.now < 2 ^ 64 }
        ensures at { OnOk result (self.new.at ≡ self.old.at + length piece.now) }
        ensures whole { IfOk result (λ lines. AreWholeLines lines.items) }
        ensures cut { IfOk result (λ lines. (file : List ℕ) (done : List (List ℕ)) →
            HasCut file self.old done
            → piece.now ≡ take (length piece.now) (drop self.old.at file)
            → self.old.at + length piece.now ≤ length file →
            HasCut file self.new (done ++ recovered_lines lines.items)) }
    {
        self.held.extend_from_slice(piece)?;
        let rest = self.held.split_off(kept_len(&self.held))?;
        self.at += piece.len();
        Ok(mem::replace(&mut self.held, rest))
    }
}
