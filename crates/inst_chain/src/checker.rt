//! Checking the lines of a log one after the other.
ghost use Rattle.std.specs.Prelude.{◌≡◌, ◌++◌, [], ◌∷◌, List, ℕ, true, false, IfErr, IfOk, OnOk};
ghost use Rattle.inst_chain.specs.Chain.{is_mark, mark_of, front_of};
ghost use Rattle.inst_chain.specs.Verifying.{SealedBy};
ghost use Rattle.inst_log.specs.Layout.{recovered_lines, blocks};

use crate::marker::{Marker, is_mark};
use crate::prefix::Prefix;
use inst_log::first_line;
use std::alloc::AllocError;

/// Checks the marks of a log's lines as they arrive.
#[derive(Drop)]
pub struct Checker {
    marker: Marker,
    /// `true` if the last line is a mark.
    sealed: bool,
    came: Prefix,
    /// The lines up to the last mark.
    right: Prefix,
}

impl Checker {
    ghost use Rattle.inst_chain.specs.Checking.{HasGoneThrough, IsWrongAt};

    /// Returns a checker before the first line of a log.
    pub fn new() -> Checker
        ensures { HasGoneThrough result [] }
    {
        Checker {
            marker: Marker::new(),
            sealed: false,
            came: Prefix::new(),
            right: Prefix::new(),
        }
    }

    /// Returns a checker after the lines of a log whose marks and end are right. `marker` makes the
    /// log's next mark.
    ///
    /// # Errors
    ///
    /// [`AllocError`] if the marker can't be copied.
    pub(crate) fn after(log: &[u8], marker: &Marker) -> Result<Checker, AllocError>
        requires { SealedBy log.now marker.now }
        ensures { IfOk result (λ checker. HasGoneThrough checker (recovered_lines log.now)) }
    {
        let all = Prefix::of(log);
        Ok(Checker {
            marker: marker.clone()?,
            sealed: true,
            came: all,
            right: all,
        })
    }

    /// Takes the next line, without its newline. Returns `false` if it is a wrong mark; drop the
    /// checker then.
    fn check(&mut self, line: &[u8]) -> bool
        ensures right { result ≡ true → (lines : List (List ℕ)) → HasGoneThrough self.old lines →
            HasGoneThrough self.new (lines ++ line.now ∷ []) }
        ensures mark { result ≡ false → is_mark line.now ≡ true }
        ensures wrong { result ≡ false → (lines : List (List ℕ))
            → (s : HasGoneThrough self.old lines)
            → line.now ≡ mark_of (front_of s.older ++ blocks s.part) → ⊥ }
    {
        self.came.add(line);
        if !is_mark(line) {
            self.marker.add(line);
            self.marker.add(b"\n");
            self.sealed = false;
            return true;
        }
        let is_right = self.marker.mark().as_slice() == line;
        if !is_right {
            return false;
        }
        self.sealed = true;
        self.right = self.came;
        true
    }

    /// Takes the whole lines that the bytes begin with.
    ///
    /// # Errors
    ///
    /// The lines of the log up to the mark before, if a mark among these lines is wrong. Drop the
    /// checker then.
    pub fn check_lines(&mut self, bytes: &[u8]) -> Result<(), Prefix>
        ensures right { OnOk result ((lines : List (List ℕ)) → HasGoneThrough self.old lines
            → HasGoneThrough self.new (lines ++ recovered_lines bytes.now)) }
        ensures wrong { IfErr result (λ right. IsWrongAt self.old bytes.now right) }
    {
        let mut rest = bytes;
        while let Some(len) = first_line(rest) {
            let right = self.right;
            if !self.check(&rest[..len - 1]) {
                return Err(right);
            }
            rest = &rest[len..];
        }
        Ok(())
    }

    /// Returns `true` if the last line is a mark.
    pub fn is_sealed(&self) -> bool
        ensures { result ≡ self.now.sealed }
    {
        self.sealed
    }

    /// Returns the lines up to the last mark.
    pub fn right(&self) -> Prefix
        ensures { result ≡ self.now.right }
    {
        self.right
    }

    /// Returns the marker that makes the next mark.
    pub fn into_marker(self) -> Marker
        ensures { result ≡ self.marker }
    {
        self.marker
    }
}
