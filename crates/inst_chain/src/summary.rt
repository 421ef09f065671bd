//! Summarizing a log: one read from its first byte to its end, in pieces. Nothing is written.
ghost use Rattle.std.specs.Prelude.{◌≡◌, ◌++◌, ◌∷◌, [], List, ℕ, Some, length, true, IfOk, IfErr};
ghost use Rattle.std.specs.Prelude.{IfSome, OnOk, MatchBool};
ghost use Rattle.std.specs.Io.{ReadsAtMost};
ghost use Rattle.std.specs.Io.KnownBytes.{ReadConsumes};
ghost use Rattle.inst_log.specs.Layout.{recovered_lines};
ghost use Rattle.inst_chain.specs.Chain.{is_mark, mark_with};
ghost use Rattle.inst_chain.specs.Summing.{IsSummary, Unsummed};
ghost use Rattle.inst_chain.specs.inner.Summing.{IsFirstOf, Sees, Tallies, HasRead, HasReadAll};
ghost use Rattle.inst_chain.specs.inner.Summing.{IsChain, IsReadFault};

use crate::checker::Checker;
use crate::digest::{DIGEST_LEN, Digest};
use crate::marker::{MARK_LEN, is_mark};
use crate::prefix::Prefix;
use inst_log::{LineCutter, LogError, first_line};
use std::alloc::{AllocError, Global};
use std::io::Read;

/// How many bytes are read at a time.
const PIECE: usize = 65_536;

/// The summary of a log.
#[derive(Drop)]
pub struct Summary {
    /// The first line, without its newline.
    pub first: Vec<u8>,
    /// The number of lines, the first one included and marks excluded.
    pub lines: u64,
    /// The digest of the last mark if all marks and the end are right. Otherwise the lines up to
    /// the last right mark, also for a log without marks.
    pub chain: Result<Digest, Prefix>,
}

/// Reads a log up to the end of its lines and verifies its marks. Takes memory for two pieces of 64
/// KiB and for the longest line. May block on the reader.
///
/// # Errors
///
/// `NoLog` if the input doesn't begin with a line, `Disk` if a read fails, `Memory` if an
/// allocation fails, `Full` for a log near 2^64 bytes.
pub fn summarize<R: Read>(alloc: Global, reader: &mut R) -> Result<Summary, LogError>
    ensures found { IfOk result (λ summary.
        IfSome (R.remaining reader.old) (λ file. IsSummary file summary)) }
    ensures none { IfErr result (λ error.
        IfSome (R.remaining reader.old) (λ file. Unsummed file error)) }
{
    let mut reading = Reading::new(alloc);
    for _ in 0..u64::MAX {
        if !reading.turn(alloc, reader)? {
            return reading.sum_up();
        }
    }
    Err(LogError::Full)
}

/// A log that is being read.
#[derive(Drop)]
struct Reading {
    cutter: LineCutter,
    tally: LineTally,
}

impl Reading {
    /// Returns the state before the first read.
    fn new(alloc: Global) -> Reading
        ensures { (file : List ℕ) → HasRead result file (Some file) }
    {
        Reading {
            cutter: LineCutter::new(alloc, 0),
            tally: LineTally::new(),
        }
    }

    /// Reads once. Returns `true` if the log may have further lines.
    fn turn<R: Read>(&mut self, alloc: Global, reader: &mut R) -> Result<bool, LogError>
        ensures more { IfOk result (λ more. (file : List ℕ) →
            HasRead self.old file (R.remaining reader.old)
            → MatchBool more (HasRead self.new file (R.remaining reader.new))
            (HasReadAll self.new file)) }
        ensures err { IfErr result IsReadFault }
    {
        let mut piece = vec![in alloc; 0; PIECE]?;
        let count = read_bytes(reader, &mut piece)?;
        if count == 0 {
            return Ok(false);
        }
        if self.cutter.at() > usize::MAX - PIECE {
            return Err(LogError::Full);
        }
        let lines = self.cutter.take(&piece[..count])?;
        self.tally.add(alloc, &lines)?;
        Ok(!self.cutter.stops())
    }

    /// Returns the summary of a log that was read to its end.
    fn sum_up(self) -> Result<Summary, LogError>
        ensures found { IfOk result (λ summary. (file : List ℕ) → HasReadAll self file →
            IsSummary file summary) }
        ensures none { IfErr result (λ error. (file : List ℕ) → HasReadAll self file →
            Unsummed file error) }
    {
        let Reading { cutter, tally } = self;
        let chain = tally.chain(cutter.is_shut());
        let Seen { first, lines, .. } = tally.into_seen();
        match first {
            Some(first) => Ok(Summary {
                first,
                lines,
                chain,
            }),
            None => Err(LogError::NoLog),
        }
    }
}

/// Reads into `buf` and returns the number of bytes.
fn read_bytes<R: Read>(reader: &mut R, buf: &mut [u8]) -> Result<usize, LogError>
    ensures bound { ReadsAtMost result buf.new }
    ensures bytes { ReadConsumes (R.remaining reader.old) (R.remaining reader.new) result buf.new }
    ensures err { IfErr result IsReadFault }
{
    reader.read(buf).map_err(LogError::Disk)
}

/// The lines so far, and a check of their marks.
#[derive(Drop)]
struct LineTally {
    seen: Seen,
    checker: Checker,
    /// If a mark was wrong, the lines up to the last right one.
    wrong: Option<Prefix>,
}

impl LineTally {
    /// Returns the state before the first line.
    fn new() -> LineTally
        ensures { Tallies result [] }
    {
        LineTally {
            seen: Seen::new(),
            checker: Checker::new(),
            wrong: None,
        }
    }

    /// Takes the whole lines that the bytes begin with.
    fn add(&mut self, alloc: Global, bytes: &[u8]) -> Result<(), AllocError>
        ensures { OnOk result ((done : List (List ℕ)) → Tallies self.old done →
            Tallies self.new (done ++ recovered_lines bytes.now)) }
    {
        self.seen.add(alloc, bytes)?;
        if self.wrong.is_some() {
            return Ok(());
        }
        if let Err(right) = self.checker.check_lines(bytes) {
            self.wrong = Some(right);
        }
        Ok(())
    }

    /// Returns the digest of the last mark if all marks are right and the log ends with a mark and
    /// the byte 0.
    fn chain(&self, is_shut: bool) -> Result<Digest, Prefix>
        ensures { IsChain self.now is_shut result }
    {
        if let Some(right) = self.wrong {
            return Err(right);
        }
        if is_shut && self.checker.is_sealed() {
            Ok(self.seen.digest)
        } else {
            Err(self.checker.right())
        }
    }

    fn into_seen(self) -> Seen
        ensures { result ≡ self.seen }
    {
        self.seen
    }
}

/// The first line, the number of lines and the last digest so far.
#[derive(Drop)]
struct Seen {
    first: Option<Vec<u8>>,
    /// The number of lines that aren't marks.
    lines: u64,
    /// The digest of the last mark.
    digest: Digest,
}

impl Seen {
    /// Returns the state before the first line.
    fn new() -> Seen
        ensures { Sees result [] }
    {
        Seen {
            first: None,
            lines: 0,
            digest: Digest {
                text: [b'0'; DIGEST_LEN],
            },
        }
    }

    /// Takes the whole lines that the bytes begin with.
    fn add(&mut self, alloc: Global, bytes: &[u8]) -> Result<(), AllocError>
        ensures { OnOk result ((done : List (List ℕ)) → Sees self.old done →
            Sees self.new (done ++ recovered_lines bytes.now)) }
    {
        let mut rest = bytes;
        while let Some(len) = first_line(rest) {
            self.add_line(alloc, &rest[..len - 1])?;
            rest = &rest[len..];
        }
        Ok(())
    }

    /// Takes the next line, without its newline.
    fn add_line(&mut self, alloc: Global, line: &[u8]) -> Result<(), AllocError>
        ensures { OnOk result ((done : List (List ℕ)) → Sees self.old done →
            Sees self.new (done ++ line.now ∷ [])) }
    {
        self.keep_first(alloc, line)?;
        if is_mark(line) {
            self.digest = digest_in(line);
        } else {
            self.lines = self.lines.saturating_add(1);
        }
        Ok(())
    }

    /// Stores the next line if it is the first one.
    fn keep_first(&mut self, alloc: Global, line: &[u8]) -> Result<(), AllocError>
        ensures first { OnOk result ((done : List (List ℕ)) → IsFirstOf self.old.first done →
            IsFirstOf self.new.first (done ++ line.now ∷ [])) }
        ensures rest { (self.new.lines ≡ self.old.lines) × (self.new.digest ≡ self.old.digest) }
    {
        if self.first.is_some() {
            return Ok(());
        }
        self.first = Some(line.to_vec(alloc)?);
        Ok(())
    }
}

/// Returns the digest of a mark.
fn digest_in(mark: &[u8]) -> Digest
    requires { is_mark mark.now ≡ true }
    ensures { length mark.now ≡ 67 → mark.now ≡ mark_with result.text }
{
    let mut digest = Digest {
        text: [b'0'; DIGEST_LEN],
    };
    // A right mark always has this length.
    if mark.len() == MARK_LEN {
        digest.text.copy_from_slice(&mark[MARK_LEN - DIGEST_LEN..]);
    }
    digest
}
