//! Reading the lines of a file in pieces. The file isn't changed.
ghost use Rattle.std.specs.Prelude.{◌≡◌, ◌≤◌, ◌<◌, ◌+◌, ◌^◌, ◌++◌, [], List, ℕ, length, take};
ghost use Rattle.std.specs.Prelude.{true, false, IsTrue, MatchBool, MatchResult, IfOk, ⊤};
ghost use Rattle.sqlite_disk.specs.Disk.{Holds, MoreFaults};
ghost use Rattle.inst_log.specs.Disks.{HasKeptFaith, IsOnlyRead};
ghost use Rattle.inst_log.specs.Layout.{recovered_lines, blocks, IsShut};
ghost use Rattle.inst_log.specs.Log.{HasCause};
ghost use Rattle.inst_log.specs.Pieces.{IsReading, ReadsOn, IsExtent, has_more};

use crate::LogError;
use crate::extent::Extent;
use crate::line_cutter::LineCutter;
use sqlite_disk::Disk;
use std::alloc::Global;

/// How many bytes one read takes.
const PIECE: usize = 65_536;

/// Reads the lines of a file in pieces of 64 KiB. Takes memory for one piece and for the longest
/// line.
#[derive(Drop)]
pub struct FileLines {
    alloc: Global,
    cutter: LineCutter,
    /// The length of the file in bytes.
    len: usize,
}

impl FileLines {
    /// Starts at the byte `at` of the disk's file, where a line must begin.
    ///
    /// # Errors
    ///
    /// `Disk` if the disk fails.
    pub fn new<D: Disk>(alloc: Global, disk: &mut D, at: usize) -> Result<FileLines, LogError>
        requires usable { IsTrue (D.Disk.is_usable disk.old) }
        ensures reading { IfOk result (λ lines. HasKeptFaith D.Disk disk.new →
            (done : List (List ℕ)) (rest : List ℕ)
            → D.Disk.seen disk.old ≡ blocks done ++ rest → recovered_lines (blocks done) ≡ done →
            at ≡ length (blocks done)
            → IsReading (D.Disk.seen disk.old) lines done) }
        ensures fits { IfOk result (λ lines. lines.len < 2 ^ 64) }
        ensures cause { MatchResult result (λ _. D.Disk.faults disk.new ≡ D.Disk.faults disk.old)
            (HasCause (MoreFaults (D.Disk.faults disk.old) (D.Disk.faults disk.new)) ⊤ ⊥) }
        ensures read { IsOnlyRead D.Disk disk.old disk.new }
    {
        let len = disk.len()?;
        Ok(FileLines {
            alloc,
            cutter: LineCutter::new(alloc, at),
            len,
        })
    }

    /// Returns `true` if the file may have more lines.
    pub fn has_more(&self) -> bool
        ensures { result ≡ has_more self.now }
    {
        self.cutter.at() < self.len && !self.cutter.stops()
    }

    /// Reads the next piece, 64 KiB or less, and returns the lines that end in it, each with its
    /// newline. Call it only if [`has_more`](FileLines::has_more) is `true`.
    ///
    /// # Errors
    ///
    /// `Disk` if the disk fails, `Memory` if an allocation fails. Drop the value then.
    pub fn next<D: Disk>(&mut self, disk: &mut D) -> Result<Vec<u8>, LogError>
        requires more { has_more self.old ≡ true }
        requires usable { IsTrue (D.Disk.is_usable disk.old) }
        ensures lines { IfOk result (λ lines.
            ReadsOn D.Disk disk.old disk.new self.old self.new lines.items) }
        ensures cause { MatchResult result (λ _. D.Disk.faults disk.new ≡ D.Disk.faults disk.old)
            (HasCause (HasKeptFaith D.Disk disk.new
            → (done : List (List ℕ)) → IsReading (D.Disk.seen disk.old) self.old done
            → MoreFaults (D.Disk.faults disk.old) (D.Disk.faults disk.new)) ⊤ ⊥) }
        ensures read { IsOnlyRead D.Disk disk.old disk.new }
    {
        let at = self.cutter.at();
        let piece = read_piece(self.alloc, disk, at, (self.len - at).min(PIECE))?;
        Ok(self.cutter.take(&piece)?)
    }

    /// Returns `true` if the byte 0 follows the lines. Call it once
    /// [`has_more`](FileLines::has_more) is `false`.
    pub fn is_shut(&self) -> bool
        ensures { (file : List ℕ) (done : List (List ℕ)) → IsReading file self.now done →
            has_more self.now ≡ false
            → MatchBool result (IsShut file) (IsShut file → ⊥) }
    {
        self.cutter.is_shut()
    }

    /// Returns where the file's lines end. Call it once [`has_more`](FileLines::has_more) is
    /// `false`.
    pub fn extent(&self) -> Extent
        ensures { (file : List ℕ) (done : List (List ℕ)) → IsReading file self.now done →
            has_more self.now ≡ false
            → (recovered_lines file ≡ done) × IsExtent file result }
    {
        Extent {
            len: self.len,
            end: self.cutter.end(),
            is_closed: self.cutter.stops(),
        }
    }
}

/// Reads `len` bytes of the file from `at`.
fn read_piece<D: Disk>(
    alloc: Global,
    disk: &mut D,
    at: usize,
    len: usize,
) -> Result<Vec<u8>, LogError>
    requires usable { IsTrue (D.Disk.is_usable disk.old) }
    requires some { 0 < len }
    ensures len { IfOk result (λ piece. length piece.items ≡ len) }
    ensures piece { IfOk result (λ piece. HasKeptFaith D.Disk disk.new →
        Holds (D.Disk.seen disk.old) at piece.items) }
    ensures cause { MatchResult result (λ _. D.Disk.faults disk.new ≡ D.Disk.faults disk.old)
        (HasCause (HasKeptFaith D.Disk disk.new → at + len ≤ length (D.Disk.seen disk.old)
        → MoreFaults (D.Disk.faults disk.old) (D.Disk.faults disk.new)) ⊤ ⊥) }
    ensures read { IsOnlyRead D.Disk disk.old disk.new }
{
    let mut bytes = vec![in alloc; 0; len]?;
    disk.read_at(at, &mut bytes)?;
    Ok(bytes)
}
