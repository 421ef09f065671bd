//! Verifying the marks of a disk's file. Nothing is written.
ghost use Rattle.std.specs.Prelude.{◌≡◌, ◌<◌, ◌^◌, ◌++◌, List, ℕ, true, IsTrue, IfOk, IfErr};
ghost use Rattle.std.specs.Prelude.{MatchResult, ⊤};
ghost use Rattle.sqlite_disk.specs.Disk.{MoreFaults};
ghost use Rattle.inst_log.specs.Disks.{HasKeptFaith, IsOnlyRead};
ghost use Rattle.inst_log.specs.Layout.{recovered_lines, blocks};
ghost use Rattle.inst_log.specs.Log.{HasCause};
ghost use Rattle.inst_chain.specs.Chain.{has_wanted};
ghost use Rattle.inst_chain.specs.Verifying.{IsFoundVerified, SealedBy, Unverified};
ghost use Rattle.inst_chain.specs.inner.Ends.{IsChecked, HasStarted};
ghost use Rattle.inst_chain.specs.declared.prefix.Prefix.{Prefix};
ghost use Rattle.inst_chain.specs.declared.error.ChainError.TheVariants.{Damaged};

use crate::ChainError;
use crate::checker::Checker;
use crate::digest::Digest;
use crate::marker::{Marker, has_digest};
use inst_log::{Extent, FileLines, LogError, count_lines, read_lines, whole_lines};
use sqlite_disk::Disk;
use std::alloc::Global;

/// A file whose marks and end are right, or one without a line.
#[derive(Drop)]
pub struct Verified {
    /// The length of the file, and where its lines end.
    pub extent: Extent,
    /// The marker that makes the next mark; `None` if the file has no line.
    pub marker: Option<Marker>,
    /// `true` if the file has the mark that was asked for, or none was.
    pub has_wanted: bool,
}

/// Verifies each mark of the disk's file, in whatever state a crash left it, and looks for the mark
/// with the wanted digest. Takes memory for a piece of 64 KiB and for the longest line.
///
/// # Errors
///
/// `Damaged` if a mark or the end is wrong, `Log` with `Disk` if the disk fails or with `Memory` if
/// an allocation fails. Nothing is written in any case.
pub fn verify<D: Disk>(
    alloc: Global,
    disk: &mut D,
    wanted: Option<Digest>,
) -> Result<Verified, ChainError>
    requires usable { IsTrue (D.Disk.is_usable disk.old) }
    ensures found { IfOk result (λ verified. HasKeptFaith D.Disk disk.new →
        IsFoundVerified (D.Disk.seen disk.old) verified) }
    ensures wanted { IfOk result (λ verified. HasKeptFaith D.Disk disk.new
        → verified.has_wanted ≡ has_wanted wanted (recovered_lines (D.Disk.seen disk.old))) }
    ensures cause { MatchResult result (λ _. D.Disk.faults disk.new ≡ D.Disk.faults disk.old)
        (Unverified (D.Disk.seen disk.old) (HasKeptFaith D.Disk disk.new)
        (MoreFaults (D.Disk.faults disk.old) (D.Disk.faults disk.new))) }
    ensures read { IsOnlyRead D.Disk disk.old disk.new }
{
    let lines = FileLines::new(alloc, disk, 0)?;
    let started = Started {
        lines,
        checker: Checker::new(),
        has_wanted: wanted.is_none(),
    };
    verify_rest(started, disk, wanted)
}

/// Does the same for a file that may begin with the lines of another one, whose marks and end are
/// right. Computes no digest of these lines again, and takes memory for them.
pub fn verify_known<D: Disk>(
    alloc: Global,
    disk: &mut D,
    known: &[u8],
    marker: &Marker,
    wanted: Option<Digest>,
) -> Result<Verified, ChainError>
    requires usable { IsTrue (D.Disk.is_usable disk.old) }
    requires sealed { SealedBy known.now marker.now }
    ensures found { IfOk result (λ verified. HasKeptFaith D.Disk disk.new →
        IsFoundVerified (D.Disk.seen disk.old) verified) }
    ensures wanted { IfOk result (λ verified. HasKeptFaith D.Disk disk.new
        → verified.has_wanted ≡ has_wanted wanted (recovered_lines (D.Disk.seen disk.old))) }
    ensures cause { MatchResult result (λ _. D.Disk.faults disk.new ≡ D.Disk.faults disk.old)
        (Unverified (D.Disk.seen disk.old) (HasKeptFaith D.Disk disk.new)
        (MoreFaults (D.Disk.faults disk.old) (D.Disk.faults disk.new))) }
    ensures read { IsOnlyRead D.Disk disk.old disk.new }
{
    if !begins_with(alloc, disk, known)? {
        return verify(alloc, disk, wanted);
    }
    let lines = FileLines::new(alloc, disk, whole_lines(known).len())?;
    let started = Started {
        lines,
        checker: Checker::after(known, marker)?,
        has_wanted: find_wanted(wanted.is_none(), known, wanted),
    };
    verify_rest(started, disk, wanted)
}

/// Returns `true` if the disk's file begins with the whole lines that these bytes begin with.
fn begins_with<D: Disk>(alloc: Global, disk: &mut D, bytes: &[u8]) -> Result<bool, LogError>
    requires usable { IsTrue (D.Disk.is_usable disk.old) }
    ensures begins { IfOk result (λ begins. HasKeptFaith D.Disk disk.new → begins ≡ true
        → (rest : List ℕ) × (D.Disk.seen disk.old ≡ blocks (recovered_lines bytes.now) ++ rest)) }
    ensures cause { MatchResult result (λ _. D.Disk.faults disk.new ≡ D.Disk.faults disk.old)
        (HasCause (HasKeptFaith D.Disk disk.new
        → MoreFaults (D.Disk.faults disk.old) (D.Disk.faults disk.new)) ⊤ ⊥) }
    ensures read { IsOnlyRead D.Disk disk.old disk.new }
{
    let lines = read_lines(alloc, disk, count_lines(bytes) as u64)?;
    Ok(lines.as_slice() == whole_lines(bytes))
}

/// A file of which some lines were checked.
#[derive(Drop)]
struct Started {
    /// Reads the lines that weren't checked.
    lines: FileLines,
    checker: Checker,
    /// `true` if no digest is wanted, or its mark is among the lines that were checked.
    has_wanted: bool,
}

/// Checks the other lines of a file.
fn verify_rest<D: Disk>(
    started: Started,
    disk: &mut D,
    wanted: Option<Digest>,
) -> Result<Verified, ChainError>
    requires usable { IsTrue (D.Disk.is_usable disk.old) }
    requires started { HasKeptFaith D.Disk disk.old →
        HasStarted (D.Disk.seen disk.old) wanted started }
    requires fits { started.lines.len < 2 ^ 64 }
    ensures found { IfOk result (λ verified. HasKeptFaith D.Disk disk.new →
        IsFoundVerified (D.Disk.seen disk.old) verified) }
    ensures wanted { IfOk result (λ verified. HasKeptFaith D.Disk disk.new
        → verified.has_wanted ≡ has_wanted wanted (recovered_lines (D.Disk.seen disk.old))) }
    ensures cause { MatchResult result (λ _. D.Disk.faults disk.new ≡ D.Disk.faults disk.old)
        (Unverified (D.Disk.seen disk.old) (HasKeptFaith D.Disk disk.new)
        (MoreFaults (D.Disk.faults disk.old) (D.Disk.faults disk.new))) }
    ensures read { IsOnlyRead D.Disk disk.old disk.new }
{
    let Started {
        mut lines,
        mut checker,
        mut has_wanted,
    } = started;
    while lines.has_more() {
        let piece = lines.next(disk)?;
        if let Err(right) = checker.check_lines(&piece) {
            return Err(ChainError::Damaged(right));
        }
        has_wanted = find_wanted(has_wanted, &piece, wanted);
    }
    end(&lines, checker, has_wanted)
}

/// Returns `true` if no digest is wanted, or its mark was found before or is one of these lines.
fn find_wanted(found: bool, lines: &[u8], wanted: Option<Digest>) -> bool
    ensures { (done : List (List ℕ)) → found ≡ has_wanted wanted done →
        result ≡ has_wanted wanted (done ++ recovered_lines lines.now) }
{
    match wanted {
        Some(digest) => found || has_digest(lines, &digest),
        None => true,
    }
}

/// Returns the result for a file whose lines were all checked.
fn end(lines: &FileLines, checker: Checker, has_wanted: bool) -> Result<Verified, ChainError>
    ensures found { IfOk result (λ verified. (file : List ℕ) → IsChecked file lines.now checker →
        IsFoundVerified file verified) }
    ensures wanted { IfOk result (λ verified. verified.has_wanted ≡ has_wanted) }
    ensures damaged { IfErr result (λ error. (file : List ℕ) → IsChecked file lines.now checker →
        Unverified file ⊤ ⊥ error) }
    ensures only { IfErr result (λ error. (right : Prefix) × (error ≡ Damaged right)) }
{
    let extent = lines.extent();
    if extent.end == 0 {
        return Ok(Verified {
            extent,
            marker: None,
            has_wanted,
        });
    }
    if !checker.is_sealed() {
        return Err(ChainError::Damaged(checker.right()));
    }
    if !lines.is_shut() {
        return Err(ChainError::Damaged(checker.right()));
    }
    Ok(Verified {
        extent,
        marker: Some(checker.into_marker()),
        has_wanted,
    })
}
