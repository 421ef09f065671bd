//! Reading the first lines of a file. The file isn't changed.
ghost use Rattle.std.specs.Prelude.{◌≡◌, ◌≤◌, length, take, IsTrue, IfOk, MatchResult, ⊤};
ghost use Rattle.inst_log.specs.Disks.{HasKeptFaith, IsOnlyRead};
ghost use Rattle.inst_log.specs.Layout.{recovered_lines, blocks};
ghost use Rattle.sqlite_disk.specs.Disk.{MoreFaults};
ghost use Rattle.inst_log.specs.Log.{HasCause};

use crate::LogError;
use crate::file_lines::FileLines;
use crate::front::first_line;
use sqlite_disk::Disk;
use std::alloc::Global;

/// Returns the first `count` lines of the disk's file, each with its newline, or all lines if there
/// are fewer. Reads in pieces of 64 KiB, up to the one in which these lines end.
///
/// # Errors
///
/// `Disk` if the disk fails, `Memory` if an allocation fails.
pub fn read_lines<D: Disk>(alloc: Global, disk: &mut D, count: u64) -> Result<Vec<u8>, LogError>
    requires usable { IsTrue (D.Disk.is_usable disk.old) }
    ensures lines { IfOk result (λ text. HasKeptFaith D.Disk disk.new
        → text.items ≡ blocks (take count (recovered_lines (D.Disk.seen disk.old)))) }
    ensures cause { MatchResult result (λ _. D.Disk.faults disk.new ≡ D.Disk.faults disk.old)
        (HasCause (HasKeptFaith D.Disk disk.new
        → MoreFaults (D.Disk.faults disk.old) (D.Disk.faults disk.new)) ⊤ ⊥) }
    ensures read { IsOnlyRead D.Disk disk.old disk.new }
{
    let mut lines = FileLines::new(alloc, disk, 0)?;
    let mut text = Vec::new(alloc);
    let mut found = 0;
    while found < count && lines.has_more() {
        let piece = lines.next(disk)?;
        found += count_lines(&piece) as u64;
        text.extend_from_slice(&piece)?;
    }
    text.truncate(lines_len(&text, count));
    Ok(text)
}

/// Returns the length of the first `count` lines with their newlines, or of all lines if there are
/// fewer.
pub fn lines_len(bytes: &[u8], count: u64) -> usize
    ensures len { result ≡ length (blocks (take count (recovered_lines bytes.now))) }
    ensures within { result ≤ length bytes.now }
{
    let mut rest = bytes;
    for _ in 0..count {
        match first_line(rest) {
            Some(len) => rest = &rest[len..],
            None => return bytes.len() - rest.len(),
        }
    }
    bytes.len() - rest.len()
}

/// Returns the number of whole lines that the bytes begin with.
pub fn count_lines(bytes: &[u8]) -> usize
    ensures count { result ≡ length (recovered_lines bytes.now) }
    ensures within { result ≤ length bytes.now }
{
    let mut rest = bytes;
    let mut count = 0;
    while let Some(len) = first_line(rest) {
        rest = &rest[len..];
        count += 1;
    }
    count
}
