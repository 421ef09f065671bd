//! Reading of files without repairing them.
use crate::comparing::{same, same_at};
use crate::disks::filled;
use inst_log::{Extent, LogError, lines_len, read_lines, survey};
use sqlite_disk::Memory;
use std::alloc::Global;
use std::process::Abort;
use std::test::Fail;

/// Files, the number of lines to read, and these lines.
const ROWS: &[(&[u8], u64, &[u8])] = &[
    (b"{\"s\":1}\n\0", 1, b"{\"s\":1}\n"),
    (b"{\"s\":1}\n{\"a\":2}\n\0", 0, b""),
    (b"{\"s\":1}\n{\"a\":2}\n\0", 1, b"{\"s\":1}\n"),
    (b"{\"s\":1}\n{\"a\":2}\n\0", 2, b"{\"s\":1}\n{\"a\":2}\n"),
    (
        b"{\"s\":1}\n{\"a\":2}\n\0",
        u64::MAX,
        b"{\"s\":1}\n{\"a\":2}\n",
    ),
    (b"{\"s\":1}\nx\"a\":2}\n{\"b\":3}\n", 3, b"{\"s\":1}\n"),
    (b"{\"s\":1}\n{\x01\n\0{\"c\":4}\n", 3, b"{\"s\":1}\n{\x01\n"),
    (b"{\"s\":1}\n{\"b\"", 2, b"{\"s\":1}\n"),
    (b"", 1, b""),
    (b"\0", 1, b""),
    (b"{\"s\":1}", 1, b""),
    (b"hello\n{}\n", 1, b""),
];

/// The length of the lines in a file that is read in several pieces.
const LONG: usize = 40_000;

/// Reads lines of a file with these bytes, and checks that it is unchanged.
fn lines_of(
    rt: &(impl Abort + AllocGlobal),
    bytes: &[u8],
    count: u64,
) -> Result<Result<Vec<u8>, LogError>, Fail> {
    let mut disk = filled(Memory::new(rt.alloc()), bytes)?;
    let lines = read_lines(rt.alloc(), &mut disk, count);
    same(rt, disk.bytes(), bytes);
    Ok(lines)
}

/// Surveys a file with these bytes, and checks that it is unchanged.
fn extent_of(
    rt: &(impl Abort + AllocGlobal),
    bytes: &[u8],
) -> Result<Result<Extent, LogError>, Fail> {
    let mut disk = filled(Memory::new(rt.alloc()), bytes)?;
    let extent = survey(rt.alloc(), &mut disk);
    same(rt, disk.bytes(), bytes);
    Ok(extent)
}

/// Checks that surveying a file gives the extent of its bytes.
fn is_surveyed(rt: &(impl Abort + AllocGlobal), bytes: &[u8]) -> Result<(), Fail> {
    let found = extent_of(rt, bytes)??;
    let wanted = Extent::of(bytes);
    same(
        rt,
        (found.len, found.end, found.is_closed),
        (wanted.len, wanted.end, wanted.is_closed),
    );
    Ok(())
}

#[test]
fn files_are_read_and_left(rt: HostRuntime) -> Result<(), Fail> {
    for &(bytes, count, lines) in ROWS {
        let found = lines_of(&rt, bytes, count)??;
        same_at(&rt, (bytes, count), found.as_slice(), lines);
        is_surveyed(&rt, bytes)?;
    }
    Ok(())
}

/// Returns `count` long lines, each with its newline.
fn long_lines(alloc: Global, count: usize) -> Result<Vec<u8>, Fail> {
    let mut text = Vec::new(alloc);
    for _ in 0..count {
        let mut line = vec![in alloc; b' '; LONG]?;
        line.push(b'\n')?;
        text.push(b'{')?;
        text.extend_from_slice(&line)?;
    }
    Ok(text)
}

#[test]
fn a_file_is_read_in_pieces(rt: HostRuntime) -> Result<(), Fail> {
    let mut file = long_lines(rt.alloc(), 5)?;
    file.push(0)?;
    is_surveyed(&rt, &file)?;
    for count in 0..7 {
        let found = lines_of(&rt, &file, count)??;
        same_at(
            &rt,
            count,
            found.as_slice(),
            &file[..lines_len(&file, count)],
        );
    }
    Ok(())
}
