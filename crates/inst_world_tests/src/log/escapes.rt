//! The escaped form of lines in the file, and how it is read back.
use crate::comparing::same_at;
use crate::log::batches::add;
use inst_log::{first_line, line_of};
use std::test::Fail;

/// A line, and its form in the file.
const ROWS: &[(&[u8], &[u8])] = &[
    (b"{}", b"{}"),
    (b"{\"at\":0}", b"{\"at\":0}"),
    (b"{", b"{"),
    (b"{\0", b"{\0"),
    (b"{{", b"{{"),
    (b"", b"{\x01"),
    (b" {}", b"{\x01 {}"),
    (b"x", b"{\x01x"),
    (b"\x01", b"{\x01\x01"),
    (b"\xff\xfe", b"{\x01\xff\xfe"),
    (b"{\x01", b"{\x01{\x01"),
    (b"{\x01}", b"{\x01{\x01}"),
];

/// Returns `true` if the line has this form in the file and is read back from it.
fn comes_back(text: &[u8], line: &[u8], raw: &[u8]) -> bool {
    match text {
        [front @ .., newline] => {
            *newline == b'\n'
                && front == raw
                && line_of(front) == line
                && first_line(text) == Some(text.len())
        }
        [] => false,
    }
}

#[test]
fn lines_come_back(rt: HostRuntime) -> Result<(), Fail> {
    for &(line, raw) in ROWS {
        let mut text = Vec::new(rt.alloc());
        add(&rt, &mut text, line)?;
        same_at(&rt, line, comes_back(&text, line, raw), true);
    }
    Ok(())
}
