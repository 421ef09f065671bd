//! The end of a line, and writing it.
use crate::comparing::same;
use inst_base::{Unwritten, find_newline, write_bytes};
use std::process::Abort;
use std::test::Fail;

/// Checks that the first of several newlines is found, and none if there is none.
fn newlines_are_found(rt: &impl Abort) {
    same(rt, find_newline(b"ab\nc\n"), Some(2));
    same(rt, find_newline(b"\n"), Some(0));
    same(rt, find_newline(b"abc"), None);
    same(rt, find_newline(b""), None);
}

#[test]
fn a_line_is_found_and_written(rt: HostRuntime) -> Result<(), Fail> {
    newlines_are_found(&rt);
    let mut out = Vec::new(rt.alloc());
    out.extend_from_slice(b"x")?;
    same(&rt, write_bytes(&mut out, b"ab\n"), Ok(()));
    same(&rt, out.as_slice(), b"xab\n".as_slice());
    Ok(())
}

#[test]
fn what_is_unwritten_tells_why(rt: HostRuntime) -> Result<(), Fail> {
    let text = format!(in rt.alloc(); "{}", Unwritten)?;
    same(&rt, text.as_str(), "a write failed or took no byte");
    Ok(())
}
