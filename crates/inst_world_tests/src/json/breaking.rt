//! Lines that one pass finds not to be JSON, and lines that it leaves to the JSON reader.
use crate::comparing::same_at;
use crate::json::hub::{MOST, refusal};
use inst_base::Fault;
use inst_json::{Fields, Form, scan};
use std::process::Abort;

/// Lines that aren't JSON, where the pass finds the error.
const BROKEN: &[&[u8]] = &[
    // No value.
    b"",
    b" \t\r\n",
    b"submit 100",
    b"}",
    b"]",
    b",",
    b":",
    b"\\",
    b"+1",
    b"\xff",
    // No key.
    b"{",
    b"{ ",
    b"{,",
    b"{:",
    b"{{}:1}",
    b"{]",
    b"{1:1}",
    b"{at:0}",
    b"{\\",
    b"{\xc3\xa9",
    b"{\"at\":0,",
    b"{\"at\":0, ",
    b"{\"at\":0,,\"cmd\":\"position\"}",
    b"{\"at\":0,}",
    b"{\"at\":0, \t}",
    b"{,}",
    // A key that is cut off or has no colon.
    b"{\"",
    b"{\"at",
    b"{\"a\nt\":0}",
    b"{\"a\x1ft\":0}",
    b"{\"at\"",
    b"{\"at\" ",
    b"{\"at\"}",
    b"{\"at\",0}",
    b"{\"at\" \"cmd\":0}",
    b"{\"at:0}",
    // No value of a member.
    b"{\"at\":",
    b"{\"at\": ",
    b"{\"at\":}",
    b"{\"at\":]}",
    b"{\"at\":,\"cmd\":0}",
    b"{\"at\"::0}",
    b"{\"at\":+1}",
    b"{\"at\":x}",
    b"{\"at\":\"",
    b"{\"at\":\"0",
    b"{\"at\":\"0\t\"}",
    b"{\"cmd\":\"sub",
    // Nothing after a value, or neither a comma nor a brace.
    b"{\"at\":\"0\"",
    b"{\"at\":0 ",
    b"{\"at\":0 1}",
    b"{\"at\":0 \"cmd\":\"position\"}",
    b"{\"at\":0 ]",
    b"{\"at\":\"0\"{}}",
    b"{\"at\":\"0\"x}",
    // Something after the object.
    b"{\"at\":0}}",
    b"{\"at\":0} {\"at\":0}",
    b"{\"at\":0},",
    b"{\"at\":0}:",
    b"{\"at\":0} x",
];

/// Lines that aren't JSON either, and that the pass leaves.
const LEFT: &[&[u8]] = &[
    b"{\"at\":\"0\":1}",
    b"{\"at\":01}",
    b"{\"at\":tru}",
    b"{\"at\":-}",
    b"tru",
    b"{\"a\\",
    b"{\"at\":\"\\ud800\"}",
    b"{\"at\":\"\xff\"}",
    b"[",
    b"{} x",
    b"{\"at\":[}",
];

/// JSON that the pass leaves. None of it is a command.
const OTHER: &[&[u8]] = &[
    b"{}",
    b" { } ",
    b"[]",
    b"null",
    b"true",
    b"-1",
    b"0",
    b"\"at\"",
    b"{\"at\":1.5}",
    b"{\"at\":1e3}",
    b"{\"at\":-0}",
    b"{\"at\":true}",
    b"{\"at\":null}",
    b"{\"at\":[{}]}",
    b"{\"at\":{\"at\":0}}",
    b"{\"\\u0061t\":0}",
    b"{\"at\":\"\\\"\"}",
    b"{\"\xc3\xa9\":0}",
    b"{\"at\":\"\xc3\xa9\"}",
    b"{\"at\":0\t}",
    b"[{\"at\":0,\"cmd\":\"position\",\"who\":\"AAAADEFF\"}]",
];

fn is_broken(line: &[u8]) -> bool {
    let mut fields = Fields::new();
    matches!(scan(line, &mut fields), Form::Broken)
}

fn is_left(line: &[u8]) -> bool {
    let mut fields = Fields::new();
    matches!(scan(line, &mut fields), Form::Other)
}

/// Checks that the pass finds each line broken, or leaves it, as wanted, and that reading it fails
/// with this fault.
fn refuses(rt: &(impl Abort + AllocGlobal), lines: &[&[u8]], is_known: bool, fault: Fault) {
    for (place, line) in lines.iter().enumerate() {
        let found = (
            is_broken(line),
            is_left(line),
            refusal(rt.alloc(), MOST, 0, line),
        );
        same_at(rt, place, found, (is_known, !is_known, Some(fault)));
    }
}

#[test]
fn broken_lines_are_known_in_one_pass(rt: HostRuntime) {
    refuses(&rt, BROKEN, true, Fault::NotJson);
    refuses(&rt, LEFT, false, Fault::NotJson);
    refuses(&rt, OTHER, false, Fault::BadField);
}

/// A whole line, with a leading space.
const WHOLE: &[u8] = br#" {"at":1000,"cmd":"position","who":"AAAADEFF"}"#;

#[test]
fn a_cut_line_is_no_json(rt: HostRuntime) {
    for end in 0..=WHOLE.len() {
        let wanted = if end < WHOLE.len() {
            Some(Fault::NotJson)
        } else {
            None
        };
        same_at(
            &rt,
            end,
            refusal(rt.alloc(), MOST, 0, &WHOLE[..end]),
            wanted,
        );
    }
}
