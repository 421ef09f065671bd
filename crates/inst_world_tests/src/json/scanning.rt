//! Lines that one pass reads without a tree. The contract says what is read, in either way.
use crate::comparing::same_at;
use inst_base::Fault;
use inst_json::{Fields, Form, scan};
use std::alloc::Global;
use std::process::Abort;

/// The members of each command and step.
const LINES: &[&[&str]] = &[
    &[
        r#""at":0"#,
        r#""cents":50000"#,
        r#""cmd":"fund""#,
        r#""ref":"F1""#,
        r#""who":"AAAADEFF""#,
    ],
    &[
        r#""at":0"#,
        r#""cents":1"#,
        r#""cmd":"defund""#,
        r#""ref":"D1""#,
        r#""who":"AAAADEFF""#,
    ],
    &[
        r#""at":1000"#,
        r#""cents":50000"#,
        r#""cmd":"submit""#,
        r#""id":"T1""#,
        r#""stamp":1000"#,
        r#""to":"BBBBFRPP""#,
        r#""who":"AAAADEFF""#,
    ],
    &[
        r#""at":2"#,
        r#""cmd":"confirm""#,
        r#""from":"AAAADEFF""#,
        r#""id":"T1""#,
        r#""who":"BBBBFRPP""#,
    ],
    &[
        r#""at":2"#,
        r#""cmd":"reject""#,
        r#""from":"AAAADEFF""#,
        r#""id":"T1""#,
        r#""reason":"AC04""#,
        r#""who":"BBBBFRPP""#,
    ],
    &[
        r#""at":2"#,
        r#""cmd":"investigate""#,
        r#""id":"T1""#,
        r#""who":"AAAADEFF""#,
    ],
    &[
        r#""at":1500"#,
        r#""cmd":"fetch""#,
        r#""max":10"#,
        r#""who":"BBBBFRPP""#,
    ],
    &[r#""at":0"#, r#""cmd":"position""#, r#""who":"AAAADEFF""#],
    &[
        r#""at":3"#,
        r#""cmd":"statement""#,
        r#""count":10"#,
        r#""skip":0"#,
        r#""who":"AAAADEFF""#,
    ],
    &[
        r#""from":"AAAADEFF""#,
        r#""place":0"#,
        r#""step":"deliver""#,
        r#""who":"BBBBFRPP""#,
    ],
    &[
        r#""from":"AAAADEFF""#,
        r#""place":1023"#,
        r#""step":"learn""#,
        r#""who":"AAAADEFF""#,
    ],
    &[
        r#""at":11000"#,
        r#""place":0"#,
        r#""step":"expire""#,
        r#""who":"AAAADEFF""#,
    ],
];

/// Members that a line may have before or after its own, and whether one pass reads the line.
const MEMBERS: &[(&str, bool)] = &[
    (r#""at":7"#, true),
    (r#""at":"7""#, true),
    (r#""at":null"#, false),
    (r#""who":"CCCCITMM""#, true),
    (r#""who":7"#, true),
    (r#""cmd":"position""#, true),
    (r#""step":"expire""#, true),
    (r#""step":7"#, true),
    (r#""x":7"#, true),
    (r#""x":"y","x":7"#, true),
    (r#""x":7,"x":"y""#, true),
    (r#""":"""#, true),
    (r#""\u0061t":7"#, false),
    (r#""a\u0074":"7""#, false),
    (r#""who":"AAAADE\u0046F""#, false),
    (r#""who":"AAAADEF\/""#, false),
    (r#""é":7"#, false),
    (r#""id":"é""#, false),
    (r#""id":"\ud83d\ude00""#, false),
    (r#""id":"\ud83d""#, false),
    (r#""skip":0"#, true),
    (r#""skip":999999999999999999"#, true),
    (r#""skip":1000000000000000000"#, true),
    (r#""skip":9999999999999999999"#, true),
    (r#""skip":18446744073709551615"#, false),
    (r#""skip":18446744073709551616"#, false),
    (r#""skip":99999999999999999999"#, false),
    (r#""skip":-0"#, false),
    (r#""skip":-1"#, false),
    (r#""skip":1.0"#, false),
    (r#""skip":1e3"#, false),
    (r#""skip":1e400"#, false),
    (r#""skip":01"#, false),
    (r#""skip":true"#, false),
    (r#""x":{"at":7}"#, false),
    (r#""x":[{},[1]]"#, false),
    (r#""x""#, false),
    (r#","#, false),
];

/// Appends the members to the line, with commas between them.
fn push_members(line: &mut String, members: &[&str]) -> Result<(), Fault> {
    for member in members {
        line.push_str(if line.len() == 1 { "" } else { "," })?;
        line.push_str(member)?;
    }
    Ok(())
}

/// Appends everything after the first brace.
fn push_object(line: &mut String, front: &[&str], back: &[&str]) -> Result<(), Fault> {
    push_members(line, front)?;
    push_members(line, back)?;
    Ok(line.push_str("}")?)
}

/// Returns `true` if one pass reads an object of these members.
fn is_scanned(alloc: Global, front: &[&str], back: &[&str]) -> Result<bool, Fault> {
    let mut line = String::from_str(alloc, "{")?;
    push_object(&mut line, front, back)?;
    let mut fields = Fields::new();
    Ok(matches!(scan(line.as_bytes(), &mut fields), Form::Plain))
}

/// Checks each rotation of the members, so that each comes first once.
fn scans_each_order(rt: &(impl Abort + AllocGlobal), members: &[&str]) -> Result<(), Fault> {
    for first in 0..members.len() {
        let scanned = is_scanned(rt.alloc(), &members[first..], &members[..first])?;
        same_at(rt, first, scanned, true);
    }
    Ok(())
}

#[test]
fn keys_in_any_order_are_read_in_one_pass(rt: HostRuntime) -> Result<(), Fault> {
    for members in LINES {
        scans_each_order(&rt, members)?;
    }
    Ok(())
}

/// Returns `true` if one pass reads the line with another member before or after its own.
fn is_scanned_with(
    alloc: Global,
    members: &[&str],
    more: &str,
    is_behind: bool,
) -> Result<bool, Fault> {
    if is_behind {
        is_scanned(alloc, members, &[more])
    } else {
        is_scanned(alloc, &[more], members)
    }
}

/// Checks a line with each of the other members, before and after its own.
fn scans_with_more(
    rt: &(impl Abort + AllocGlobal),
    members: &[&str],
    is_behind: bool,
) -> Result<(), Fault> {
    for (more, wanted) in MEMBERS {
        let scanned = is_scanned_with(rt.alloc(), members, more, is_behind)?;
        same_at(rt, *more, scanned, *wanted);
    }
    Ok(())
}

#[test]
fn more_members_may_be_read_in_one_pass(rt: HostRuntime) -> Result<(), Fault> {
    for members in LINES {
        scans_with_more(&rt, members, false)?;
        scans_with_more(&rt, members, true)?;
    }
    Ok(())
}
