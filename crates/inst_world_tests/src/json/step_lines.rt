//! The lines of steps.
use crate::comparing::same_at;
use crate::json::hub::{MOST, hub};
use inst_base::Fault;
use inst_json::{append_step, read_step};
use inst_settings::Settings;
use std::process::Abort;

/// A line of each command and each step, with a base of 1,000 ms.
const LINES: &[&str] = &[
    r#"{"at":1000,"cents":50000,"cmd":"fund","ref":"F1","who":"AAAADEFF"}"#,
    r#"{"at":3000,"cents":5000,"cmd":"defund","ref":"D 1","who":"AAAADEFF"}"#,
    r#"{"at":2000,"cents":99999999999,"cmd":"submit","id":"T1","stamp":1999,"to":"BBBBFRPP","who":"AAAADEFF"}"#,
    r#"{"at":2000,"cmd":"confirm","from":"AAAADEFF","id":"T1","who":"BBBBFRPP"}"#,
    r#"{"at":2000,"cmd":"reject","from":"AAAADEFF","id":"T1","reason":"AC04","who":"BBBBFRPP"}"#,
    r#"{"at":2100,"cmd":"investigate","id":"/-?:().,'+","who":"AAAADEFF"}"#,
    r#"{"at":1500,"cmd":"fetch","max":100,"who":"BBBBFRPP"}"#,
    r#"{"at":2199023256551,"cmd":"position","who":"CCCCITMM"}"#,
    r#"{"at":3000,"cmd":"statement","count":1,"skip":18446744073709551615,"who":"AAAADEFF"}"#,
    r#"{"from":"AAAADEFF","place":0,"step":"deliver","who":"BBBBFRPP"}"#,
    r#"{"from":"AAAADEFF","place":1023,"step":"learn","who":"CCCCITMM"}"#,
    r#"{"at":12000,"place":7,"step":"expire","who":"AAAADEFF"}"#,
];

/// Checks that the line's step is written as the line and read back.
fn is_written(
    rt: &(impl Abort + AllocGlobal),
    hub: &Settings,
    line: &'static str,
) -> Result<(), Fault> {
    let step = read_step(rt.alloc(), hub, line.as_bytes())?;
    let mut written = Vec::new(rt.alloc());
    append_step(hub, &step, &mut written)?;
    same_at(rt, line, written.as_slice(), line.as_bytes());
    same_at(rt, line, read_step(rt.alloc(), hub, &written), Ok(step));
    Ok(())
}

#[test]
fn writes_each_step(rt: HostRuntime) -> Result<(), Fault> {
    let hub = hub(rt.alloc(), MOST, 1_000)?;
    for line in LINES {
        is_written(&rt, &hub, line)?;
    }
    Ok(())
}
