//! The faults of lines that are refused, in the order of the checks.
use crate::comparing::{same, same_at};
use crate::json::hub::{hub, read_script, refusal};
use inst_base::{Fault, mention};
use inst_command::{Ask, Command};
use inst_json::{LineReader, Name, Refusal};
use inst_settings::Settings;
use std::process::Abort;

/// A line and its fault.
type Row = (&'static str, Fault);

/// Lines of commands, at a ceiling of 1,000 cents.
const COMMANDS: &[Row] = &[
    ("", Fault::NotJson),
    ("    ", Fault::NotJson),
    (r#"{"cmd":"sub"#, Fault::NotJson),
    (r#"{"cmd":"\ud800"}"#, Fault::NotJson),
    ("{\"cmd\":1,}", Fault::NotJson),
    ("null", Fault::BadField),
    ("[]", Fault::BadField),
    ("{}", Fault::BadField),
    (
        r#"{"at":0,"cmd":"Position","who":"AAAADEFF"}"#,
        Fault::BadField,
    ),
    (
        r#"{"at":0,"cmd":["position"],"who":"AAAADEFF"}"#,
        Fault::BadField,
    ),
    (
        r#"{"at":"0","cmd":"position","who":"AAAADEFF"}"#,
        Fault::BadField,
    ),
    (r#"{"at":0,"cmd":"position","who":1}"#, Fault::BadField),
    (
        r#"{"at":0,"cmd":"fetch","max":0,"who":"AAAADEFF"}"#,
        Fault::BadField,
    ),
    (
        r#"{"at":0,"cmd":"fetch","max":101,"who":"AAAADEFF"}"#,
        Fault::BadField,
    ),
    (
        r#"{"at":0,"cmd":"statement","count":101,"skip":0,"who":"AAAADEFF"}"#,
        Fault::BadField,
    ),
    (
        r#"{"at":0,"cmd":"statement","count":1,"skip":-1,"who":"AAAADEFF"}"#,
        Fault::BadField,
    ),
    (
        r#"{"at":0,"cmd":"reject","from":"AAAADEFF","id":"T1","reason":"AC4","who":"BBBBFRPP"}"#,
        Fault::BadField,
    ),
    (
        r#"{"at":0,"cmd":"reject","from":"AAAADEFF","id":"T1","reason":"ac04","who":"BBBBFRPP"}"#,
        Fault::BadField,
    ),
    (
        r#"{"at":9999999999999,"cents":0,"cmd":"submit","id":"","stamp":"","to":"DDDDESMM","who":"DDDDESMM"}"#,
        Fault::BadField,
    ),
    (
        r#"{"at":9999999999999,"cents":0,"cmd":"submit","id":"","stamp":0,"to":"DDDDESMM","who":"DDDDESMM"}"#,
        Fault::BadIdentifier,
    ),
    (
        r#"{"at":9999999999999,"cents":0,"cmd":"submit","id":"T","stamp":0,"to":"DDDDESMM","who":"DDDDESMM"}"#,
        Fault::BadAmount,
    ),
    (
        r#"{"at":9999999999999,"cents":1,"cmd":"submit","id":"T","stamp":0,"to":"DDDDESMM","who":"DDDDESMM"}"#,
        Fault::BadMoment,
    ),
    (
        r#"{"at":0,"cents":1,"cmd":"submit","id":"T","stamp":2199023245552,"to":"DDDDESMM","who":"DDDDESMM"}"#,
        Fault::BadMoment,
    ),
    (
        r#"{"at":0,"cents":1,"cmd":"submit","id":"T","stamp":0,"to":"AAAADEFF","who":"DDDDESMM"}"#,
        Fault::UnknownParticipant,
    ),
    (
        r#"{"at":0,"cents":1,"cmd":"submit","id":"T","stamp":0,"to":"DDDDESMM","who":"AAAADEFF"}"#,
        Fault::UnknownParticipant,
    ),
    (
        r#"{"at":0,"cmd":"confirm","from":"DDDDESMM","id":"T","who":"AAAADEFF"}"#,
        Fault::UnknownParticipant,
    ),
];

/// Lines of steps.
const STEPS: &[Row] = &[
    (
        r#"{"from":"AAAADEFF","place":1024,"step":"learn","who":"AAAADEFF"}"#,
        Fault::BadField,
    ),
    (
        r#"{"from":"AAAADEFF","place":0,"step":"learn","who":"AAAADEF"}"#,
        Fault::BadField,
    ),
    (
        r#"{"from":"DDDDESMM","place":0,"step":"deliver","who":"BBBBFRPP"}"#,
        Fault::UnknownParticipant,
    ),
    (
        r#"{"at":2199023255552,"place":0,"step":"expire","who":"DDDDESMM"}"#,
        Fault::BadMoment,
    ),
    (
        r#"{"at":0,"cmd":"position","step":null,"who":"AAAADEFF"}"#,
        Fault::BadField,
    ),
    (
        r#"{"at":0,"cmd":"position","step":"submit","who":"AAAADEFF"}"#,
        Fault::BadField,
    ),
    ("[\"step\"]", Fault::BadField),
    ("{\"step\"", Fault::NotJson),
];

#[test]
fn refuses_in_order(rt: HostRuntime) {
    for (line, fault) in COMMANDS {
        let refusal = refusal(rt.alloc(), 1000, 0, line.as_bytes());
        same_at(&rt, *line, refusal, Some(*fault));
    }
    let broken = b"{\"at\":0,\"cmd\":\"position\",\"who\":\"AAAADEFF\",\"x\":\"\xff\"}";
    same(
        &rt,
        refusal(rt.alloc(), 1000, 0, broken),
        Some(Fault::NotJson),
    );
}

#[test]
fn refuses_steps_in_order(rt: HostRuntime) {
    mention::<(Ask, Command)>();
    for (line, fault) in STEPS {
        let refusal = read_script(rt.alloc(), line.as_bytes()).err();
        same_at(&rt, *line, refusal, Some(*fault));
    }
}

/// A line, its fault, and the name of the field that is wrong.
type Blame = (&'static str, Fault, Option<Name>, &'static str);

/// Lines of commands.
const BLAMED: &[Blame] = &[
    ("{", Fault::NotJson, None, ""),
    ("{}", Fault::BadField, Some(Name::Cmd), "cmd"),
    (
        r#"{"at":0,"cents":0,"cmd":"fund","ref":"","who":"DDDDESMM"}"#,
        Fault::BadIdentifier,
        Some(Name::Reference),
        "ref",
    ),
    (
        r#"{"at":9999999999999,"cents":0,"cmd":"submit","id":"T","stamp":0,"to":"DDDDESMM","who":"DDDDESMM"}"#,
        Fault::BadAmount,
        Some(Name::Cents),
        "cents",
    ),
    (
        r#"{"at":0,"cents":1,"cmd":"submit","id":"T","stamp":0,"to":"DDDDESMM","who":"AAAADEFF"}"#,
        Fault::UnknownParticipant,
        Some(Name::To),
        "to",
    ),
];

/// Checks that the line's refusal names its field.
fn blames_field(rt: &impl Abort, reader: &mut LineReader, hub: &Settings, blame: &Blame) {
    let (line, fault, field, name) = *blame;
    let read = reader.read_blamed_command(hub, line.as_bytes());
    let found = (read, field.map_or("", Name::as_str));
    same_at(rt, line, found, (Err(Refusal { fault, field }), name));
}

/// Checks that each line's refusal names its field, and that of a step without a place too.
fn blames(rt: &impl Abort, reader: &mut LineReader, hub: &Settings) {
    for blame in BLAMED {
        blames_field(rt, reader, hub, blame);
    }
    let placeless = br#"{"from":"AAAADEFF","step":"learn","who":"AAAADEFF"}"#;
    let field = Some(Name::Place);
    let fault = Fault::BadField;
    let step = reader.read_blamed_step(hub, placeless);
    same(rt, step, Err(Refusal { fault, field }));
}

#[test]
fn blames_the_first_wrong_field(rt: HostRuntime) -> Result<(), Fault> {
    let hub = hub(rt.alloc(), 1_000, 0)?;
    let mut reader = LineReader::new(rt.alloc());
    blames(&rt, &mut reader, &hub);
    Ok(())
}
