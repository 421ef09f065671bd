//! Input that is cut after each byte.
use crate::comparing::same;
use crate::lines::serving::{Row, are_replies, lines_of, written};
use inst_fixtures::settings;
use inst_lines::Mode;
use inst_settings::Settings;
use std::alloc::Global;
use std::process::Abort;
use std::test::Fail;

/// A statement with its pages, and the steps that a run takes after each line.
const STATEMENT_LINES: &[Row] = &[
    (
        br#"{"at":0,"cents":50000,"cmd":"fund","ref":"F1","who":"AAAADEFF"}"#,
        r#"{"ref":"F1","reply":"done"}"#,
    ),
    (
        br#"{"at":1000,"cents":20000,"cmd":"submit","id":"T1","stamp":1000,"to":"BBBBFRPP","who":"AAAADEFF"}"#,
        r#"{"deadline":11000,"id":"T1","reply":"taken"}"#,
    ),
    (
        br#"{"from":"AAAADEFF","place":0,"step":"deliver","who":"BBBBFRPP"}"#,
        r#"{"new":true,"reply":"step"}"#,
    ),
    (
        br#"{"from":"AAAADEFF","place":0,"step":"learn","who":"AAAADEFF"}"#,
        r#"{"new":false,"reply":"step"}"#,
    ),
    (
        br#"{"at":1000,"place":0,"step":"expire","who":"AAAADEFF"}"#,
        r#"{"new":false,"reply":"step"}"#,
    ),
    (
        br#"{"from":"AAAADEFF","place":0,"step":"learn","who":"BBBBFRPP"}"#,
        r#"{"new":false,"reply":"step"}"#,
    ),
    (
        br#"{"at":2000,"cmd":"confirm","from":"AAAADEFF","id":"T1","who":"BBBBFRPP"}"#,
        r#"{"from":"AAAADEFF","id":"T1","reply":"state","state":"accepted"}"#,
    ),
    (
        br#"{"from":"AAAADEFF","place":0,"step":"deliver","who":"BBBBFRPP"}"#,
        r#"{"new":false,"reply":"step"}"#,
    ),
    (
        br#"{"from":"AAAADEFF","place":0,"step":"learn","who":"AAAADEFF"}"#,
        r#"{"new":true,"reply":"step"}"#,
    ),
    (
        br#"{"at":2000,"place":0,"step":"expire","who":"AAAADEFF"}"#,
        r#"{"new":false,"reply":"step"}"#,
    ),
    (
        br#"{"from":"AAAADEFF","place":0,"step":"learn","who":"BBBBFRPP"}"#,
        r#"{"new":false,"reply":"step"}"#,
    ),
    (
        br#"{"at":3000,"cents":5000,"cmd":"defund","ref":"D1","who":"AAAADEFF"}"#,
        r#"{"ref":"D1","reply":"done"}"#,
    ),
    (
        br#"{"at":3000,"cents":20000,"cmd":"defund","ref":"D2","who":"BBBBFRPP"}"#,
        r#"{"ref":"D2","reply":"done"}"#,
    ),
    (
        br#"{"at":3000,"cmd":"position","who":"BBBBFRPP"}"#,
        r#"{"available":0,"position":0,"reply":"position","reserved":0}"#,
    ),
    (
        br#"{"at":3000,"cmd":"statement","count":10,"skip":0,"who":"AAAADEFF"}"#,
        r#"{"lines":["     1 FND             F1                                        50000                50000","     2 OUT BBBBFRPP    T1                                        20000                30000","     3 DFD             D1                                         5000                25000"],"reply":"statement"}"#,
    ),
    (
        br#"{"at":3000,"cmd":"statement","count":1,"skip":1,"who":"AAAADEFF"}"#,
        r#"{"lines":["     2 OUT BBBBFRPP    T1                                        20000                30000"],"reply":"statement"}"#,
    ),
    (
        br#"{"at":3000,"cmd":"statement","count":10,"skip":3,"who":"AAAADEFF"}"#,
        r#"{"lines":[],"reply":"statement"}"#,
    ),
];

/// Returns only the rows of commands.
fn commands(alloc: Global, rows: &'static [Row<'static>]) -> Result<Vec<Row<'static>>, Fail> {
    let mut commands = Vec::new(alloc);
    for row in rows {
        let (_, reply) = row;
        if !reply.ends_with(r#""reply":"step"}"#) {
            commands.push(*row)?;
        }
    }
    Ok(commands)
}

/// Compares the replies to this prefix of the lines.
fn cut_after(
    rt: &(impl Abort + AllocGlobal),
    mode: Mode,
    settings: &Settings,
    rows: &[Row],
    front: &[u8],
) -> Result<(), Fail> {
    let written = written(rt.alloc(), mode, settings, front)?;
    are_replies(rt, &written, rows, front.len())
}

/// Compares the replies if the input is cut before the first byte and after each byte.
fn cut_input(
    rt: &(impl Abort + AllocGlobal),
    mode: Mode,
    settings: &Settings,
    rows: &[Row],
    input: &[u8],
) -> Result<(), Fail> {
    for len in 0..=input.len() {
        cut_after(rt, mode, settings, rows, &input[..len])?;
    }
    Ok(())
}

/// Does so for the lines of these rows.
fn cut_after_each_byte(
    rt: &(impl Abort + AllocGlobal),
    mode: Mode,
    settings: &Settings,
    rows: &[Row],
) -> Result<(), Fail> {
    let input = lines_of(rt.alloc(), rows)?;
    cut_input(rt, mode, settings, rows, &input)
}

/// Does so for a run over the commands and for a play of all lines.
fn cut_in_each_mode(
    rt: &(impl Abort + AllocGlobal),
    settings: &Settings,
    commands: &[Row],
) -> Result<(), Fail> {
    same(rt, commands.len(), 9);
    cut_after_each_byte(rt, Mode::Run, settings, commands)?;
    cut_after_each_byte(rt, Mode::Play, settings, STATEMENT_LINES)
}

#[test]
fn statement_lines_cut_after_each_byte(rt: HostRuntime) -> Result<(), Fail> {
    let settings = settings(rt.alloc())?;
    let commands = commands(rt.alloc(), STATEMENT_LINES)?;
    cut_in_each_mode(&rt, &settings, &commands)
}
