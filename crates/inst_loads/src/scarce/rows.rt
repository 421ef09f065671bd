//! The rows, as lines: a step, its answer, and whether it allocates.
use crate::scarce::want::Need;

/// A step, its answer, and whether it allocates.
#[derive(Clone, Copy)]
pub(crate) struct RowLine {
    pub(crate) step: &'static str,
    pub(crate) answer: &'static str,
    pub(crate) need: Need,
}

fn takes(step: &'static str, answer: &'static str) -> RowLine {
    let need = Need::Takes;
    RowLine { step, answer, need }
}

fn takes_none(step: &'static str, answer: &'static str) -> RowLine {
    let need = Need::TakesNone;
    RowLine { step, answer, need }
}

fn may_take(step: &'static str, answer: &'static str) -> RowLine {
    let need = Need::MayTake;
    RowLine { step, answer, need }
}

/// Funds the first participant.
fn funded() -> RowLine {
    takes(
        r#"{"at":0,"cents":50000,"cmd":"fund","ref":"F1","who":"AAAADEFF"}"#,
        r#"{"ref":"F1","reply":"done"}"#,
    )
}

/// Submits a transfer to the second participant.
fn submitted() -> RowLine {
    takes(
        r#"{"at":1000,"cents":20000,"cmd":"submit","id":"T1","stamp":1000,"to":"BBBBFRPP","who":"AAAADEFF"}"#,
        r#"{"deadline":11000,"id":"T1","reply":"taken"}"#,
    )
}

/// Delivers the transfer.
fn delivered() -> RowLine {
    takes(
        r#"{"from":"AAAADEFF","place":0,"step":"deliver","who":"BBBBFRPP"}"#,
        r#"{"new":true,"reply":"step"}"#,
    )
}

/// A submission reserves its amount. Its repeat, refusals and queries don't allocate.
pub(crate) fn submit_reserves() -> [RowLine; 8] {
    [
        funded(),
        takes_none(
            r#"{"at":0,"cmd":"position","who":"AAAADEFF"}"#,
            r#"{"available":50000,"position":50000,"reply":"position","reserved":0}"#,
        ),
        takes(
            r#"{"at":1000,"cents":50000,"cmd":"submit","id":"T1","stamp":1000,"to":"BBBBFRPP","who":"AAAADEFF"}"#,
            r#"{"deadline":11000,"id":"T1","reply":"taken"}"#,
        ),
        takes_none(
            r#"{"at":1000,"cmd":"position","who":"AAAADEFF"}"#,
            r#"{"available":0,"position":50000,"reply":"position","reserved":50000}"#,
        ),
        takes_none(
            r#"{"at":1002,"cents":50000,"cmd":"submit","id":"T1","stamp":1000,"to":"BBBBFRPP","who":"AAAADEFF"}"#,
            r#"{"deadline":11000,"id":"T1","reply":"taken"}"#,
        ),
        takes_none(
            r#"{"at":1002,"cents":49999,"cmd":"submit","id":"T1","stamp":1000,"to":"BBBBFRPP","who":"AAAADEFF"}"#,
            r#"{"fault":"Duplicate","number":9,"reply":"refused"}"#,
        ),
        takes_none(
            r#"{"at":1001,"cents":1,"cmd":"submit","id":"T2","stamp":1000,"to":"BBBBFRPP","who":"AAAADEFF"}"#,
            r#"{"fault":"Shortage","number":13,"reply":"refused"}"#,
        ),
        takes_none(
            r#"{"at":10999,"cmd":"investigate","id":"T1","who":"AAAADEFF"}"#,
            r#"{"from":"AAAADEFF","id":"T1","reply":"state","state":"pending"}"#,
        ),
    ]
}

/// A confirmation in time, followed by the expiry.
pub(crate) fn confirm_before_expire() -> [RowLine; 10] {
    [
        funded(),
        submitted(),
        delivered(),
        takes_none(
            r#"{"from":"AAAADEFF","place":0,"step":"deliver","who":"BBBBFRPP"}"#,
            r#"{"new":false,"reply":"step"}"#,
        ),
        may_take(
            r#"{"at":10999,"cmd":"confirm","from":"AAAADEFF","id":"T1","who":"BBBBFRPP"}"#,
            r#"{"from":"AAAADEFF","id":"T1","reply":"state","state":"accepted"}"#,
        ),
        takes_none(
            r#"{"at":10999,"cmd":"confirm","from":"AAAADEFF","id":"T1","who":"BBBBFRPP"}"#,
            r#"{"from":"AAAADEFF","id":"T1","reply":"state","state":"accepted"}"#,
        ),
        may_take(
            r#"{"at":11000,"place":0,"step":"expire","who":"AAAADEFF"}"#,
            r#"{"new":true,"reply":"step"}"#,
        ),
        takes_none(
            r#"{"from":"AAAADEFF","place":0,"step":"learn","who":"AAAADEFF"}"#,
            r#"{"new":false,"reply":"step"}"#,
        ),
        takes_none(
            r#"{"at":11000,"cmd":"position","who":"AAAADEFF"}"#,
            r#"{"available":30000,"position":30000,"reply":"position","reserved":0}"#,
        ),
        takes_none(
            r#"{"at":11000,"cmd":"position","who":"BBBBFRPP"}"#,
            r#"{"available":20000,"position":20000,"reply":"position","reserved":0}"#,
        ),
    ]
}

/// A statement with its pages, and the steps that a run takes after each line.
pub(crate) fn statement_lines() -> [RowLine; 17] {
    [
        funded(),
        submitted(),
        delivered(),
        takes_none(
            r#"{"from":"AAAADEFF","place":0,"step":"learn","who":"AAAADEFF"}"#,
            r#"{"new":false,"reply":"step"}"#,
        ),
        takes_none(
            r#"{"at":1000,"place":0,"step":"expire","who":"AAAADEFF"}"#,
            r#"{"new":false,"reply":"step"}"#,
        ),
        takes_none(
            r#"{"from":"AAAADEFF","place":0,"step":"learn","who":"BBBBFRPP"}"#,
            r#"{"new":false,"reply":"step"}"#,
        ),
        may_take(
            r#"{"at":2000,"cmd":"confirm","from":"AAAADEFF","id":"T1","who":"BBBBFRPP"}"#,
            r#"{"from":"AAAADEFF","id":"T1","reply":"state","state":"accepted"}"#,
        ),
        takes_none(
            r#"{"from":"AAAADEFF","place":0,"step":"deliver","who":"BBBBFRPP"}"#,
            r#"{"new":false,"reply":"step"}"#,
        ),
        may_take(
            r#"{"from":"AAAADEFF","place":0,"step":"learn","who":"AAAADEFF"}"#,
            r#"{"new":true,"reply":"step"}"#,
        ),
        takes_none(
            r#"{"at":2000,"place":0,"step":"expire","who":"AAAADEFF"}"#,
            r#"{"new":false,"reply":"step"}"#,
        ),
        takes_none(
            r#"{"from":"AAAADEFF","place":0,"step":"learn","who":"BBBBFRPP"}"#,
            r#"{"new":false,"reply":"step"}"#,
        ),
        may_take(
            r#"{"at":3000,"cents":5000,"cmd":"defund","ref":"D1","who":"AAAADEFF"}"#,
            r#"{"ref":"D1","reply":"done"}"#,
        ),
        may_take(
            r#"{"at":3000,"cents":20000,"cmd":"defund","ref":"D2","who":"BBBBFRPP"}"#,
            r#"{"ref":"D2","reply":"done"}"#,
        ),
        takes_none(
            r#"{"at":3000,"cmd":"position","who":"BBBBFRPP"}"#,
            r#"{"available":0,"position":0,"reply":"position","reserved":0}"#,
        ),
        takes(
            r#"{"at":3000,"cmd":"statement","count":10,"skip":0,"who":"AAAADEFF"}"#,
            r#"{"lines":["     1 FND             F1                                        50000                50000","     2 OUT BBBBFRPP    T1                                        20000                30000","     3 DFD             D1                                         5000                25000"],"reply":"statement"}"#,
        ),
        takes(
            r#"{"at":3000,"cmd":"statement","count":1,"skip":1,"who":"AAAADEFF"}"#,
            r#"{"lines":["     2 OUT BBBBFRPP    T1                                        20000                30000"],"reply":"statement"}"#,
        ),
        may_take(
            r#"{"at":3000,"cmd":"statement","count":10,"skip":3,"who":"AAAADEFF"}"#,
            r#"{"lines":[],"reply":"statement"}"#,
        ),
    ]
}
