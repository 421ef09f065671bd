//! Reading of each command and step.
use crate::comparing::same_at;
use crate::json::hub::{MOST, read, read_script};
use inst_base::{Cents, Fault, Ident, Moment, Reason};
use inst_command::{Ask, Command, Funding, Query, Step, Submission};
use std::process::Abort;

/// The participant, its command, and the clock reading.
type Asked = (u8, Command, u64);

/// Lines of commands.
const COMMANDS: &[&str; 11] = &[
    r#"{"at":0,"cents":50000,"cmd":"fund","ref":"F1","who":"AAAADEFF"}"#,
    r#"{"at":3000,"cents":5000,"cmd":"defund","ref":"D1","who":"AAAADEFF"}"#,
    r#"{"at":1000,"cents":50000,"cmd":"submit","id":"T1","stamp":1000,"to":"BBBBFRPP","who":"AAAADEFF"}"#,
    r#"{"at":2000,"cmd":"confirm","from":"AAAADEFF","id":"T1","who":"BBBBFRPP"}"#,
    r#"{"at":2000,"cmd":"reject","from":"AAAADEFF","id":"T1","reason":"AC04","who":"BBBBFRPP"}"#,
    r#"{"at":2100,"cmd":"investigate","id":"T1","who":"AAAADEFF"}"#,
    r#"{"at":1500,"cmd":"fetch","max":10,"who":"BBBBFRPP"}"#,
    r#"{"at":0,"cmd":"position","who":"AAAADEFF"}"#,
    r#"{"at":3000,"cmd":"statement","count":10,"skip":0,"who":"AAAADEFF"}"#,
    " \t{\"who\":\"CCCCITMM\",\"x\":{},\"skip\":18446744073709551615,\"count\":100,\"at\":9,\"\\u0061t\":7,\"cmd\":\"\\u0073tatement\"}\r",
    r#"{"cents":null,"step2":1,"cmd":"position","who":"AAAADEFF","at":5}"#,
];

/// Returns the asks of these lines.
fn asks() -> Result<[Asked; 11], Fault> {
    let id = Ident::new("T1")?;
    let cents = Cents::new(50_000)?;
    let fund = Command::Fund(Funding {
        reference: Ident::new("F1")?,
        cents,
    });
    let defund = Command::Defund(Funding {
        reference: Ident::new("D1")?,
        cents: Cents::new(5000)?,
    });
    let submit = Command::Submit(Submission {
        id,
        to: 1,
        cents,
        stamp: Moment::new(0, 1000)?,
    });
    let reject = Command::Reject {
        from: 0,
        id,
        reason: Reason::new("AC04")?,
    };
    let last = Command::Query(Query::Statement {
        skip: u64::MAX,
        count: 100,
    });
    Ok([
        (0, fund, 0),
        (0, defund, 3000),
        (0, submit, 1000),
        (1, Command::Confirm { from: 0, id }, 2000),
        (1, reject, 2000),
        (0, Command::Investigate { id }, 2100),
        (1, Command::Fetch { max: 10 }, 1500),
        (0, Command::Query(Query::Position), 0),
        (
            0,
            Command::Query(Query::Statement { skip: 0, count: 10 }),
            3000,
        ),
        (2, last, 7),
        (0, Command::Query(Query::Position), 5),
    ])
}

/// Returns the one with this number, from 0.
fn ask(asks: &[Asked], nth: usize) -> Result<Ask, Fault> {
    let Some(&(who, command, at)) = asks.get(nth) else {
        return Err(Fault::BadField);
    };
    let at = Moment::new(0, at)?;
    Ok(Ask { who, command, at })
}

/// Checks that each line is read as its ask.
fn reads(rt: &(impl Abort + AllocGlobal), asks: &[Asked; 11]) -> Result<(), Fault> {
    for (nth, line) in COMMANDS.iter().enumerate() {
        let read = read(rt.alloc(), MOST, 0, line.as_bytes());
        same_at(rt, *line, read, Ok(ask(asks, nth)?));
    }
    Ok(())
}

#[test]
fn reads_each_command(rt: HostRuntime) -> Result<(), Fault> {
    reads(&rt, &asks()?)
}

/// Lines of scripts.
const STEPS: &[&str; 4] = &[
    r#"{"from":"AAAADEFF","place":0,"step":"deliver","who":"BBBBFRPP"}"#,
    r#"{"from":"AAAADEFF","place":1023,"step":"learn","who":"AAAADEFF","at":-1}"#,
    r#"{"at":11000,"place":0,"step":"expire","who":"AAAADEFF"}"#,
    r#"{"at":11000,"cmd":"position","who":"AAAADEFF"}"#,
];

/// Returns the steps of these lines.
fn steps() -> Result<[Step; 4], Fault> {
    let at = Moment::new(0, 11_000)?;
    Ok([
        Step::Deliver {
            from: 0,
            index: 0,
            to: 1,
        },
        Step::Learn {
            who: 0,
            from: 0,
            index: 1023,
        },
        Step::Expire {
            who: 0,
            index: 0,
            at,
        },
        Step::Ask(Ask {
            who: 0,
            command: Command::Query(Query::Position),
            at,
        }),
    ])
}

/// Returns the one with this number, from 0.
fn step(steps: &[Step], nth: usize) -> Result<Step, Fault> {
    steps.get(nth).copied().ok_or(Fault::BadField)
}

/// Checks that each line of a script is read as its step.
fn reads_steps(rt: &(impl Abort + AllocGlobal), steps: &[Step; 4]) -> Result<(), Fault> {
    for (nth, line) in STEPS.iter().enumerate() {
        let read = read_script(rt.alloc(), line.as_bytes());
        same_at(rt, *line, read, Ok(step(steps, nth)?));
    }
    Ok(())
}

#[test]
fn reads_each_step(rt: HostRuntime) -> Result<(), Fault> {
    reads_steps(&rt, &steps()?)
}
