//! A hub that has answered lines.
use crate::comparing::same;
use inst_agenda::Runner;
use inst_base::{Fault, Moment};
use inst_command::{Answer, Ask, Command, Query, Reply, Step};
use inst_fixtures::{A, settings};
use inst_lines::{Counts, Mode, Served, serve_lines};
use inst_settings::Settings;
use std::alloc::Global;
use std::process::Abort;
use std::test::Fail;

/// Five lines, the last one without a newline; the second and the fourth are no commands.
const LINES: &str = r#"{"at":0,"cents":500,"cmd":"fund","ref":"F1","who":"AAAADEFF"}
{"at":0,"cents":500,"cmd":"fund","who":"AAAADEFF"}
{"at":0,"cents":500,"cmd":"submit","id":"T1","stamp":0,"to":"BBBBFRPP","who":"AAAADEFF"}

{"at":10,"cents":100,"cmd":"defund","ref":"D1","who":"AAAADEFF"}"#;

/// Returns position, reserved and available of the first participant.
fn money_of(runner: &mut Runner) -> Result<[u64; 3], Fail> {
    let step = Step::Ask(Ask {
        who: A,
        command: Command::Query(Query::Position),
        at: Moment::new(0, 0)?,
    });
    if !step.fits(runner.settings()) {
        return Ok([0; 3]);
    }
    match &runner.step(&step)? {
        Answer::Reply(
            Reply::Position {
                position,
                reserved,
                available,
            },
        ) => Ok([*position, *reserved, *available]),
        _ => Ok([0; 3]),
    }
}

/// Checks that the counts of lines and refusals, and the first participant's money, are right.
fn has_answered(rt: &impl Abort, served: &mut Served) -> Result<(), Fail> {
    let counts = Counts {
        lines: 5,
        refused: 3,
    };
    same(rt, served.counts, counts);
    same(rt, money_of(&mut served.runner)?, [500, 500, 0]);
    Ok(())
}

/// Answers the lines and returns the hub.
fn served(alloc: Global, settings: &Settings) -> Result<Served, Fault> {
    let mut reader = LINES.as_bytes();
    let mut replies = Vec::new(alloc);
    serve_lines(alloc, Mode::Run, settings, &mut reader, &mut replies)
}

#[test]
fn leaves_the_hub_that_answered(rt: HostRuntime) -> Result<(), Fail> {
    let settings = settings(rt.alloc())?;
    let mut served = served(rt.alloc(), &settings)?;
    has_answered(&rt, &mut served)
}
