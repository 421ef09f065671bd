//! Worlds, step by step and line by line, with three participants that have 2 places and 4 fundings
//! each.
use crate::comparing::{same, same_at};
use crate::ledger::asked::outcome;
use crate::world::told::{ExpectedAnswer, answers};
use inst_agenda::{Runner, follow_up};
use inst_base::{Cents, Fault, Ident, Moment, mention};
use inst_command::{Answer, Ask, Command, LineKind, Outcome, Place, Reply, Step, Submission};
use inst_fixtures::{End, Shown, are_lines, confirm, fund, settings, submit};
use inst_journal::Event;
use inst_json::LineReader;
use inst_settings::Settings;
use inst_world::World;
use std::alloc::Global;
use std::process::Abort;
use std::test::Fail;

/// Compares the history of a participant.
fn journal_is(rt: &impl Abort, world: &World, who: u8, events: &[Event]) -> Result<(), Fail> {
    mention::<Outcome>();
    assert!(rt; world.settings().has_participant(who));
    same(rt, world.journal(who).events(), events);
    Ok(())
}

/// Returns position and reserved of a participant, if it exists.
fn money_of(world: &World, who: u8) -> Option<(u128, u128)> {
    if !world.settings().has_participant(who) {
        return None;
    }
    Some((world.position(who), world.journal(who).reserved()))
}

/// Compares position and reserved of the three participants.
fn money_is(rt: &impl Abort, world: &World, money: [(u128, u128); 3]) {
    for (who, wanted) in money.iter().enumerate() {
        same_at(rt, who, money_of(world, who as u8), Some(*wanted));
    }
}

/// Returns `true` if this is a reply other than a refusal.
fn is_taken(answer: &Answer) -> bool {
    match answer {
        Answer::Reply(reply) => !matches!(reply, Reply::Refused(_)),
        Answer::New(_) => false,
    }
}

/// Checks that the first participant's transfer to the second is at its first place, pending until
/// 11,000.
fn lies_at_the_first_place(rt: &impl Abort, world: &mut World, id: &Ident) -> Result<(), Fail> {
    let place = Place { owner: 0, index: 0 };
    let deadline = Moment::new(0, 11_000)?;
    let found = (world.beneficiary_at(place), world.pending_until(place));
    same(rt, found, (Some(1), Some(deadline)));
    assert!(rt; world.settings().has_participant(0));
    same(rt, world.place_of(0, id), Some(place));
    Ok(())
}

/// Funds the first participant, which submits a transfer to the second.
fn is_submitted(rt: &impl Abort, world: &mut World) -> Result<(), Fail> {
    mention::<(Ask, Command, Submission)>();
    let steps = [fund(0, "F1", 500, 0)?, submit(0, "T1", 1, 200, 1000, 1000)?];
    answers(
        rt,
        world,
        &steps,
        &[
            ExpectedAnswer::Done("F1"),
            ExpectedAnswer::Taken("T1", 11_000),
        ],
    )?;
    lies_at_the_first_place(rt, world, &Ident::new("T1")?)
}

/// The answers when a transfer is delivered twice and then confirmed.
const CONFIRMED: [ExpectedAnswer; 3] = [
    ExpectedAnswer::New(true),
    ExpectedAnswer::New(false),
    ExpectedAnswer::Decided(0, Outcome::Accepted),
];

/// The second participant receives the transfer once, and confirms it.
fn is_confirmed(rt: &impl Abort, world: &mut World) -> Result<(), Fail> {
    let deliver = Step::Deliver {
        from: 0,
        index: 0,
        to: 1,
    };
    let steps = [deliver, deliver, confirm(1, 0, "T1", 2000)?];
    answers(rt, world, &steps, &CONFIRMED)?;
    money_is(rt, world, [(500, 200), (200, 0), (0, 0)]);
    Ok(())
}

/// The answers when an outcome is learnt twice and then the deadline passes.
const LEARNT: [ExpectedAnswer; 3] = [
    ExpectedAnswer::New(true),
    ExpectedAnswer::New(false),
    ExpectedAnswer::New(false),
];

/// The first participant learns it once, and nothing is left to expire.
fn is_learnt(rt: &impl Abort, world: &mut World) -> Result<(), Fail> {
    let learn = Step::Learn {
        who: 0,
        from: 0,
        index: 0,
    };
    let expire = Step::Expire {
        who: 0,
        index: 0,
        at: Moment::new(0, 20_000)?,
    };
    answers(rt, world, &[learn, learn, expire], &LEARNT)?;
    money_is(rt, world, [(300, 0), (200, 0), (0, 0)]);
    Ok(())
}

/// A transfer is submitted, confirmed and learnt.
fn goes_step_by_step(rt: &impl Abort, world: &mut World) -> Result<(), Fail> {
    same(rt, world.settings().participants(), 3);
    is_submitted(rt, world)?;
    is_confirmed(rt, world)?;
    is_learnt(rt, world)
}

/// The statements of the three participants after that.
const STATEMENTS: [&[Shown]; 3] = [
    &[
        (1, LineKind::Funded, None, "F1", 500, 500),
        (2, LineKind::Paid, Some(1), "T1", 200, 300),
    ],
    &[(1, LineKind::Received, Some(0), "T1", 200, 200)],
    &[],
];

/// Compares the statements of all participants; none is refused.
fn statements_are(rt: &impl Abort, alloc: Global, world: &World) -> Result<(), Fail> {
    for (who, wanted) in STATEMENTS.iter().enumerate() {
        let who = who as u8;
        assert!(rt; world.settings().has_participant(who));
        let lines = world.statement(alloc, who, 0, 10)?;
        same_at(
            rt,
            usize::from(who),
            are_lines(lines.as_slice(), wanted),
            true,
        );
    }
    Ok(())
}

#[test]
fn a_world_goes_step_by_step(rt: HostRuntime) -> Result<(), Fail> {
    let mut world = World::open(rt.alloc(), &settings(rt.alloc())?)?;
    goes_step_by_step(&rt, &mut world)?;
    statements_are(&rt, rt.alloc(), &world)
}

/// Returns whether the reply to the line is no refusal, and the line's clock reading.
fn is_line_taken(
    reader: &mut LineReader,
    runner: &mut Runner,
    line: &str,
) -> Result<(bool, Moment), Fault> {
    mention::<Command>();
    let ask = reader.read_command(runner.settings(), line.as_bytes())?;
    let answer = runner.ask(&ask)?;
    Ok((is_taken(&answer), ask.at))
}

/// Answers the line with its follow-ups, as a run does. It must not be refused.
fn run_line(
    rt: &impl Abort,
    reader: &mut LineReader,
    runner: &mut Runner,
    line: &str,
) -> Result<(), Fail> {
    let (is_taken, at) = is_line_taken(reader, runner, line)?;
    same(rt, is_taken, true);
    Ok(follow_up(runner, at)?)
}

/// Answers the lines one after another.
fn run_lines(
    rt: &(impl Abort + AllocGlobal),
    runner: &mut Runner,
    lines: &str,
) -> Result<(), Fail> {
    let mut reader = LineReader::new(rt.alloc());
    for line in lines.lines() {
        run_line(rt, &mut reader, runner, line)?;
    }
    Ok(())
}

/// A decided transfer of the first participant: its beneficiary, its identifier, its amount in
/// cents, and its outcome.
type Ended = (u8, &'static str, u64, End);

/// Checks that the beneficiary received the transfer and booked this outcome.
fn is_booked(rt: &impl Abort, world: &World, ended: &Ended) -> Result<(), Fail> {
    let (to, id, cents, end) = *ended;
    let id = Ident::new(id)?;
    let forwarded = Event::Forwarded {
        from: 0,
        id,
        cents: Cents::new(cents)?,
        deadline: Moment::new(0, 11_000)?,
    };
    let booked = Event::Booked {
        from: 0,
        id,
        outcome: outcome(&end)?,
    };
    journal_is(rt, world, to, &[forwarded, booked])
}

/// Answers the lines, and checks the outcomes and the money.
fn runs_to(
    rt: &(impl Abort + AllocGlobal),
    runner: &mut Runner,
    lines: &str,
    ends: &[Ended],
    money: [(u128, u128); 3],
) -> Result<(), Fail> {
    run_lines(rt, runner, lines)?;
    for ended in ends {
        is_booked(rt, &runner.world, ended)?;
    }
    money_is(rt, &runner.world, money);
    Ok(())
}

/// Does so at a new hub.
fn opens_and_runs_to(
    rt: &(impl Abort + AllocGlobal),
    settings: &Settings,
    lines: &str,
    ends: &[Ended],
    money: [(u128, u128); 3],
) -> Result<(), Fail> {
    let mut runner = Runner::open(rt.alloc(), settings)?;
    runs_to(rt, &mut runner, lines, ends, money)
}

/// Each side books each outcome, the originator before its transfer may expire: the histories show
/// it, the replies of a run don't. One transfer is rejected, the other times out, and the first
/// participant has its money back.
#[test]
fn a_run_tells_both_sides(rt: HostRuntime) -> Result<(), Fail> {
    opens_and_runs_to(
        &rt,
        &settings(rt.alloc())?,
        r#"{"at":0,"cents":50000,"cmd":"fund","ref":"F1","who":"AAAADEFF"}
{"at":1000,"cents":20000,"cmd":"submit","id":"T1","stamp":1000,"to":"BBBBFRPP","who":"AAAADEFF"}
{"at":1000,"cents":5000,"cmd":"submit","id":"T2","stamp":1000,"to":"CCCCITMM","who":"AAAADEFF"}
{"at":2000,"cmd":"reject","from":"AAAADEFF","id":"T1","reason":"AC04","who":"BBBBFRPP"}
{"at":11000,"cmd":"position","who":"BBBBFRPP"}
"#,
        &[
            (1, "T1", 20_000, End::Rejected("AC04")),
            (2, "T2", 5000, End::TimedOut),
        ],
        [(50_000, 0), (0, 0), (0, 0)],
    )
}

#[test]
fn a_run_moves_money(rt: HostRuntime) -> Result<(), Fail> {
    opens_and_runs_to(
        &rt,
        &settings(rt.alloc())?,
        r#"{"at":0,"cents":50000,"cmd":"fund","ref":"F1","who":"AAAADEFF"}
{"at":0,"cents":700,"cmd":"fund","ref":"F2","who":"CCCCITMM"}
{"at":1000,"cents":20000,"cmd":"submit","id":"T1","stamp":1000,"to":"BBBBFRPP","who":"AAAADEFF"}
{"at":1000,"cents":300,"cmd":"submit","id":"T1","stamp":1000,"to":"AAAADEFF","who":"CCCCITMM"}
{"at":2000,"cmd":"confirm","from":"AAAADEFF","id":"T1","who":"BBBBFRPP"}
{"at":2500,"cmd":"investigate","id":"T1","who":"CCCCITMM"}
{"at":3000,"cents":5000,"cmd":"submit","id":"T2","stamp":3000,"to":"CCCCITMM","who":"BBBBFRPP"}
{"at":11000,"cmd":"investigate","id":"T1","who":"CCCCITMM"}
"#,
        &[],
        [(30_000, 0), (20_000, 5000), (700, 0)],
    )
}
