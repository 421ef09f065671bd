//! The lines of answers.
ghost use Rattle.std.specs.Prelude.{◌≡◌, ◌<◌, true};
ghost use Rattle.std.specs.List.{list_all};
ghost use Rattle.inst_settings.specs.Settings.{participants, is_participant};
ghost use Rattle.inst_command.specs.LineText.{line_fits};
ghost use Rattle.inst_json.specs.Replies.{answer_can_be_written, is_used};

use crate::comparing::same;
use crate::json::hub::{MOST, hub};
use inst_base::{Cents, Fault, Ident, Moment, Reason};
use inst_command::{Answer, Entries, Entry, Line, LineKind, Lines, Outcome, Reply, State};
use inst_json::{write_answer, write_reply};
use inst_settings::Settings;
use std::process::Abort;

/// Checks that the answer, and the reply in it, are written as this line.
fn is_written(rt: &(impl Abort + AllocGlobal), settings: &Settings, answer: &Answer, wanted: &str)
    requires { answer_can_be_written settings.now answer.now ≡ true }
{
    let line = write_answer(rt.alloc(), settings, answer).expect(rt, "a line");
    same(rt, line.as_slice(), wanted.as_bytes());
    if let Answer::Reply(reply) = answer {
        let line = write_reply(rt.alloc(), settings, reply).expect(rt, "a line");
        same(rt, line.as_slice(), wanted.as_bytes());
    }
}

/// Does the same with an answer that isn't used again.
fn writes(rt: &(impl Abort + AllocGlobal), settings: &Settings, answer: Answer, wanted: &str)
    requires { answer_can_be_written settings.now answer ≡ true }
{
    is_written(rt, settings, &answer, wanted);
}

fn writes_short(rt: &(impl Abort + AllocGlobal), hub: &Settings) -> Result<(), Fault>
    requires { participants hub.now ≡ 3 }
{
    let id = Ident::new("T1")?;
    let reference = Ident::new("F1")?;
    let deadline = Moment::new(0, 11_000)?;
    let line = r#"{"ref":"F1","reply":"done"}"#;
    writes(rt, hub, Answer::Reply(Reply::Done { reference }), line);
    let line = r#"{"deadline":1011000,"id":"T1","reply":"taken"}"#;
    writes(rt, hub, Answer::Reply(Reply::Taken { id, deadline }), line);
    let line = r#"{"fault":"Shortage","number":13,"reply":"refused"}"#;
    writes(
        rt,
        hub,
        Answer::Reply(Reply::Refused(Fault::Shortage)),
        line,
    );
    let line = r#"{"new":true,"reply":"step"}"#;
    writes(rt, hub, Answer::New(true), line);
    let line = r#"{"new":false,"reply":"step"}"#;
    writes(rt, hub, Answer::New(false), line);
    Ok(())
}

fn writes_position(rt: &(impl Abort + AllocGlobal), hub: &Settings)
    requires { participants hub.now ≡ 3 }
{
    let position = Reply::Position {
        position: 50_000,
        reserved: 7,
        available: 49_993,
    };
    let line = r#"{"available":49993,"position":50000,"reply":"position","reserved":7}"#;
    writes(rt, hub, Answer::Reply(position), line);
}

/// Checks the line of a transfer's state.
fn writes_state(
    rt: &(impl Abort + AllocGlobal),
    hub: &Settings,
    from: u8,
    id: Ident,
    state: State,
    wanted: &str,
)
    requires three { participants hub.now ≡ 3 }
    requires there { from < 3 }
    requires used { is_used state ≡ true }
{
    writes(
        rt,
        hub,
        Answer::Reply(Reply::State { from, id, state }),
        wanted,
    );
}

fn writes_each_state(rt: &(impl Abort + AllocGlobal), hub: &Settings) -> Result<(), Fault>
    requires { participants hub.now ≡ 3 }
{
    let id = Ident::new("T1")?;
    let rejected = Outcome::Rejected(Reason::new("AC04")?);
    let line = r#"{"from":"AAAADEFF","id":"T1","reply":"state","state":"pending"}"#;
    writes_state(rt, hub, 0, id, State::Pending, line);
    let line = r#"{"from":"AAAADEFF","id":"T1","reply":"state","state":"accepted"}"#;
    writes_state(rt, hub, 0, id, State::Decided(Outcome::Accepted), line);
    let line =
        r#"{"from":"AAAADEFF","id":"T1","reason":"AC04","reply":"state","state":"rejected"}"#;
    writes_state(rt, hub, 0, id, State::Decided(rejected), line);
    let line = r#"{"from":"CCCCITMM","id":"T1","reply":"state","state":"timed_out"}"#;
    writes_state(rt, hub, 2, id, State::Decided(Outcome::TimedOut), line);
    Ok(())
}

/// Checks the line of an inbox with these entries.
fn writes_inbox(rt: &(impl Abort + AllocGlobal), hub: &Settings, entries: &[Entry], wanted: &str)
    requires { list_all (λ entry. is_participant hub.now entry.from) entries.now ≡ true }
{
    let entries = Entries::new(entries.to_vec(rt.alloc()).expect(rt, "entries"));
    writes(rt, hub, Answer::Reply(Reply::Inbox { entries }), wanted);
}

fn writes_each_inbox(rt: &(impl Abort + AllocGlobal), hub: &Settings) -> Result<(), Fault>
    requires { participants hub.now ≡ 3 }
{
    let first = Entry {
        from: 0,
        id: Ident::new("T1")?,
        cents: Cents::new(100)?,
        deadline: Moment::new(0, 11_000)?,
    };
    let second = Entry {
        from: 2,
        id: Ident::new("O'B, (1)")?,
        ..first
    };
    writes_inbox(rt, hub, &[], r#"{"entries":[],"reply":"inbox"}"#);
    let line =
        r#"{"entries":[{"cents":100,"deadline":11000,"from":"AAAADEFF","id":"T1"}],"reply":"inbox"}"#;
    writes_inbox(rt, hub, &[first], line);
    let line = "{\"entries\":[\
        {\"cents\":100,\"deadline\":11000,\"from\":\"AAAADEFF\",\"id\":\"T1\"},\
        {\"cents\":100,\"deadline\":11000,\"from\":\"CCCCITMM\",\"id\":\"O'B, (1)\"}],\
        \"reply\":\"inbox\"}";
    writes_inbox(rt, hub, &[first, second], line);
    Ok(())
}

/// Checks the line of a statement with these lines.
fn writes_statement(rt: &(impl Abort + AllocGlobal), hub: &Settings, lines: &[Line], wanted: &str)
    requires { list_all (line_fits hub.now) lines.now ≡ true }
{
    let lines = Lines::new(lines.to_vec(rt.alloc()).expect(rt, "lines"));
    writes(rt, hub, Answer::Reply(Reply::Statement { lines }), wanted);
}

fn writes_each_statement(rt: &(impl Abort + AllocGlobal), hub: &Settings) -> Result<(), Fault>
    requires { participants hub.now ≡ 3 }
{
    let received = Line {
        number: 1,
        kind: LineKind::Received,
        other: Some(0),
        id: Ident::new("T1")?,
        cents: Cents::new(20_000)?,
        position: 20_000,
    };
    let funded = Line {
        number: 2,
        kind: LineKind::Funded,
        other: None,
        id: Ident::new("F1")?,
        cents: Cents::new(50_000)?,
        position: 70_000,
    };
    writes_statement(rt, hub, &[], r#"{"lines":[],"reply":"statement"}"#);
    let line =
        r#"{"lines":["     1 IN  AAAADEFF    T1                                        20000                20000"],"reply":"statement"}"#;
    writes_statement(rt, hub, &[received], line);
    let line = "{\"lines\":[\
        \"     1 IN  AAAADEFF    T1                                        20000                20000\",\
        \"     2 FND             F1                                        50000                70000\"],\
        \"reply\":\"statement\"}";
    writes_statement(rt, hub, &[received, funded], line);
    Ok(())
}

#[test]
fn writes_short_replies(rt: HostRuntime) -> Result<(), Fault> {
    let hub = hub(rt.alloc(), MOST, 1_000_000)?;
    writes_position(&rt, &hub);
    writes_short(&rt, &hub)
}

#[test]
fn writes_states(rt: HostRuntime) -> Result<(), Fault> {
    let hub = hub(rt.alloc(), MOST, 0)?;
    writes_each_state(&rt, &hub)
}

#[test]
fn writes_inboxes(rt: HostRuntime) -> Result<(), Fault> {
    let hub = hub(rt.alloc(), MOST, 0)?;
    writes_each_inbox(&rt, &hub)
}

#[test]
fn writes_statements(rt: HostRuntime) -> Result<(), Fault> {
    let hub = hub(rt.alloc(), MOST, 0)?;
    writes_each_statement(&rt, &hub)
}
