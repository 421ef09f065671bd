//! Expected answers of a world, as short texts and plain numbers.
use crate::comparing::same_at;
use inst_base::{Fault, Ident, Moment};
use inst_command::{Answer, Outcome, Reply, State, Step};
use inst_fixtures::{Came, Shown, are_entries, are_lines};
use inst_world::World;
use std::process::Abort;
use std::test::Fail;

#[derive(Clone, Copy)]
pub(crate) enum ExpectedAnswer {
    /// Whether a step changed a history.
    New(bool),
    Done(&'static str),
    Taken(&'static str, u64),
    Decided(u8, Outcome),
    /// Position, reserved and available, in cents.
    Position(u64, u64, u64),
    Inbox(&'static [Came]),
    Lines(&'static [Shown]),
    Refused(Fault),
}

fn is_done(reference: &Ident, told: &ExpectedAnswer) -> bool {
    match told {
        ExpectedAnswer::Done(name) => reference.text() == *name,
        _ => false,
    }
}

fn is_taken(id: &Ident, deadline: &Moment, told: &ExpectedAnswer) -> bool {
    match told {
        ExpectedAnswer::Taken(name, end) => id.text() == *name && deadline.past_base() == *end,
        _ => false,
    }
}

fn is_decided(from: u8, state: &State, told: &ExpectedAnswer) -> bool {
    match told {
        ExpectedAnswer::Decided(originator, outcome) => {
            from == *originator && *state == State::Decided(*outcome)
        }
        _ => false,
    }
}

fn is_position(found: [u64; 3], told: &ExpectedAnswer) -> bool {
    match told {
        ExpectedAnswer::Position(all, held, free) => found == [*all, *held, *free],
        _ => false,
    }
}

fn is_reply(reply: &Reply, told: &ExpectedAnswer) -> bool {
    match reply {
        Reply::Taken { id, deadline } => is_taken(id, deadline, told),
        Reply::State { from, state, .. } => is_decided(*from, state, told),
        Reply::Position {
            position,
            reserved,
            available,
        } => is_position([*position, *reserved, *available], told),
        Reply::Inbox { entries } => {
            matches!(told, ExpectedAnswer::Inbox(wanted) if are_entries(entries.as_slice(), wanted))
        }
        Reply::Statement { lines } => {
            matches!(told, ExpectedAnswer::Lines(wanted) if are_lines(lines.as_slice(), wanted))
        }
        Reply::Refused(fault) => matches!(told, ExpectedAnswer::Refused(wanted) if fault == wanted),
        Reply::Done { reference } => is_done(reference, told),
    }
}

/// Returns `true` if the answer is the expected one.
pub(crate) fn is_told(answer: &Answer, told: &ExpectedAnswer) -> bool {
    match (answer, told) {
        (Answer::New(is_new), ExpectedAnswer::New(wanted)) => is_new == wanted,
        (Answer::Reply(reply), told) => is_reply(reply, told),
        _ => false,
    }
}

/// Returns `true` if the step's answer is the expected one.
fn is_answered(
    rt: &impl Abort,
    world: &mut World,
    step: &Step,
    told: Option<&ExpectedAnswer>,
) -> Result<bool, Fail> {
    assert!(rt; step.fits(world.settings()));
    let answer = world.step(step)?;
    match told {
        Some(told) => Ok(is_told(&answer, told)),
        None => Ok(false),
    }
}

/// Checks the answer to each step.
pub(crate) fn answers(
    rt: &impl Abort,
    world: &mut World,
    steps: &[Step],
    told: &[ExpectedAnswer],
) -> Result<(), Fail> {
    for (nth, step) in steps.iter().enumerate() {
        same_at(rt, nth, is_answered(rt, world, step, told.get(nth))?, true);
    }
    Ok(())
}
