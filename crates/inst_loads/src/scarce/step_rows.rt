//! Rows at a hub in one thread and at three slots over one board. Each step is tried with more and
//! more memory until it succeeds, first at the hub and then at the slots. Afterwards both must have
//! the same histories and have given the same answer.
ghost use Rattle.std.specs.Prelude.{◌≡◌, true, IfOk};
ghost use Rattle.inst_command.specs.Step.{step_fits};
ghost use Rattle.inst_world.specs.HasRun.{IsOfModel};

use crate::flaw::Flaw;
use crate::scarce::rows::{self, RowLine};
use crate::scarce::same::is_same;
use crate::scarce::want::{MOST_TRIES, Need, QUANTUM, Want, check_answer};
use inst_base::{Fault, Moment, mention};
use inst_command::{Answer, Ask, Command, Outcome, Place, Reply, Step, Submission};
use inst_fixtures::{A, Act, B, C, Slots, settings};
use inst_journal::Event;
use inst_world::World;
use std::alloc::Global;

/// Runs all rows, each at a new hub and new slots.
pub(crate) fn step_rows(alloc: Global, want: &mut Want) -> Result<(), Flaw> {
    row(alloc, want, &rows::submit_reserves())?;
    row(alloc, want, &rows::confirm_before_expire())?;
    row(alloc, want, &rows::statement_lines())
}

/// Runs a row at a new hub.
fn row(alloc: Global, want: &mut Want, lines: &[RowLine]) -> Result<(), Flaw> {
    let mut world = open_world(alloc, want)?;
    row_by_slots(alloc, want, &mut world, lines)
}

/// Runs the row at the hub and at new slots.
fn row_by_slots(
    alloc: Global,
    want: &mut Want,
    world: &mut World,
    lines: &[RowLine],
) -> Result<(), Flaw> {
    let mut slots = open_slots(alloc, want)?;
    take_lines(alloc, want, world, &mut slots, lines)
}

/// Opens the hub with more and more memory until that succeeds.
fn open_world(alloc: Global, want: &mut Want) -> Result<World, Flaw> {
    let settings = settings(alloc)?;
    for quanta in 0..MOST_TRIES {
        if !want.hoard.leave(quanta * QUANTUM) {
            return Err(Flaw::NoHoard);
        }
        let opened = World::open(alloc, &settings);
        want.hoard.give_back();
        if let Ok(world) = opened {
            want.tries.count(Need::Takes, quanta);
            return Ok(world);
        }
    }
    Err(Flaw::NeverServed)
}

/// Opens the slots with more and more memory until that succeeds.
fn open_slots(alloc: Global, want: &mut Want) -> Result<Slots, Flaw> {
    for quanta in 0..MOST_TRIES {
        if !want.hoard.leave(quanta * QUANTUM) {
            return Err(Flaw::NoHoard);
        }
        let opened = Slots::open(alloc, 0);
        want.hoard.give_back();
        match opened {
            Err(Fault::Memory) => {}
            Ok(slots) => {
                want.tries.count(Need::Takes, quanta);
                return Ok(slots);
            }
            Err(fault) => return Err(Flaw::Refused(fault)),
        }
    }
    Err(Flaw::NeverServed)
}

/// Takes the lines one by one.
fn take_lines(
    alloc: Global,
    want: &mut Want,
    world: &mut World,
    slots: &mut Slots,
    lines: &[RowLine],
) -> Result<(), Flaw> {
    for line in lines {
        take_line(alloc, want, world, slots, line)?;
    }
    Ok(())
}

/// Takes a line's step at the hub and then at the slots, and compares answers and histories.
fn take_line(
    alloc: Global,
    want: &mut Want,
    world: &mut World,
    slots: &mut Slots,
    line: &RowLine,
) -> Result<(), Flaw> {
    mention::<(Ask, Command, Submission, Outcome)>();
    let step = inst_json::read_step(alloc, world.settings(), line.step.as_bytes())?;
    let wanted = take_step(alloc, want, world, slots, line, &step)?;
    let answer = act_in_want(alloc, want, slots, line.need, &step)?;
    check_answer(is_same(&answer, &wanted) && has_histories(world, slots))
}

/// Takes the step at the hub, and compares the answer with the line's.
fn take_step(
    alloc: Global,
    want: &mut Want,
    world: &mut World,
    slots: &Slots,
    line: &RowLine,
    step: &Step,
) -> Result<Answer, Flaw>
    requires { step_fits world.old.board.settings step.now ≡ true }
{
    let answer = step_in_want(want, world, slots, line.need, step)?;
    let text = inst_json::write_answer(alloc, world.settings(), &answer)?;
    if text.as_slice() != line.answer.as_bytes() {
        return Err(Flaw::OtherAnswer);
    }
    Ok(answer)
}

/// Takes the step at the hub with more and more memory until it succeeds. After each failure the
/// hub must have the histories of the slots, which take the step later.
fn step_in_want(
    want: &mut Want,
    world: &mut World,
    slots: &Slots,
    need: Need,
    step: &Step,
) -> Result<Answer, Flaw>
    requires { step_fits world.old.board.settings step.now ≡ true }
    ensures settings { world.new.board.settings ≡ world.old.board.settings }
    ensures model { IfOk result (λ answer. IsOfModel world.old.board.settings step.now answer) }
{
    for quanta in 0..MOST_TRIES {
        if !want.hoard.leave(quanta * QUANTUM) {
            return Err(Flaw::NoHoard);
        }
        let answer = world.step(step);
        want.hoard.give_back();
        if let Ok(answer) = answer {
            want.tries.count(need, quanta);
            return Ok(answer);
        }
        if !has_histories(world, slots) {
            return Err(Flaw::Changed);
        }
    }
    Err(Flaw::NeverServed)
}

/// Takes the step at its slot with more and more memory until it succeeds. After each failure the
/// histories must be as before.
fn act_in_want(
    alloc: Global,
    want: &mut Want,
    slots: &mut Slots,
    need: Need,
    step: &Step,
) -> Result<Answer, Flaw> {
    mention::<(Command, Submission)>();
    let (who, act, at) = act_of(step)?;
    let before = histories(alloc, slots)?;
    for quanta in 0..MOST_TRIES {
        if !want.hoard.leave(quanta * QUANTUM) {
            return Err(Flaw::NoHoard);
        }
        let answer = slots.act(who, &act, at);
        want.hoard.give_back();
        let answer = match answer {
            Err(Fault::Memory) => {
                if !are_histories(slots, &before) {
                    return Err(Flaw::Changed);
                }
                continue;
            }
            Err(fault) => Answer::Reply(Reply::Refused(fault)),
            Ok(answer) => answer,
        };
        want.tries.count(need, quanta);
        return Ok(answer);
    }
    Err(Flaw::NeverServed)
}

/// Returns the step's participant, its act, and the clock reading; 0 if the step has none.
fn act_of(step: &Step) -> Result<(u8, Act, Moment), Flaw> {
    mention::<(Submission, Outcome)>();
    let never = Moment::new(0, 0)?;
    Ok(match *step {
        Step::Ask(ask) => (ask.who, Act::Ask(ask.command), ask.at),
        Step::Deliver { from, index, to } => (to, Act::Deliver(place_of(from, index)), never),
        Step::Learn { who, from, index } => (who, Act::Learn(place_of(from, index)), never),
        Step::Expire { who, index, at } => (who, Act::Expire(index), at),
    })
}

fn place_of(owner: u8, index: u16) -> Place {
    Place { owner, index }
}

/// Copies the slots' histories, by participant number.
fn histories(alloc: Global, slots: &Slots) -> Result<Vec<Vec<Event>>, Flaw> {
    let mut all = Vec::new(alloc);
    for who in [A, B, C] {
        all.push(slots.history(who).to_vec(alloc)?)?;
    }
    Ok(all)
}

/// Returns `true` if the slots have these histories.
fn are_histories(slots: &Slots, histories: &[Vec<Event>]) -> bool {
    let mut who = A;
    for events in histories {
        if slots.history(who) != events.as_slice() {
            return false;
        }
        who = who.saturating_add(1);
    }
    true
}

/// Returns `true` if the slots have the hub's histories.
fn has_histories(world: &World, slots: &Slots) -> bool {
    for who in [A, B, C] {
        if !world.settings().has_participant(who) {
            return false;
        }
        if world.journal(who).events() != slots.history(who) {
            return false;
        }
    }
    true
}
