//! Follow-ups: what a run does after each line for the transfers that have something left to do.
ghost use Rattle.std.specs.Prelude.{◌≡◌, true, List, ◌++◌, reverse, OnOk};
ghost use Rattle.inst_settings.specs.Settings.{is_participant};
ghost use Rattle.inst_command.specs.declared.step.Step.{Step};
ghost use Rattle.inst_model.specs.Opening.{Opening};
ghost use Rattle.inst_world.specs.HasRun.{HasRun};
ghost use Rattle.inst_agenda.specs.FollowUps.{of_transfer, followed_up};
ghost use Rattle.inst_agenda.specs.Watching.{Watches};
ghost use Rattle.inst_agenda.specs.inner.Watching.{GoesOver};

use crate::runner::Runner;
use inst_base::Moment;
use inst_command::{Place, Step};
use inst_world::World;
use std::alloc::AllocError;

/// Follows up all live transfers at clock reading `at`.
///
/// The result is as if each had been delivered, learnt by its originator, let expire, and learnt by
/// its beneficiary. Only the transfers that were noted or are due are visited; for the others
/// nothing would change. Costs O(log n) of the agenda for each of those.
///
/// # Errors
///
/// [`AllocError`] if the hub or the agenda fails to allocate. Some transfers weren't followed up,
/// and a later call may miss them.
pub fn follow_up(runner: &mut Runner, at: Moment) -> Result<(), AllocError>
    ensures ok { OnOk result ((O : Opening) (L : List Step) →
        Watches O L runner.old.world runner.old.agenda →
        Watches O (followed_up runner.old.world.board.settings O L at) runner.new.world
        runner.new.agenda) }
    ensures settings { runner.new.world.board.settings ≡ runner.old.world.board.settings }
{
    runner.agenda.move_due(at)?;
    while let Some(place) = runner.agenda.take_next() {
        go_over(runner, place, at)?;
    }
    Ok(())
}

/// Follows up the transfer at the place, if there is one. If it stays pending it waits for its
/// deadline.
///
/// While it is pending and not due only a delivery can do anything: there is no outcome to book,
/// and nothing times out.
fn go_over(runner: &mut Runner, place: Place, at: Moment) -> Result<(), AllocError>
    ensures next { OnOk result (runner.new.agenda.next ≡ runner.old.agenda.next) }
    ensures ok { OnOk result ((O : Opening) (L : List Step) → HasRun O L runner.old.world →
        GoesOver O L at place runner.old.world runner.new.world runner.old.agenda runner.new.agenda) }
    ensures settings { runner.new.world.board.settings ≡ runner.old.world.board.settings }
{
    let Some(to) = runner.world.beneficiary_at(place) else {
        return Ok(());
    };
    let Some(deadline) = runner.world.pending_until(place) else {
        return follow_up_transfer(&mut runner.world, place, to, at);
    };
    if !at.is_due(deadline) {
        let Place { owner: from, index } = place;
        runner.world.step(&Step::Deliver { from, index, to })?;
        return runner.agenda.wait(deadline, place);
    }
    follow_up_transfer(&mut runner.world, place, to, at)?;
    if let Some(deadline) = runner.world.pending_until(place) {
        runner.agenda.wait(deadline, place)?;
    }
    Ok(())
}

/// Delivers one transfer, lets its originator learn and expire it, and lets its beneficiary learn.
fn follow_up_transfer(world: &mut World, place: Place, to: u8, at: Moment) -> Result<(), AllocError>
    requires originator { is_participant world.old.board.settings place.owner ≡ true }
    requires beneficiary { is_participant world.old.board.settings to ≡ true }
    ensures ok { OnOk result ((O : Opening) (L : List Step) → HasRun O L world.old →
        HasRun O (reverse (of_transfer at place.owner place.index to) ++ L) world.new) }
    ensures settings { world.new.board.settings ≡ world.old.board.settings }
{
    let Place { owner: from, index } = place;
    let deliver = Step::Deliver { from, index, to };
    let learn = Step::Learn {
        who: from,
        from,
        index,
    };
    let expire = Step::Expire {
        who: from,
        index,
        at,
    };
    let tell = Step::Learn {
        who: to,
        from,
        index,
    };
    world.step(&deliver)?;
    world.step(&learn)?;
    world.step(&expire)?;
    world.step(&tell)?;
    Ok(())
}
