//! Script lines: deliveries, learnings, expiries, and commands.
ghost use Rattle.std.specs.Prelude.{◌≡◌, true, IfOk};
ghost use Rattle.inst_json.specs.LineFields.{fields_told};
ghost use Rattle.inst_settings.specs.Settings.{is_participant};
ghost use Rattle.inst_command.specs.Step.{step_fits};
ghost use Rattle.inst_json.specs.Steps.{passing_of, deliver_of, learn_of, expire_of, move_of};
ghost use Rattle.inst_json.specs.Steps.{step_of};

use crate::asker::{KnownAsker, asker_of};
use crate::checks::participant;
use crate::command::ask_of;
use crate::fields::{code, is_there, place, text};
use crate::refusal::in_field;
use crate::scanning::Fields;
use crate::{Name, Refusal};
use inst_base::Fault;
use inst_command::Step;
use inst_settings::Settings;

/// Returns the step of a script line's fields, or the line's first refusal.
#[tactic(auto, unfolding(crate::specs::Steps::step_of, crate::specs::Steps::asked_of))]
pub(crate) fn step_of(settings: &Settings, line: &Fields<'_>) -> Result<Step, Refusal>
    ensures value { result ≡ step_of settings.now (fields_told line.now) }
    ensures fits { IfOk result (λ step. step_fits settings.now step ≡ true) }
{
    if is_there(line.step) {
        return move_of(settings, line);
    }
    Ok(Step::Ask(ask_of(settings, line)?))
}

/// Returns the step that the field `step` names.
#[tactic(auto, unfolding(crate::specs::Steps::move_of))]
fn move_of(settings: &Settings, line: &Fields<'_>) -> Result<Step, Refusal>
    ensures value { result ≡ move_of settings.now (fields_told line.now) }
    ensures fits { IfOk result (λ step. step_fits settings.now step ≡ true) }
{
    match in_field(Name::Step, text(line.step))? {
        "deliver" => deliver(settings, line),
        "learn" => learn(settings, line),
        "expire" => expire(settings, line),
        _ => Err(Refusal {
            fault: Fault::BadField,
            field: Some(Name::Step),
        }),
    }
}

/// A participant, and the place of an originator's transfer that is delivered to it or that it
/// learns about.
#[derive(Clone, Copy)]
pub(crate) struct Passing {
    pub who: u8,
    pub from: u8,
    pub index: u16,
}

/// Reads the participant and place of a delivery or a learning.
#[tactic(auto, unfolding(crate::specs::Steps::passing_of))]
fn passing_of(settings: &Settings, line: &Fields<'_>) -> Result<Passing, Refusal>
    ensures value { result ≡ passing_of settings.now (fields_told line.now) }
    ensures who_fits { IfOk result (λ passing. is_participant settings.now passing.who ≡ true) }
    ensures from_fits { IfOk result (λ passing. is_participant settings.now passing.from ≡ true) }
{
    let who = in_field(Name::Who, code(line.who))?;
    let from = in_field(Name::From, code(line.from))?;
    let index = in_field(Name::Place, place(line.place))?;
    let who = in_field(Name::Who, participant(settings, &who))?;
    let from = in_field(Name::From, participant(settings, &from))?;
    Ok(Passing { who, from, index })
}

/// Reads a delivery.
#[tactic(auto, unfolding(crate::specs::Steps::deliver_of))]
fn deliver(settings: &Settings, line: &Fields<'_>) -> Result<Step, Refusal>
    ensures value { result ≡ deliver_of settings.now (fields_told line.now) }
    ensures fits { IfOk result (λ step. step_fits settings.now step ≡ true) }
{
    let Passing { who, from, index } = passing_of(settings, line)?;
    Ok(Step::Deliver {
        from,
        index,
        to: who,
    })
}

/// Reads a learning.
#[tactic(auto, unfolding(crate::specs::Steps::learn_of))]
fn learn(settings: &Settings, line: &Fields<'_>) -> Result<Step, Refusal>
    ensures value { result ≡ learn_of settings.now (fields_told line.now) }
    ensures fits { IfOk result (λ step. step_fits settings.now step ≡ true) }
{
    let Passing { who, from, index } = passing_of(settings, line)?;
    Ok(Step::Learn { who, from, index })
}

/// Reads an expiry.
#[tactic(auto, unfolding(crate::specs::Steps::expire_of))]
fn expire(settings: &Settings, line: &Fields<'_>) -> Result<Step, Refusal>
    ensures value { result ≡ expire_of settings.now (fields_told line.now) }
    ensures fits { IfOk result (λ step. step_fits settings.now step ≡ true) }
{
    let asker = asker_of(line)?;
    let index = in_field(Name::Place, place(line.place))?;
    let KnownAsker { who, at } = asker.known(settings)?;
    Ok(Step::Expire { who, index, at })
}
