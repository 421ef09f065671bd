//! Command lines: each command reads all its fields first, then checks their values.
ghost use Rattle.std.specs.Prelude.{◌≡◌, true, IfOk};
ghost use Rattle.inst_json.specs.LineFields.{fields_told};
ghost use Rattle.inst_settings.specs.Settings.{is_participant, is_within_ceiling};
ghost use Rattle.inst_command.specs.Ask.{ask_fits};
ghost use Rattle.inst_json.specs.Commands.{funding_of, submit_of, received_of, reject_of};
ghost use Rattle.inst_json.specs.Commands.{investigate_of, fetch_of, statement_of, ask_of};

use crate::asker::{Asker, KnownAsker, asker_of};
use crate::checks::{amount, participant, time_stamp};
use crate::fields::{code, count, reason, text, whole};
use crate::refusal::in_field;
use crate::scanning::Fields;
use crate::verb::{Verb, verb_in};
use crate::{Name, Refusal};
use inst_base::Ident;
use inst_command::{Ask, Command, Funding, Query, Submission};
use inst_settings::Settings;

/// A fund or defund command, and its asker.
#[derive(Clone, Copy)]
struct AskedFunding {
    asker: KnownAsker,
    funding: Funding,
}

/// Reads a fund or defund command.
#[tactic(auto, unfolding(crate::specs::Commands::funding_of))]
fn funding_of(
    settings: &Settings,
    asker: &Asker,
    line: &Fields<'_>,
) -> Result<AskedFunding, Refusal>
    ensures value { result ≡ funding_of settings.now asker.now (fields_told line.now) }
    ensures asker_fits { IfOk result (λ asked. is_participant settings.now asked.asker.who ≡ true) }
    ensures cents_fit { IfOk result (λ asked.
        is_within_ceiling settings.now asked.funding.cents ≡ true) }
{
    let reference = in_field(Name::Reference, text(line.reference))?;
    let cents = in_field(Name::Cents, whole(line.cents))?;
    let reference = in_field(Name::Reference, Ident::new(reference))?;
    let cents = in_field(Name::Cents, amount(settings, cents))?;
    let asker = asker.known(settings)?;
    Ok(AskedFunding {
        asker,
        funding: Funding { reference, cents },
    })
}

/// Reads a submission.
#[tactic(auto, unfolding(crate::specs::Commands::submit_of))]
fn submit(settings: &Settings, asker: &Asker, line: &Fields<'_>) -> Result<Ask, Refusal>
    ensures value { result ≡ submit_of settings.now asker.now (fields_told line.now) }
    ensures fits { IfOk result (λ ask. ask_fits settings.now ask ≡ true) }
{
    let id = in_field(Name::Id, text(line.id))?;
    let to = in_field(Name::To, code(line.to))?;
    let cents = in_field(Name::Cents, whole(line.cents))?;
    let stamp = in_field(Name::Stamp, whole(line.stamp))?;
    let id = in_field(Name::Id, Ident::new(id))?;
    let cents = in_field(Name::Cents, amount(settings, cents))?;
    let stamp = in_field(Name::Stamp, time_stamp(settings, stamp))?;
    let asker = asker.known(settings)?;
    let to = in_field(Name::To, participant(settings, &to))?;
    Ok(asker.asks(Command::Submit(Submission {
        id,
        to,
        cents,
        stamp,
    })))
}

/// The transfer that a beneficiary confirms or rejects, and its asker.
#[derive(Clone, Copy)]
struct Received {
    asker: KnownAsker,
    from: u8,
    id: Ident,
}

/// Reads the transfer of a confirmation or rejection.
#[tactic(auto, unfolding(crate::specs::Commands::received_of))]
fn received_of(settings: &Settings, asker: &Asker, line: &Fields<'_>) -> Result<Received, Refusal>
    ensures value { result ≡ received_of settings.now asker.now (fields_told line.now) }
    ensures asker_fits { IfOk result (λ transfer.
        is_participant settings.now transfer.asker.who ≡ true) }
    ensures from_fits { IfOk result (λ transfer. is_participant settings.now transfer.from ≡ true) }
{
    let from = in_field(Name::From, code(line.from))?;
    let id = in_field(Name::Id, text(line.id))?;
    let id = in_field(Name::Id, Ident::new(id))?;
    let asker = asker.known(settings)?;
    let from = in_field(Name::From, participant(settings, &from))?;
    Ok(Received { asker, from, id })
}

/// Reads a rejection.
#[tactic(auto, unfolding(crate::specs::Commands::reject_of))]
fn reject(settings: &Settings, asker: &Asker, line: &Fields<'_>) -> Result<Ask, Refusal>
    ensures value { result ≡ reject_of settings.now asker.now (fields_told line.now) }
    ensures fits { IfOk result (λ ask. ask_fits settings.now ask ≡ true) }
{
    let reason = in_field(Name::Reason, reason(line.reason))?;
    let Received { asker, from, id } = received_of(settings, asker, line)?;
    Ok(asker.asks(Command::Reject { from, id, reason }))
}

/// Reads an investigation.
#[tactic(auto, unfolding(crate::specs::Commands::investigate_of))]
fn investigate(settings: &Settings, asker: &Asker, line: &Fields<'_>) -> Result<Ask, Refusal>
    ensures value { result ≡ investigate_of settings.now asker.now (fields_told line.now) }
    ensures fits { IfOk result (λ ask. ask_fits settings.now ask ≡ true) }
{
    let id = in_field(Name::Id, text(line.id))?;
    let id = in_field(Name::Id, Ident::new(id))?;
    let asker = asker.known(settings)?;
    Ok(asker.asks(Command::Investigate { id }))
}

/// Reads a fetch.
#[tactic(auto, unfolding(crate::specs::Commands::fetch_of))]
fn fetch(settings: &Settings, asker: &Asker, line: &Fields<'_>) -> Result<Ask, Refusal>
    ensures value { result ≡ fetch_of settings.now asker.now (fields_told line.now) }
    ensures fits { IfOk result (λ ask. ask_fits settings.now ask ≡ true) }
{
    let max = in_field(Name::Max, count(line.max))?;
    let asker = asker.known(settings)?;
    Ok(asker.asks(Command::Fetch { max }))
}

/// Reads a query for statement lines.
#[tactic(auto, unfolding(crate::specs::Commands::statement_of))]
fn statement(settings: &Settings, asker: &Asker, line: &Fields<'_>) -> Result<Ask, Refusal>
    ensures value { result ≡ statement_of settings.now asker.now (fields_told line.now) }
    ensures fits { IfOk result (λ ask. ask_fits settings.now ask ≡ true) }
{
    let skip = in_field(Name::Skip, whole(line.skip))?;
    let count = in_field(Name::Count, count(line.count))?;
    let asker = asker.known(settings)?;
    Ok(asker.asks(Command::Query(Query::Statement { skip, count })))
}

/// Returns the ask of a command line's fields, or the line's first refusal.
#[tactic(auto, unfolding(crate::specs::Commands::ask_of, crate::specs::Commands::command_of))]
pub(crate) fn ask_of(settings: &Settings, line: &Fields<'_>) -> Result<Ask, Refusal>
    ensures value { result ≡ ask_of settings.now (fields_told line.now) }
    ensures fits { IfOk result (λ ask. ask_fits settings.now ask ≡ true) }
{
    let verb = in_field(Name::Cmd, verb_in(line.cmd))?;
    let asker = asker_of(line)?;
    match verb {
        Verb::Fund => {
            let AskedFunding { asker, funding } = funding_of(settings, &asker, line)?;
            Ok(asker.asks(Command::Fund(funding)))
        }
        Verb::Defund => {
            let AskedFunding { asker, funding } = funding_of(settings, &asker, line)?;
            Ok(asker.asks(Command::Defund(funding)))
        }
        Verb::Submit => submit(settings, &asker, line),
        Verb::Confirm => {
            let Received { asker, from, id } = received_of(settings, &asker, line)?;
            Ok(asker.asks(Command::Confirm { from, id }))
        }
        Verb::Reject => reject(settings, &asker, line),
        Verb::Investigate => investigate(settings, &asker, line),
        Verb::Fetch => fetch(settings, &asker, line),
        Verb::Position => Ok(asker.known(settings)?.asks(Command::Query(Query::Position))),
        Verb::Statement => statement(settings, &asker, line),
    }
}
