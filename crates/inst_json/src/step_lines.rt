//! Writing steps as lines.
ghost use Rattle.std.specs.Prelude.{◌≡◌, ◌+◌, ◌++◌, ◌&&◌, true, Ok, IsTrue, OnOk};
ghost use Rattle.std.specs.List.{list_all};
ghost use Rattle.inst_base.specs.Cents.{is_amount};
ghost use Rattle.inst_base.specs.Moment.{is_moment};
ghost use Rattle.inst_base.specs.Text.{is_identifier, is_reason};
ghost use Rattle.inst_settings.specs.Settings.{is_participant};
ghost use Rattle.inst_settings.specs.Lawful.{IsSettings};
ghost use Rattle.inst_command.specs.Ask.{command_fits, ask_fits};
ghost use Rattle.inst_command.specs.Step.{step_fits};
ghost use Rattle.inst_json.specs.Laws.{has_code, query_has_form, command_has_form, ask_has_form};
ghost use Rattle.inst_json.specs.Laws.{has_place};
ghost use Rattle.inst_json.specs.Lines.{step_of_line};
ghost use Rattle.inst_json.specs.Members.{is_plain, is_printable, next_members};
ghost use Rattle.inst_json.specs.StepLines.{funding_rows, submission_rows, confirmation_rows};
ghost use Rattle.inst_json.specs.StepLines.{rejection_rows};
ghost use Rattle.inst_json.specs.StepLines.{investigation_rows, fetch_rows, statement_rows};
ghost use Rattle.inst_json.specs.StepLines.{query_rows};
ghost use Rattle.inst_json.specs.StepLines.{command_rows, ask_rows};
ghost use Rattle.inst_json.specs.StepLines.{passing_rows, expiry_rows, members_line, step_line};

use crate::members::{
    begin_with_text, begin_with_whole, push_end, push_text_member, push_whole_member,
};
use crate::reply::code_text;
use crate::step::Passing;
use inst_base::{Ident, Moment, Reason};
use inst_command::{Ask, Command, Funding, Query, Step, Submission};
use inst_settings::Settings;
use std::alloc::AllocError;

/// Appends the line of a step, without its newline, to `out`: compact JSON with the keys in byte
/// order.
///
/// [`read_step`](crate::read_step) reads the line back as `step` if its place index is below 1,024.
/// Moments are absolute milliseconds, amounts are cents. Requires `step.fits(settings)`.
///
/// # Errors
///
/// [`AllocError`] if `out` can't grow; it may end in a part of the line.
pub fn append_step(settings: &Settings, step: &Step, out: &mut Vec<u8>) -> Result<(), AllocError>
    requires { step_fits settings.now step.now ≡ true }
    ensures text { OnOk result (out.new.items ≡ out.old.items ++ step_line settings.now step.now) }
    ensures back { OnOk result (IsSettings settings.now → has_place step.now ≡ true
        → step_of_line settings.now (step_line settings.now step.now) ≡ Ok step.now) }
    ensures printable { OnOk result (list_all is_printable (step_line settings.now step.now)
        ≡ true) }
{
    match step {
        Step::Ask(ask) => append_ask(settings, ask, out),
        Step::Deliver { from, index, to } => {
            let passing = Passing {
                who: *to,
                from: *from,
                index: *index,
            };
            append_passing(settings, "deliver", passing, out)
        }
        Step::Learn { who, from, index } => {
            let passing = Passing {
                who: *who,
                from: *from,
                index: *index,
            };
            append_passing(settings, "learn", passing, out)
        }
        Step::Expire { who, index, at } => append_expiry(settings, *who, *index, *at, out),
    }
}

/// Appends the line of an ask.
#[tactic(auto, using(crate::proofs::TextsWithoutEscapes::plain_code))]
fn append_ask(settings: &Settings, ask: &Ask, out: &mut Vec<u8>) -> Result<(), AllocError>
    requires { ask_fits settings.now ask.now ≡ true }
    ensures text { OnOk result (out.new.items
        ≡ out.old.items ++ members_line (ask_rows settings.now ask.now)) }
    ensures form { OnOk result (ask_has_form settings.now ask.now ≡ true) }
{
    let at = millis(settings, ask.at);
    let who = code_text(settings, ask.who);
    begin_with_whole(out, "at", at)?;
    push_command(settings, &ask.command, out)?;
    push_text_member(out, "who", who)?;
    push_end(out)
}

/// Appends the line of a delivery or a learning, by its name.
#[tactic(auto, using(crate::proofs::TextsWithoutEscapes::plain_code))]
fn append_passing(
    settings: &Settings,
    name: &str,
    passing: Passing,
    out: &mut Vec<u8>,
) -> Result<(), AllocError>
    requires name { IsTrue (is_plain name.now) }
    requires who { is_participant settings.now passing.who ≡ true }
    requires from { is_participant settings.now passing.from ≡ true }
    ensures text { OnOk result (out.new.items
        ≡ out.old.items
        ++ members_line
        (passing_rows settings.now name.now passing.who passing.from passing.index)) }
    ensures form { (has_code settings.now passing.who && has_code settings.now passing.from)
        ≡ true }
{
    let from = code_text(settings, passing.from);
    let who = code_text(settings, passing.who);
    begin_with_text(out, "from", from)?;
    push_whole_member(out, "place", u64::from(passing.index))?;
    push_text_member(out, "step", name)?;
    push_text_member(out, "who", who)?;
    push_end(out)
}

/// Appends the line of an expiry.
#[tactic(auto, using(crate::proofs::TextsWithoutEscapes::plain_code))]
fn append_expiry(
    settings: &Settings,
    who: u8,
    index: u16,
    at: Moment,
    out: &mut Vec<u8>,
) -> Result<(), AllocError>
    requires { is_participant settings.now who ≡ true }
    ensures text { OnOk result (out.new.items
        ≡ out.old.items ++ members_line (expiry_rows settings.now who index at)) }
    ensures form { (has_code settings.now who && is_moment at) ≡ true }
{
    let at = millis(settings, at);
    let who = code_text(settings, who);
    begin_with_whole(out, "at", at)?;
    push_whole_member(out, "place", u64::from(index))?;
    push_text_member(out, "step", "expire")?;
    push_text_member(out, "who", who)?;
    push_end(out)
}

/// Appends the members of a command between the clock reading and the asker.
fn push_command(settings: &Settings, command: &Command, out: &mut Vec<u8>) -> Result<(), AllocError>
    requires { command_fits settings.now command.now ≡ true }
    ensures text { OnOk result (out.new.items
        ≡ out.old.items ++ next_members (command_rows settings.now command.now)) }
    ensures form { OnOk result (command_has_form settings.now command.now ≡ true) }
{
    match command {
        Command::Fund(funding) => push_funding("fund", funding, out),
        Command::Defund(funding) => push_funding("defund", funding, out),
        Command::Submit(submission) => push_submission(settings, submission, out),
        Command::Confirm { from, id } => push_confirmation(settings, *from, id, out),
        Command::Reject { from, id, reason } => push_rejection(settings, *from, id, reason, out),
        Command::Investigate { id } => push_investigation(id, out),
        Command::Fetch { max } => push_fetch(*max, out),
        Command::Query(query) => push_query(query, out),
    }
}

/// Appends the members of a fund or defund command, by its name.
#[tactic(auto, using(crate::proofs::TextsWithoutEscapes::plain_identifier))]
fn push_funding(name: &str, funding: &Funding, out: &mut Vec<u8>) -> Result<(), AllocError>
    requires { IsTrue (is_plain name.now) }
    ensures text { OnOk result (out.new.items
        ≡ out.old.items ++ next_members (funding_rows name.now funding.now)) }
    ensures form { (is_identifier funding.now.reference && is_amount funding.now.cents) ≡ true }
{
    let reference = funding.reference.text();
    push_whole_member(out, "cents", funding.cents.get())?;
    push_text_member(out, "cmd", name)?;
    push_text_member(out, "ref", reference)
}

#[tactic(auto, using(crate::proofs::TextsWithoutEscapes::plain_identifier, crate::proofs::TextsWithoutEscapes::plain_code,))]
fn push_submission(
    settings: &Settings,
    submission: &Submission,
    out: &mut Vec<u8>,
) -> Result<(), AllocError>
    requires { is_participant settings.now submission.now.to ≡ true }
    ensures text { OnOk result (out.new.items
        ≡ out.old.items ++ next_members (submission_rows settings.now submission.now)) }
    ensures form { (has_code settings.now submission.now.to && is_identifier submission.now.id
        && is_amount submission.now.cents) ≡ true }
{
    let id = submission.id.text();
    let to = code_text(settings, submission.to);
    let stamp = millis(settings, submission.stamp);
    push_whole_member(out, "cents", submission.cents.get())?;
    push_text_member(out, "cmd", "submit")?;
    push_text_member(out, "id", id)?;
    push_whole_member(out, "stamp", stamp)?;
    push_text_member(out, "to", to)
}

#[tactic(auto, using(crate::proofs::TextsWithoutEscapes::plain_identifier, crate::proofs::TextsWithoutEscapes::plain_code,))]
fn push_confirmation<'a>(
    settings: &'a Settings,
    from: u8,
    id: &'a Ident,
    out: &mut Vec<u8>,
) -> Result<(), AllocError>
    requires { is_participant settings.now from ≡ true }
    ensures text { OnOk result (out.new.items
        ≡ out.old.items ++ next_members (confirmation_rows settings.now from id.now)) }
    ensures form { (has_code settings.now from && is_identifier id.now) ≡ true }
{
    let from = code_text(settings, from);
    let id = id.text();
    push_text_member(out, "cmd", "confirm")?;
    push_text_member(out, "from", from)?;
    push_text_member(out, "id", id)
}

#[tactic(auto, using(crate::proofs::TextsWithoutEscapes::plain_identifier, crate::proofs::TextsWithoutEscapes::plain_code, crate::proofs::TextsWithoutEscapes::plain_reason,))]
fn push_rejection<'a>(
    settings: &'a Settings,
    from: u8,
    id: &'a Ident,
    reason: &'a Reason,
    out: &mut Vec<u8>,
) -> Result<(), AllocError>
    requires { is_participant settings.now from ≡ true }
    ensures text { OnOk result (out.new.items
        ≡ out.old.items ++ next_members (rejection_rows settings.now from id.now reason.now)) }
    ensures form { (has_code settings.now from && is_identifier id.now && is_reason reason.now)
        ≡ true }
{
    let from = code_text(settings, from);
    let id = id.text();
    let reason = reason.text();
    push_text_member(out, "cmd", "reject")?;
    push_text_member(out, "from", from)?;
    push_text_member(out, "id", id)?;
    push_text_member(out, "reason", reason)
}

#[tactic(auto, using(crate::proofs::TextsWithoutEscapes::plain_identifier))]
fn push_investigation(id: &Ident, out: &mut Vec<u8>) -> Result<(), AllocError>
    ensures text { OnOk result (out.new.items
        ≡ out.old.items ++ next_members (investigation_rows id.now)) }
    ensures form { is_identifier id.now ≡ true }
{
    let id = id.text();
    push_text_member(out, "cmd", "investigate")?;
    push_text_member(out, "id", id)
}

fn push_fetch(max: u32, out: &mut Vec<u8>) -> Result<(), AllocError>
    ensures { OnOk result (out.new.items ≡ out.old.items ++ next_members (fetch_rows max)) }
{
    push_text_member(out, "cmd", "fetch")?;
    push_whole_member(out, "max", u64::from(max))
}

/// Appends the members of a query.
fn push_query(query: &Query, out: &mut Vec<u8>) -> Result<(), AllocError>
    ensures text { OnOk result (out.new.items
        ≡ out.old.items ++ next_members (query_rows query.now)) }
    ensures form { query_has_form query.now ≡ true }
{
    match query {
        Query::Position => push_text_member(out, "cmd", "position"),
        Query::Statement { skip, count } => push_statement(*skip, *count, out),
    }
}

/// Appends the members of a query for statement lines.
fn push_statement(skip: u64, count: u32, out: &mut Vec<u8>) -> Result<(), AllocError>
    ensures { OnOk result (out.new.items
        ≡ out.old.items ++ next_members (statement_rows skip count)) }
{
    push_text_member(out, "cmd", "statement")?;
    push_whole_member(out, "count", u64::from(count))?;
    push_whole_member(out, "skip", skip)
}

/// Returns the moment in absolute milliseconds.
fn millis(settings: &Settings, moment: Moment) -> u64
    ensures value { result ≡ settings.now.base + moment }
    ensures form { is_moment moment ≡ true }
{
    moment.millis(settings.base())
}
