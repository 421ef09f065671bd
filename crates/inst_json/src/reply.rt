//! Appending the text of each reply.
ghost use Rattle.std.specs.Prelude.{◌≡◌, ◌++◌, true, IsTrue, OnOk};
ghost use Rattle.serde_json.specs.Written.{compact_text};
ghost use Rattle.inst_base.specs.Text.{is_code};
ghost use Rattle.inst_settings.specs.Settings.{is_participant};
ghost use Rattle.inst_command.specs.LineText.{code_numbered};
ghost use Rattle.inst_json.specs.Laws.{has_words};
ghost use Rattle.inst_json.specs.Replies.{done_data, taken_data, state_data, rejected_data};
ghost use Rattle.inst_json.specs.Replies.{state_members, is_used};
ghost use Rattle.inst_json.specs.Replies.{position_data, refused_data, reply_data};
ghost use Rattle.inst_json.specs.Replies.{reply_can_be_written};
ghost use Rattle.inst_json.specs.inner.Replies.{is_state_name};

use crate::lists::{append_inbox, append_statement};
use crate::piece::{push_number, push_text};
use inst_base::{Fault, Ident, Reason};
use inst_command::{Outcome, Reply, State};
use inst_settings::Settings;
use std::alloc::AllocError;

/// Appends the line of a reply, without its newline, to `out`: compact JSON with the keys in byte
/// order.
///
/// Moments are absolute milliseconds, amounts are cents. Requires a reply of a hub with these
/// settings.
///
/// # Errors
///
/// [`AllocError`] if `out` can't grow; it may end in a part of the line.
pub fn append_reply(settings: &Settings, reply: &Reply, out: &mut Vec<u8>) -> Result<(), AllocError>
    requires { reply_can_be_written settings.now reply.now ≡ true }
    ensures text { OnOk result (out.new.items
        ≡ out.old.items ++ compact_text (reply_data settings.now reply.now)) }
    ensures words { OnOk result (has_words settings.now reply.now ≡ true) }
{
    match reply {
        Reply::Done { reference } => append_done(out, reference),
        Reply::Taken { id, deadline } => append_taken(out, id, deadline.millis(settings.base())),
        Reply::State { from, id, state } => append_state(out, settings, *from, id, state),
        Reply::Inbox { entries } => append_inbox(out, settings, entries.as_slice()),
        Reply::Position {
            position,
            reserved,
            available,
        } => append_position(out, *position, *reserved, *available),
        Reply::Statement { lines } => append_statement(out, settings, lines.as_slice()),
        Reply::Refused(fault) => append_refused(out, *fault),
    }
}

fn append_done(out: &mut Vec<u8>, reference: &Ident) -> Result<(), AllocError>
    ensures { OnOk result (out.new.items
        ≡ out.old.items ++ compact_text (done_data reference.now)) }
{
    let reference = reference.text();
    push_text(out, "{\"ref\":\"")?;
    push_text(out, reference)?;
    push_text(out, "\",\"reply\":\"done\"}")
}

/// Appends a `taken` reply. The deadline is in absolute milliseconds.
fn append_taken(out: &mut Vec<u8>, id: &Ident, deadline: u64) -> Result<(), AllocError>
    ensures { OnOk result (out.new.items
        ≡ out.old.items ++ compact_text (taken_data id.now deadline)) }
{
    let id = id.text();
    push_text(out, "{\"deadline\":")?;
    push_number(out, deadline)?;
    push_text(out, ",\"id\":\"")?;
    push_text(out, id)?;
    push_text(out, "\",\"reply\":\"taken\"}")
}

fn append_position(
    out: &mut Vec<u8>,
    position: u64,
    reserved: u64,
    available: u64,
) -> Result<(), AllocError>
    ensures { OnOk result (out.new.items
        ≡ out.old.items ++ compact_text (position_data position reserved available)) }
{
    push_text(out, "{\"available\":")?;
    push_number(out, available)?;
    push_text(out, ",\"position\":")?;
    push_number(out, position)?;
    push_text(out, ",\"reply\":\"position\",\"reserved\":")?;
    push_number(out, reserved)?;
    push_text(out, "}")
}

fn append_refused(out: &mut Vec<u8>, fault: Fault) -> Result<(), AllocError>
    ensures { OnOk result (out.new.items ≡ out.old.items ++ compact_text (refused_data fault)) }
{
    push_text(out, "{\"fault\":\"")?;
    push_text(out, fault.name())?;
    push_text(out, "\",\"number\":")?;
    push_number(out, u64::from(fault.number()))?;
    push_text(out, ",\"reply\":\"refused\"}")
}

/// Returns the code of the participant with this number. Requires `number` below the number of
/// participants.
pub fn code_text(settings: &Settings, number: u8) -> &str
    requires { is_participant settings.now number ≡ true }
    ensures value { result.now ≡ code_numbered settings.now number }
    ensures form { IsTrue (is_code result.now) }
{
    match settings.code(number) {
        Some(code) => code.text(),
        None => unreachable!(),
    }
}

fn append_state(
    out: &mut Vec<u8>,
    settings: &Settings,
    from: u8,
    id: &Ident,
    state: &State,
) -> Result<(), AllocError>
    requires known { is_participant settings.now from ≡ true }
    requires used { is_used state.now ≡ true }
    ensures { OnOk result (out.new.items
        ≡ out.old.items
        ++ compact_text (state_members (code_numbered settings.now from) id.now state.now)) }
{
    let from = code_text(settings, from);
    match state {
        State::Unused => unreachable!(),
        State::Pending => append_named_state(out, from, id, "pending"),
        State::Decided(Outcome::Accepted) => append_named_state(out, from, id, "accepted"),
        State::Decided(Outcome::Rejected(reason)) => append_rejected(out, from, id, reason),
        State::Decided(Outcome::TimedOut) => append_named_state(out, from, id, "timed_out"),
    }
}

/// Appends a state without a reason.
fn append_named_state<'a>(
    out: &mut Vec<u8>,
    from: &'a str,
    id: &'a Ident,
    name: &'a str,
) -> Result<(), AllocError>
    requires from_form { IsTrue (is_code from.now) }
    requires name_form { is_state_name name.now ≡ true }
    ensures { OnOk result (out.new.items
        ≡ out.old.items ++ compact_text (state_data from.now id.now name.now)) }
{
    let id = id.text();
    push_text(out, "{\"from\":\"")?;
    push_text(out, from)?;
    push_text(out, "\",\"id\":\"")?;
    push_text(out, id)?;
    push_text(out, "\",\"reply\":\"state\",\"state\":\"")?;
    push_text(out, name)?;
    push_text(out, "\"}")
}

fn append_rejected<'a>(
    out: &mut Vec<u8>,
    from: &'a str,
    id: &'a Ident,
    reason: &'a Reason,
) -> Result<(), AllocError>
    requires { IsTrue (is_code from.now) }
    ensures { OnOk result (out.new.items
        ≡ out.old.items ++ compact_text (rejected_data from.now id.now reason.now)) }
{
    let id = id.text();
    let reason = reason.text();
    push_text(out, "{\"from\":\"")?;
    push_text(out, from)?;
    push_text(out, "\",\"id\":\"")?;
    push_text(out, id)?;
    push_text(out, "\",\"reason\":\"")?;
    push_text(out, reason)?;
    push_text(out, "\",\"reply\":\"state\",\"state\":\"rejected\"}")
}
