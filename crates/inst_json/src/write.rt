//! Writing replies as lines.
ghost use Rattle.std.specs.Prelude.{◌≡◌, ◌++◌, Some, true, IfOk, OnOk, codes, if◌then◌else◌};
ghost use Rattle.serde_json.specs.Written.{compact_text};
ghost use Rattle.serde_json.specs.Read.{read};
ghost use Rattle.inst_command.specs.declared.reply.Answer.TheVariants.{Reply as ReplyAnswer};
ghost use Rattle.inst_command.specs.declared.reply.Reply.{Reply};
ghost use Rattle.inst_json.specs.Laws.{has_words};
ghost use Rattle.inst_json.specs.Replies.{reply_data, reply_can_be_written, answer_data, new_data};
ghost use Rattle.inst_json.specs.Replies.{answer_can_be_written};

use crate::piece::push_text;
use crate::reply::append_reply;
use inst_command::{Answer, Reply};
use inst_settings::Settings;
use std::alloc::{AllocError, Global};

/// Returns the line of a reply, without its newline: compact JSON with the keys in byte order.
///
/// Moments are absolute milliseconds, amounts are cents. Requires a reply of a hub with these
/// settings.
///
/// # Errors
///
/// [`AllocError`] if the line can't be allocated.
pub fn write_reply(alloc: Global, settings: &Settings, reply: &Reply) -> Result<Vec<u8>, AllocError>
    requires { reply_can_be_written settings.now reply.now ≡ true }
    ensures text { IfOk result (λ bytes. bytes.items
        ≡ compact_text (reply_data settings.now reply.now)) }
    ensures reads_back { IfOk result (λ bytes. read bytes.items
        ≡ Some (reply_data settings.now reply.now)) }
{
    let mut text = Vec::new(alloc);
    append_reply(settings, reply, &mut text)?;
    Ok(text)
}

/// Returns the line of an answer, without its newline: the reply's line, or
/// `{"new":true,"reply":"step"}` (`false` if no history changed).
///
/// Requires an answer of a hub with these settings.
///
/// # Errors
///
/// [`AllocError`] if the line can't be allocated.
pub fn write_answer(
    alloc: Global,
    settings: &Settings,
    answer: &Answer,
) -> Result<Vec<u8>, AllocError>
    requires { answer_can_be_written settings.now answer.now ≡ true }
    ensures text { IfOk result (λ bytes. bytes.items
        ≡ compact_text (answer_data settings.now answer.now)) }
    ensures reads_back { IfOk result (λ bytes. read bytes.items
        ≡ Some (answer_data settings.now answer.now)) }
{
    let mut text = Vec::new(alloc);
    append_answer(settings, answer, &mut text)?;
    Ok(text)
}

/// Appends the line of an answer to `out`, as [`write_answer`] returns it. Requires an answer of a
/// hub with these settings.
///
/// # Errors
///
/// [`AllocError`] if `out` can't grow; it may end in a part of the line.
pub fn append_answer(
    settings: &Settings,
    answer: &Answer,
    out: &mut Vec<u8>,
) -> Result<(), AllocError>
    requires { answer_can_be_written settings.now answer.now ≡ true }
    ensures text { OnOk result (out.new.items
        ≡ out.old.items ++ compact_text (answer_data settings.now answer.now)) }
    ensures words { OnOk result ((reply : Reply) → answer.now ≡ ReplyAnswer reply →
        has_words settings.now reply ≡ true) }
{
    match answer {
        Answer::Reply(reply) => append_reply(settings, reply, out),
        Answer::New(new) => append_new(out, *new),
    }
}

/// Appends the line that says if a step brought anything new.
fn append_new(out: &mut Vec<u8>, new: bool) -> Result<(), AllocError>
    ensures { OnOk result (out.new.items ≡ out.old.items ++ compact_text (new_data new)) }
{
    push_text(out, "{\"new\":")?;
    push_text(out, bool_name(new))?;
    push_text(out, ",\"reply\":\"step\"}")
}

fn bool_name(value: bool) -> &'static str
    ensures { result.now ≡ if value then codes "true" else codes "false" }
{
    if value { "true" } else { "false" }
}
