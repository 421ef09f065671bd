//! Writing events as lines.
ghost use Rattle.std.specs.Prelude.{◌≡◌, ◌+◌, ◌++◌, ◌&&◌, true, IsTrue, OnOk};
ghost use Rattle.serde_json.specs.Written.{compact_text};
ghost use Rattle.inst_base.specs.Cents.{is_amount};
ghost use Rattle.inst_base.specs.Moment.{is_moment};
ghost use Rattle.inst_base.specs.Text.{is_code, is_identifier, is_reason};
ghost use Rattle.inst_books.specs.Events.{data_in, event_can_be_written};
ghost use Rattle.inst_books.specs.inner.Events.{is_name};
ghost use Rattle.inst_books.specs.Laws.{event_has_form, outcome_has_form};
ghost use Rattle.inst_books.specs.Events.{funding_data, taken_event_data, forwarded_data};
ghost use Rattle.inst_books.specs.Events.{booked_data};
ghost use Rattle.inst_books.specs.Events.{rejected_event_data};
ghost use Rattle.inst_books.specs.Events.{outcome_data, fetched_data, opened_data};

use crate::members::{push_book, push_end, push_text_member, push_whole_member};
use inst_base::{Cents, Ident, Moment, Reason};
use inst_command::{Funding, Outcome};
use inst_journal::Event;
use inst_json::code_text;
use inst_settings::Settings;
use std::alloc::AllocError;

/// Appends the line of an event in the book with this code, without its newline: compact JSON with
/// the keys in byte order.
///
/// Moments are absolute milliseconds, amounts are cents. On allocation failure `out` may end in a
/// part of the line.
pub(crate) fn append_event(
    settings: &Settings,
    book: &str,
    event: &Event,
    out: &mut Vec<u8>,
) -> Result<(), AllocError>
    requires book { IsTrue (is_code book.now) }
    requires writable { event_can_be_written settings.now event.now ≡ true }
    ensures text { OnOk result (out.new.items
        ≡ out.old.items ++ compact_text (data_in settings.now book.now event.now)) }
    ensures form { event_has_form event.now ≡ true }
{
    match event {
        Event::Funded(funding) => append_funding(out, book, "funded", funding),
        Event::Defunded(funding) => append_funding(out, book, "defunded", funding),
        Event::Taken {
            id,
            to,
            cents,
            stamp,
        } => {
            let stamp = millis(settings, *stamp);
            append_taken(out, book, id, code_text(settings, *to), *cents, stamp)
        }
        Event::Forwarded {
            from,
            id,
            cents,
            deadline,
        } => {
            let deadline = millis(settings, *deadline);
            append_forwarded(out, book, code_text(settings, *from), id, *cents, deadline)
        }
        Event::Booked { from, id, outcome } => {
            append_booked(out, book, code_text(settings, *from), id, *outcome)
        }
        Event::Fetched { count } => append_fetched(out, book, *count),
        Event::Opened => append_opened(out, book),
    }
}

/// Returns the moment in absolute milliseconds.
fn millis(settings: &Settings, moment: Moment) -> u64
    ensures value { result ≡ settings.now.base + moment }
    ensures form { is_moment moment ≡ true }
{
    moment.millis(settings.base())
}

/// Appends a funding or defunding, by its name.
fn append_funding<'a>(
    out: &mut Vec<u8>,
    book: &'a str,
    name: &'a str,
    funding: &'a Funding,
) -> Result<(), AllocError>
    requires book { IsTrue (is_code book.now) }
    requires name { is_name name.now ≡ true }
    ensures text { OnOk result (out.new.items
        ≡ out.old.items ++ compact_text (funding_data book.now name.now funding.now)) }
    ensures form { (is_identifier funding.now.reference && is_amount funding.now.cents) ≡ true }
{
    let reference = funding.reference.text();
    let cents = funding.cents.get();
    push_book(out, book)?;
    push_whole_member(out, "cents", cents)?;
    push_text_member(out, "event", name)?;
    push_text_member(out, "ref", reference)?;
    push_end(out)
}

/// Appends a taken submission. The stamp is in absolute milliseconds.
fn append_taken<'a>(
    out: &mut Vec<u8>,
    book: &'a str,
    id: &'a Ident,
    to: &'a str,
    cents: Cents,
    stamp: u64,
) -> Result<(), AllocError>
    requires book { IsTrue (is_code book.now) }
    requires to { IsTrue (is_code to.now) }
    ensures text { OnOk result (out.new.items
        ≡ out.old.items ++ compact_text (taken_event_data book.now id.now to.now cents stamp)) }
    ensures form { (is_identifier id.now && is_amount cents) ≡ true }
{
    let id = id.text();
    push_book(out, book)?;
    push_whole_member(out, "cents", cents.get())?;
    push_text_member(out, "event", "taken")?;
    push_text_member(out, "id", id)?;
    push_whole_member(out, "stamp", stamp)?;
    push_text_member(out, "to", to)?;
    push_end(out)
}

/// Appends a forwarded transfer. The deadline is in absolute milliseconds.
fn append_forwarded<'a>(
    out: &mut Vec<u8>,
    book: &'a str,
    from: &'a str,
    id: &'a Ident,
    cents: Cents,
    deadline: u64,
) -> Result<(), AllocError>
    requires book { IsTrue (is_code book.now) }
    requires from { IsTrue (is_code from.now) }
    ensures text { OnOk result (out.new.items
        ≡ out.old.items ++ compact_text (forwarded_data book.now from.now id.now cents deadline)) }
    ensures form { (is_identifier id.now && is_amount cents) ≡ true }
{
    let id = id.text();
    push_book(out, book)?;
    push_whole_member(out, "cents", cents.get())?;
    push_whole_member(out, "deadline", deadline)?;
    push_text_member(out, "event", "forwarded")?;
    push_text_member(out, "from", from)?;
    push_text_member(out, "id", id)?;
    push_end(out)
}

/// Appends a booked outcome.
fn append_booked<'a>(
    out: &mut Vec<u8>,
    book: &'a str,
    from: &'a str,
    id: &'a Ident,
    outcome: Outcome,
) -> Result<(), AllocError>
    requires book { IsTrue (is_code book.now) }
    requires from { IsTrue (is_code from.now) }
    ensures text { OnOk result (out.new.items
        ≡ out.old.items ++ compact_text (outcome_data book.now from.now id.now outcome)) }
    ensures form { (is_identifier id.now && outcome_has_form outcome) ≡ true }
{
    match outcome {
        Outcome::Accepted => append_outcome(out, book, from, id, "accepted"),
        Outcome::Rejected(reason) => append_rejected(out, book, from, id, &reason),
        Outcome::TimedOut => append_outcome(out, book, from, id, "timed_out"),
    }
}

/// Appends an outcome without a reason, by its name.
fn append_outcome<'a>(
    out: &mut Vec<u8>,
    book: &'a str,
    from: &'a str,
    id: &'a Ident,
    name: &'a str,
) -> Result<(), AllocError>
    requires book { IsTrue (is_code book.now) }
    requires from { IsTrue (is_code from.now) }
    requires name { is_name name.now ≡ true }
    ensures text { OnOk result (out.new.items
        ≡ out.old.items ++ compact_text (booked_data book.now from.now id.now name.now)) }
    ensures form { is_identifier id.now ≡ true }
{
    let id = id.text();
    push_book(out, book)?;
    push_text_member(out, "event", "booked")?;
    push_text_member(out, "from", from)?;
    push_text_member(out, "id", id)?;
    push_text_member(out, "outcome", name)?;
    push_end(out)
}

fn append_rejected<'a>(
    out: &mut Vec<u8>,
    book: &'a str,
    from: &'a str,
    id: &'a Ident,
    reason: &'a Reason,
) -> Result<(), AllocError>
    requires book { IsTrue (is_code book.now) }
    requires from { IsTrue (is_code from.now) }
    ensures text { OnOk result (out.new.items
        ≡ out.old.items ++ compact_text (rejected_event_data book.now from.now id.now reason.now)) }
    ensures form { (is_identifier id.now && is_reason reason.now) ≡ true }
{
    let id = id.text();
    let reason = reason.text();
    push_book(out, book)?;
    push_text_member(out, "event", "booked")?;
    push_text_member(out, "from", from)?;
    push_text_member(out, "id", id)?;
    push_text_member(out, "outcome", "rejected")?;
    push_text_member(out, "reason", reason)?;
    push_end(out)
}

fn append_fetched(out: &mut Vec<u8>, book: &str, count: u32) -> Result<(), AllocError>
    requires { IsTrue (is_code book.now) }
    ensures { OnOk result (out.new.items
        ≡ out.old.items ++ compact_text (fetched_data book.now count)) }
{
    push_book(out, book)?;
    push_whole_member(out, "count", u64::from(count))?;
    push_text_member(out, "event", "fetched")?;
    push_end(out)
}

fn append_opened(out: &mut Vec<u8>, book: &str) -> Result<(), AllocError>
    requires { IsTrue (is_code book.now) }
    ensures { OnOk result (out.new.items ≡ out.old.items ++ compact_text (opened_data book.now)) }
{
    push_book(out, book)?;
    push_text_member(out, "event", "opened")?;
    push_end(out)
}
