//! Replies about the position and the inbox.
ghost use Rattle.std.specs.Prelude.{◌≡◌, ◌≤◌, true, take, length, sum_by, IfOk, IsOk};
ghost use Rattle.inst_base.specs.Fault.{IsUnlessMemory};
ghost use Rattle.inst_settings.specs.Lawful.{IsSettings};
ghost use Rattle.inst_command.specs.Ask.{is_count};
ghost use Rattle.inst_journal.specs.Money.{reserved, position, available};
ghost use Rattle.inst_journal.specs.Reply.{entry_of, inbox, handed_out, unread, hand_out};
ghost use Rattle.inst_journal.specs.Sound.{IsSound};

use crate::handle::Handled;
use crate::{Event, sums};
use inst_base::Fault;
use inst_command::{Entries, Entry, Reply};
use inst_settings::Settings;
use std::alloc::{AllocError, Global};

/// Replies the position, what is reserved and what is available.
pub(crate) fn position(settings: &Settings, who: u8, events: &[Event]) -> Reply
    requires lawful { IsSettings settings.now }
    requires sound { IsSound settings.now who events.now }
    ensures { result ≡ Reply.Position (position events.now) (reserved events.now)
        (available events.now) }
{
    let position = sums::position(events);
    let reserved = sums::reserved(events);
    let available = position.saturating_sub(reserved);
    Reply::Position {
        position: position as u64,
        reserved: reserved as u64,
        available: available as u64,
    }
}

/// Returns the number of forwarded transfers that were fetched.
fn handed_out(events: &[Event]) -> usize
    requires { sum_by handed_out events.now ≤ length events.now }
    ensures { result ≡ sum_by handed_out events.now }
{
    let mut total = 0;
    for event in events {
        if let Event::Fetched { count } = event {
            total += *count as usize;
        }
    }
    total
}

/// Returns the entry of a forwarded transfer.
fn entry_of(event: &Event) -> Option<Entry>
    ensures { result ≡ entry_of event.now }
{
    match event {
        Event::Forwarded {
            from,
            id,
            cents,
            deadline,
        } => Some(Entry {
            from: *from,
            id: *id,
            cents: *cents,
            deadline: *deadline,
        }),
        _ => None,
    }
}

/// Returns all forwarded transfers, in order of arrival.
fn inbox(alloc: Global, events: &[Event]) -> Result<Vec<Entry>, AllocError>
    ensures { IfOk result (λ entries. entries.items ≡ inbox events.now) }
{
    events.iter().filter_map(entry_of).collect(alloc)
}

/// Returns the number of forwarded transfers.
fn arrivals(events: &[Event]) -> usize
    ensures { result ≡ length (inbox events.now) }
{
    events.iter().filter_map(entry_of).count()
}

/// Returns at most `max` of the next unread forwarded transfers. Allocates only if there are any.
fn unread(alloc: Global, events: &[Event], max: u32) -> Result<Vec<Entry>, AllocError>
    requires { sum_by handed_out events.now ≤ length (inbox events.now) }
    ensures ok { IfOk result (λ entries. entries.items ≡ take max (unread events.now)) }
    ensures none { length (unread events.now) ≡ 0 → IsOk result }
{
    let read = handed_out(events);
    if arrivals(events) == read {
        return Ok(Vec::new(alloc));
    }
    let inbox = inbox(alloc, events)?;
    let rest = &inbox[read..];
    rest[..rest.len().min(max as usize)].to_vec(alloc)
}

/// Fetches at most `max` of the next unread forwarded transfers. `Memory` only if there are any.
pub(crate) fn fetch(
    alloc: Global,
    settings: &Settings,
    who: u8,
    events: &[Event],
    max: u32,
) -> Result<Handled, Fault>
    requires count { is_count max ≡ true }
    requires sound { IsSound settings.now who events.now }
    ensures reply { IsUnlessMemory result (hand_out (take max (unread events.now))) }
    ensures none { length (unread events.now) ≡ 0 →
        result ≡ hand_out (take max (unread events.now)) }
{
    let entries = unread(alloc, events, max)?;
    let count = entries.len() as u32;
    let reply = Reply::Inbox {
        entries: Entries::new(entries),
    };
    if count == 0 {
        return Ok(Handled { reply, kept: None });
    }
    let event = Event::Fetched { count };
    Ok(Handled {
        reply,
        kept: Some(event),
    })
}
