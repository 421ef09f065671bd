//! Checking if a hub may open from journals.
ghost use Rattle.std.specs.Prelude.{◌≡◌, ◌↔◌, ℕ, ◌≤◌, [], length, IfOk, IfSome, IsSome, IsTrue};
ghost use Rattle.inst_journal.specs.Sound.{IsSound};
ghost use Rattle.inst_world.specs.NextOpening.{books_of, CanOpenFrom};
ghost use Rattle.inst_books.specs.inner.Replaying.{CanBeBook, AreAllKept};

use crate::replay::Replay;
use crate::sides::books_agree;
use inst_base::mention;
use inst_command::Outcome;
use inst_journal::Journal;
use inst_ledger::Ledger;
use inst_settings::Settings;
use std::alloc::{AllocError, Global};

/// Replays a history; returns `true` if its participant can have it. One that it can't is replayed up
/// to its first wrong event.
fn keep_all(replay: &mut Replay, journal: &Journal) -> Result<bool, AllocError>
    requires blank { replay.old.events ≡ [] }
    ensures sound { IfOk result (λ sound. IsTrue sound ↔
        IsSound replay.old.settings replay.old.who journal.now.events) }
    ensures same { IfOk result (λ sound. IsTrue sound →
        replay.new.events ≡ journal.now.events) }
{
    mention::<Outcome>();
    for event in journal.events() {
        if !replay.may_keep(event) {
            return Ok(false);
        }
        replay.keep(*event)?;
    }
    Ok(true)
}

/// Returns the replayed history of participant `who`; `None` if it can't have this journal.
pub(crate) fn replayed(
    alloc: Global,
    settings: &Settings,
    who: u8,
    journal: &Journal,
) -> Result<Option<Replay>, AllocError>
    ensures sound { IfOk result (λ kept. IsSome kept ↔
        IsSound settings.now who journal.now.events) }
    ensures same { IfOk result (λ kept. IfSome kept (λ replay. replay.events ≡ journal.now.events)) }
{
    let mut replay = Replay::open(alloc, settings, who)?;
    let is_sound = keep_all(&mut replay, journal)?;
    Ok(is_sound.then_some(replay))
}

/// Returns the replayed ledger of participant `who`; `None` if the journal can't be its book.
fn replayed_book(
    alloc: Global,
    settings: &Settings,
    who: u8,
    journal: &Journal,
) -> Result<Option<Ledger>, AllocError>
    ensures can { IfOk result (λ kept. IsSome kept ↔
        CanBeBook settings.now who journal.now.events) }
    ensures same { IfOk result (λ kept. IfSome kept (λ l. l.book.events ≡ journal.now.events)) }
{
    match replayed(alloc, settings, who, journal)? {
        Some(replay) if replay.may_open() => Ok(Some(replay.into_ledger())),
        _ => Ok(None),
    }
}

/// Returns the replayed ledgers of all participants; `None` if one of the journals can't be a book.
fn all_replayed(
    alloc: Global,
    settings: &Settings,
    journals: &[Journal],
) -> Result<Option<Vec<Ledger>>, AllocError>
    requires { length journals.now ≤ 256 }
    ensures kept { IfOk result (λ kept.
        IfSome kept (λ ledgers. AreAllKept settings.now journals.now ledgers.items)) }
    ensures can { IfOk result (λ kept.
        ((p : ℕ) → CanBeBook settings.now p (books_of journals.now p)) → IsSome kept) }
{
    let mut ledgers = Vec::new(alloc);
    for (who, journal) in journals.iter().enumerate() {
        match replayed_book(alloc, settings, who as u8, journal)? {
            Some(ledger) => ledgers.push(ledger)?,
            None => return Ok(None),
        }
    }
    Ok(Some(ledgers))
}

/// Returns `true` if a hub with these settings can open from the journals, one for each participant
/// by number.
///
/// They can be anything. Each must be a history that its participant can have, opened from fewer
/// than 500 times, and both sides of each transfer must agree.
///
/// Replays the journals into ledgers, and makes a few table lookups per event.
///
/// # Errors
///
/// [`AllocError`] if the ledgers can't be allocated. The journals are only read.
pub fn can_open(
    alloc: Global,
    settings: &Settings,
    journals: &[Journal],
) -> Result<bool, AllocError>
    ensures can { IfOk result (λ can. IsTrue can ↔ CanOpenFrom settings.now journals.now) }
{
    if journals.len() != usize::from(settings.participants()) {
        return Ok(false);
    }
    match all_replayed(alloc, settings, journals)? {
        Some(ledgers) => Ok(books_agree(&ledgers, settings.limit())),
        None => Ok(false),
    }
}
