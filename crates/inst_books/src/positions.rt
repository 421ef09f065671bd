//! Carrying positions into a new chain of logs.
ghost use Rattle.std.specs.Prelude.{◌≡◌, ℕ, ◌+◌, ◌<◌, ◌≤◌, ◌^◌, List, length, get_or, None, true, false, []};
ghost use Rattle.std.specs.Prelude.{IfOk, IfSome};
ghost use Rattle.std.specs.List.{list_all};
ghost use Rattle.inst_settings.specs.Codes.{index_of};
ghost use Rattle.inst_settings.specs.Settings.{participants};
ghost use Rattle.inst_journal.specs.History.{History};
ghost use Rattle.inst_journal.specs.Money.{position, reserved};
ghost use Rattle.inst_journal.specs.Sound.{IsSound};
ghost use Rattle.inst_world.specs.NextOpening.{books_of, AreClosedBooks, CanOpenFrom};
ghost use Rattle.inst_books.specs.Positions.{CarriesPositions, IsBaseAfter, IsFundedWith};
ghost use Rattle.inst_books.specs.Positions.{is_before_base, position_of};
ghost use Rattle.inst_books.specs.inner.Carrying.{AreAllPositions, AreFunded};

use crate::audit::{can_open, replayed};
use inst_base::{Cents, Code, Ident, mention};
use inst_command::{Funding, Outcome};
use inst_journal::{Event, Journal};
use inst_ledger::Ledger;
use inst_settings::Settings;
use std::alloc::{AllocError, Global};
use thiserror::Error;

/// A reason why positions can't be carried into a new chain.
#[derive(Clone, Copy, Debug, PartialEq, Eq, Error)]
pub enum CarryFault {
    /// The participant of this number has a pending transfer as an originator.
    #[error("a transfer of participant {0} is pending")]
    Pending(u8),
    /// A participant leaves whose position isn't 0.
    #[error("a participant leaves with money")]
    Leaver,
    /// A position is too large for the fundings and the ceiling of the new settings.
    #[error("a position is too large for the fundings and the ceiling")]
    TooLarge,
    /// An allocation failed.
    #[error("an allocation failed")]
    Memory,
}

impl From<AllocError> for CarryFault {
    ghost use Rattle.inst_books.specs.declared.positions.CarryFault.TheVariants.{Memory};

    ghost from_gives = { λ _ fault. fault ≡ Memory };

    fn from(_error: AllocError) -> CarryFault {
        CarryFault::Memory
    }
}

/// Returns the books of a new chain under the settings `new`: for each participant, fundings that
/// add up to the position in the books of the participant with its code, which are of the settings
/// `old`. Its fundings have the references `NAME 1`, `NAME 2` and so on, and each is at most the new
/// ceiling.
///
/// Requires the books of a closed hub (`AreClosedBooks`), also after the last opening that they can
/// have, and a name of at most 30 characters of an identifier. Replays the books once.
///
/// # Errors
///
/// - [`CarryFault::Pending`] if a transfer of the books isn't settled.
/// - [`CarryFault::Leaver`] if a participant with money has no code in the new settings.
/// - [`CarryFault::TooLarge`] if a position takes more fundings than an opening can have.
/// - [`CarryFault::Memory`] if an allocation fails.
pub fn carry_positions(
    alloc: Global,
    old: &Settings,
    books: &[Journal],
    new: &Settings,
    name: &str,
) -> Result<Vec<Journal>, CarryFault>
    requires { AreClosedBooks old.now books.now }
    ensures carried { IfOk result (λ next.
        CarriesPositions old.now books.now new.now next.items) }
    ensures can { IfOk result (λ next. CanOpenFrom new.now next.items) }
{
    let positions = settled_positions(alloc, old, books)?;
    if leaves_with_money(old, new, &positions) {
        return Err(CarryFault::Leaver);
    }
    let Some(next) = funded_journals(alloc, old, &positions, new, name)? else {
        return Err(CarryFault::TooLarge);
    };
    if !can_open(alloc, new, &next)? {
        return Err(CarryFault::TooLarge);
    }
    Ok(next)
}

/// Returns the positions in these books in cents, by number. Fails if a transfer is pending.
fn settled_positions(
    alloc: Global,
    settings: &Settings,
    books: &[Journal],
) -> Result<Vec<u64>, CarryFault>
    requires { AreClosedBooks settings.now books.now }
    ensures { IfOk result (λ positions. AreAllPositions books.now positions.items) }
{
    let mut positions = Vec::new(alloc);
    for who in 0..settings.participants() {
        let journal = &books[usize::from(who)];
        let position = settled_position(alloc, settings, who as u8, journal)?;
        match positions.push(position) {
            Ok(()) => {}
            Err(_) => return Err(CarryFault::Memory),
        }
    }
    Ok(positions)
}

/// Returns the position in this book of participant `who`. Fails if a transfer of its own is
/// pending.
fn settled_position(
    alloc: Global,
    settings: &Settings,
    who: u8,
    journal: &Journal,
) -> Result<u64, CarryFault>
    requires { IsSound settings.now who journal.now.events }
    ensures { IfOk result (λ cents. (cents ≡ position journal.now.events)
        × (reserved journal.now.events ≡ 0)) }
{
    let Some(replay) = replayed(alloc, settings, who, journal)? else {
        unreachable!()
    };
    let ledger = replay.into_ledger();
    if ledger.reserved() > 0 {
        return Err(CarryFault::Pending(who));
    }
    Ok(ledger.position() as u64)
}

/// Returns `true` if a participant with money has no code in the new settings.
fn leaves_with_money(old: &Settings, new: &Settings, positions: &[u64]) -> bool
    requires { length positions.now ≡ participants old.now }
    ensures { result ≡ false → (p : ℕ) → p < length positions.now →
        index_of (get_or old.now.codes p []) new.now.codes ≡ None → get_or positions.now p 0 ≡ 0 }
{
    for (who, code) in old.codes().iter().enumerate() {
        if new.index_of(code).is_none() && positions[who] > 0 {
            return true;
        }
    }
    false
}

/// Returns the journals of the new participants, with fundings that add up to the positions of
/// before, or `None` if one needs too many.
fn funded_journals(
    alloc: Global,
    old: &Settings,
    positions: &[u64],
    new: &Settings,
    name: &str,
) -> Result<Option<Vec<Journal>>, AllocError>
    ensures { IfOk result (λ found. IfSome found (λ next. (books : List History) →
        AreAllPositions books positions.now →
        (length next.items ≡ participants new.now)
        × AreFunded old.now books new.now.codes next.items)) }
{
    let mut next = Vec::new(alloc);
    for code in new.codes() {
        let cents = position_in(old, positions, code);
        match funded_journal(alloc, new, name, cents)? {
            Some(journal) => next.push(journal)?,
            None => return Ok(None),
        }
    }
    Ok(Some(next))
}

/// Returns the position of the participant with this code; 0 if there is none.
fn position_in(settings: &Settings, positions: &[u64], code: &Code) -> u64
    ensures { (books : List History) → AreAllPositions books positions.now →
        result ≡ position_of settings.now books code.now }
{
    match settings.index_of(code) {
        Some(number) => positions.get(usize::from(number)).copied().unwrap_or(0),
        None => 0,
    }
}

/// Returns a journal with fundings that add up to this position, or `None` if it needs too many, or
/// if the name is too long.
fn funded_journal(
    alloc: Global,
    settings: &Settings,
    name: &str,
    position: u64,
) -> Result<Option<Journal>, AllocError>
    ensures { IfOk result (λ found. IfSome found (λ journal.
        IsFundedWith position journal.events)) }
{
    let mut journal = Journal::new(alloc);
    let mut left = position;
    for number in 0..settings.fundings() {
        let Ok(cents) = Cents::new(left.min(settings.ceiling())) else {
            break;
        };
        let Some(reference) = reference(alloc, name, number)? else {
            return Ok(None);
        };
        journal.push(Event::Funded(Funding { reference, cents }))?;
        left -= cents.get();
    }
    if left > 0 {
        return Ok(None);
    }
    Ok(Some(journal))
}

/// Returns the reference of the funding of this number, counted from 0; `None` if it is too long.
fn reference(alloc: Global, name: &str, number: u16) -> Result<Option<Ident>, AllocError> {
    let number = u32::from(number) + 1;
    let text = format!(in alloc; "{name} {number}")?;
    Ok(Ident::new(text.as_str()).ok())
}

/// Returns the least base of a new chain, for books of a hub with this base: it is after every time
/// stamp of the books. So no submission of theirs can be taken by a hub with that base.
pub fn base_after(base: u64, books: &[Journal]) -> u64
    requires { base ≤ 2 ^ 62 }
    ensures after { IsBaseAfter base books.now result }
    ensures within { result ≤ base + 2 ^ 41 }
{
    let mut least = 0;
    for journal in books {
        let unused = first_unused(journal);
        if unused > least {
            least = unused;
        }
    }
    base + least
}

/// Returns the least number of milliseconds since the base that is above every time stamp.
fn first_unused(journal: &Journal) -> u64
    ensures stamps { (base : ℕ) →
        list_all (is_before_base base (base + result)) journal.now.events ≡ true }
    ensures within { result ≤ 2 ^ 41 }
{
    mention::<Outcome>();
    let mut least = 0;
    for event in journal.events() {
        let unused = after_stamp(event);
        if unused > least {
            least = unused;
        }
    }
    least
}

/// Returns the least number of milliseconds since the base that is above the event's time stamp; 0
/// if it has none.
fn after_stamp(event: &Event) -> u64
    ensures stamp { (base : ℕ) → is_before_base base (base + result) event.now ≡ true }
    ensures within { result ≤ 2 ^ 41 }
{
    match event {
        Event::Taken { stamp, .. } => stamp.past_base() + 1,
        Event::Funded(_)
        | Event::Defunded(_)
        | Event::Forwarded { .. }
        | Event::Booked { .. }
        | Event::Fetched { .. }
        | Event::Opened => 0,
    }
}

/// A pending transfer of a book.
#[derive(Clone, Copy, Debug, PartialEq, Eq)]
pub struct PendingTransfer {
    /// Its identifier.
    pub id: Ident,
    /// Its deadline, in absolute milliseconds.
    pub deadline: u64,
}

/// Returns the first pending transfer of the originator `who`, or `None` if there is none or it
/// can't have this journal. Replays the journal.
///
/// # Errors
///
/// [`AllocError`] if the replay can't be allocated.
pub fn first_pending(
    alloc: Global,
    settings: &Settings,
    who: u8,
    journal: &Journal,
) -> Result<Option<PendingTransfer>, AllocError> {
    match replayed(alloc, settings, who, journal)? {
        Some(replay) => Ok(pending_in(&replay.into_ledger(), settings)),
        None => Ok(None),
    }
}

/// Returns the first pending transfer of the ledger's participant.
fn pending_in(ledger: &Ledger, settings: &Settings) -> Option<PendingTransfer> {
    mention::<Outcome>();
    for event in ledger.journal().events() {
        if let Event::Taken { id, stamp, .. } = event {
            if ledger.booked(ledger.who(), id).is_none() {
                let deadline = settings.base() + stamp.past_base() + u64::from(settings.limit());
                return Some(PendingTransfer { id: *id, deadline });
            }
        }
    }
    None
}
