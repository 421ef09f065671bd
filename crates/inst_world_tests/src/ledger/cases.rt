//! The ledger of a table: its first events, its replies, and its sums.
ghost use Rattle.std.specs.Prelude.{◌≡◌, ◌≤◌, [], IfOk};
ghost use Rattle.inst_settings.specs.Settings.{participants};
ghost use Rattle.inst_settings.specs.Lawful.{IsSettings};

use crate::comparing::{same, same_at};
use crate::ledger::answering::{Row, answers, walks};
use inst_base::{Cents, Fault, Ident, Moment};
use inst_command::Outcome;
use inst_fixtures::{End, Shown, is_end, settings};
use inst_journal::{Event, Journal};
use inst_ledger::Ledger;
use std::alloc::Global;
use std::process::Abort;

/// The events before the first command.
#[derive(Clone, Copy)]
pub(crate) enum First {
    Nothing,
    /// An opening.
    Opened,
    /// T1 of participant 0 and T1 of participant 2, both to participant 1, with these amounts in
    /// cents.
    Forwarded(u64, u64),
}

/// The numbers of events, fundings and live submissions; the reserved sum, the position and the
/// available sum; and from the journal the net funding, the debits, the credits, and those three
/// sums again.
pub(crate) type Held = ([usize; 3], [u128; 3], i128, [u128; 5]);

/// Whether the identifier is taken, its beneficiary, and whether one was forwarded from participant
/// 0 and from participant 1.
pub(crate) type KnownTransfer = (bool, Option<u8>, [bool; 2]);

/// What the ledger does and what is compared.
pub(crate) enum Does {
    /// Answers these rows.
    Answers(&'static [Row]),
    /// Opens again from its own books.
    OpensAgain,
    /// Has stored this many events.
    Keeps(usize),
    Holds(Held),
    /// Knows this of the transfers with an identifier, and how that of participant 0 ended.
    Knows(&'static str, KnownTransfer, Option<End>),
    /// A pass over its events gives these lines: the number to skip, the most to return, the lines.
    Walks(u64, u32, &'static [Shown]),
}

/// Stores both forwarded transfers, one after the other.
fn keep_both(
    ledger: &mut Ledger,
    id: Ident,
    amounts: [Cents; 2],
    deadline: Moment,
) -> Result<(), Fault>
    requires blank { ledger.old.book.events ≡ [] }
    requires own { ledger.old.book.who ≡ 1 }
    requires lawful { IsSettings ledger.old.book.settings }
    requires three { 3 ≤ participants ledger.old.book.settings }
{
    let [first, second] = amounts;
    ledger.keep(Event::Forwarded {
        from: 0,
        id,
        cents: first,
        deadline,
    })?;
    ledger.keep(Event::Forwarded {
        from: 2,
        id,
        cents: second,
        deadline,
    })?;
    Ok(())
}

fn forward_both(rt: &impl Abort, ledger: &mut Ledger, first: u64, second: u64) -> Result<(), Fault>
    requires blank { ledger.old.book.events ≡ [] }
    requires lawful { IsSettings ledger.old.book.settings }
{
    let id = Ident::new("T1")?;
    let amounts = [Cents::new(first)?, Cents::new(second)?];
    let deadline = Moment::new(0, 11_000)?;
    assert!(rt; ledger.who() == 1);
    assert!(rt; ledger.settings().participants() >= 3);
    keep_both(ledger, id, amounts, deadline)
}

/// Reserving capacity adds no event, and storing adds one.
fn keep_an_opening(rt: &impl Abort, ledger: &mut Ledger) -> Result<(), Fault>
    requires { ledger.old.book.events ≡ [] }
{
    ledger.reserve()?;
    same(rt, ledger.journal().events().len(), 0);
    ledger.keep(Event::Opened)?;
    same(rt, ledger.journal().events(), [Event::Opened].as_slice());
    Ok(())
}

fn begin(rt: &impl Abort, ledger: &mut Ledger, first: First) -> Result<(), Fault>
    requires blank { ledger.old.book.events ≡ [] }
    requires lawful { IsSettings ledger.old.book.settings }
{
    match first {
        First::Nothing => Ok(()),
        First::Opened => keep_an_opening(rt, ledger),
        First::Forwarded(first, second) => forward_both(rt, ledger, first, second),
    }
}

/// Returns `true` if there are `kept` events followed by `Opened`.
fn is_opened_behind(journal: &Journal, kept: usize) -> bool {
    match journal.events().split_last() {
        Some((last, events)) => *last == Event::Opened && events.len() == kept,
        None => false,
    }
}

/// Replaces the ledger by one that opens from its books, which has `Opened` after their events.
fn open_again(rt: &(impl Abort + AllocGlobal), ledger: &mut Ledger) -> Result<(), Fault> {
    let kept = ledger.journal().events().len();
    assert!(rt; ledger.journal().has_openings_left());
    *ledger = Ledger::open_from(
        rt.alloc(),
        ledger.settings(),
        ledger.who(),
        ledger.journal(),
    )?;
    same(rt, is_opened_behind(ledger.journal(), kept), true);
    Ok(())
}

fn held(ledger: &Ledger) -> Held {
    let journal = ledger.journal();
    let counts = [
        journal.events().len(),
        ledger.fundings(),
        ledger.live_submissions(),
    ];
    let totals = [ledger.reserved(), ledger.position(), ledger.available()];
    let sums = [
        journal.debits(),
        journal.credits(),
        journal.reserved(),
        journal.position(),
        journal.available(),
    ];
    (counts, totals, journal.net(), sums)
}

fn is_ended(outcome: &Option<Outcome>, end: &Option<End>) -> bool {
    match (outcome, end) {
        (Some(outcome), Some(end)) => is_end(outcome, end),
        (None, None) => true,
        _ => false,
    }
}

/// Compares what the ledger knows of transfers with this identifier.
fn knows(rt: &impl Abort, ledger: &Ledger, id: &Ident, wanted: KnownTransfer, end: &Option<End>) {
    let forwarded = [ledger.is_forwarded(0, id), ledger.is_forwarded(1, id)];
    let found = (ledger.is_taken(id), ledger.beneficiary_of(id), forwarded);
    same_at(rt, *id, found, wanted);
    same_at(rt, *id, is_ended(&ledger.booked(0, id), end), true);
}

fn act(rt: &(impl Abort + AllocGlobal), ledger: &mut Ledger, does: &Does) -> Result<(), Fault> {
    match does {
        Does::Answers(rows) => return answers(rt, ledger, rows),
        Does::OpensAgain => return open_again(rt, ledger),
        Does::Walks(skip, count, lines) => return walks(rt, ledger, *skip, *count, lines),
        Does::Knows(name, known, end) => knows(rt, ledger, &Ident::new(name)?, *known, end),
        Does::Keeps(count) => same(rt, ledger.journal().events().len(), *count),
        Does::Holds(wanted) => same(rt, held(ledger), *wanted),
    }
    Ok(())
}

/// Stores the first events, and then acts in order.
fn act_all(
    rt: &(impl Abort + AllocGlobal),
    ledger: &mut Ledger,
    first: First,
    all: &[Does],
) -> Result<(), Fault>
    requires blank { ledger.old.book.events ≡ [] }
    requires lawful { IsSettings ledger.old.book.settings }
{
    begin(rt, ledger, first)?;
    for does in all {
        act(rt, ledger, does)?;
    }
    Ok(())
}

/// Opens a ledger of the participant `who` without a history.
fn opened(alloc: Global, who: u8) -> Result<Ledger, Fault>
    ensures blank { IfOk result (λ ledger. ledger.book.events ≡ []) }
    ensures lawful { IfOk result (λ ledger. IsSettings ledger.book.settings) }
{
    let settings = settings(alloc)?;
    Ok(Ledger::open(alloc, &settings, who)?)
}

/// Runs a table with a new ledger of the participant `who`.
pub(crate) fn goes(
    rt: &(impl Abort + AllocGlobal),
    who: u8,
    first: First,
    all: &[Does],
) -> Result<(), Fault> {
    let mut ledger = opened(rt.alloc(), who)?;
    act_all(rt, &mut ledger, first, all)
}
