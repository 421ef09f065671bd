//! Booking the outcome of a transfer that was found.
ghost use Rattle.std.specs.Prelude.{◌≡◌, ◌<◌, OnOk, OnErr, IsOk};
ghost use Rattle.inst_journal.specs.declared.event.Event.{Event};
ghost use Rattle.inst_journal.specs.Sound.{Fits};
ghost use Rattle.inst_ledger.specs.Book.{ledger_with_event};
ghost use Rattle.inst_transfers.specs.Held.{IsFound};
ghost use Rattle.inst_slot.specs.inner.Answering.{IsOwnAt};
ghost use Rattle.inst_slot.specs.Book.{place_at};
ghost use Rattle.inst_ledger.specs.Right.{own_ids};
ghost use Rattle.inst_slot.specs.Waiting.{IsRightSlot};

use crate::waiting::Waiting;
use inst_command::Outcome;
use inst_ledger::Ledger;
use inst_transfers::Found;
use std::alloc::AllocError;

/// Books the outcome of the transfer found, whose place has this index. An own transfer's deadline
/// is removed from those that wait. Doesn't hash.
pub(crate) fn book(
    ledger: &mut Ledger,
    waiting: &mut Waiting,
    found: &Found,
    index: u16,
    outcome: &Outcome,
) -> Result<(), AllocError>
    requires there { IsFound ledger.old.table found.now }
    requires own { found.now.from ≡ ledger.old.book.who →
        IsOwnAt ledger.old.book found.now.id (place_at found.now.from index) }
    requires fits { Fits ledger.old.book.settings ledger.old.book.who ledger.old.book.events
        (Event.Booked found.now.from found.now.id outcome.now) }
    requires right { IsRightSlot ledger.old.book.settings ledger.old.book.who ledger.old.book.events
        (own_ids ledger.old.book.who ledger.old.book.events) waiting.old }
    ensures ok { OnOk result (ledger.new.book
        ≡ ledger_with_event ledger.old.book
        (Event.Booked found.now.from found.now.id outcome.now)) }
    ensures err { OnErr result (ledger.new.book ≡ ledger.old.book) }
    ensures right { IsRightSlot ledger.new.book.settings ledger.new.book.who ledger.new.book.events
        (own_ids ledger.new.book.who ledger.new.book.events) waiting.new }
    ensures room { 0 < ledger.old.room → IsOk result }
{
    ledger.keep_found(found, outcome)?;
    if found.from == ledger.who() {
        waiting.take_out(index);
    }
    Ok(())
}
