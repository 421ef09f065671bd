//! Commands that decide a transfer: one lookup in the table, one look at the board, one decision.
ghost use Rattle.std.specs.Prelude.{◌≡◌, false, position};
ghost use Rattle.inst_journal.specs.Booked.{takes, booked};
ghost use Rattle.inst_journal.specs.Opened.{live_taken};
ghost use Rattle.inst_journal.specs.Reply.{reply_result};
ghost use Rattle.inst_slot.specs.Asking.{wish_for, request, Settles};
ghost use Rattle.inst_slot.specs.Book.{arrived_at};
ghost use Rattle.inst_ledger.specs.Right.{own_ids};
ghost use Rattle.inst_slot.specs.LawfulBoard.{IsLawfulBoard};
ghost use Rattle.inst_slot.specs.Spots.{rows_of, arrivals_of, AreSpots};
ghost use Rattle.inst_slot.specs.inner.Answering.{book_with_spots, decided_id, is_expiry};
ghost use Rattle.inst_slot.specs.inner.Answering.{pending_for, IsAsking};
ghost use Rattle.inst_slot.specs.inner.Answering.{GivesRequest};
ghost use Rattle.inst_slot.specs.Waiting.{IsRightSlot};

use crate::arrivals::{Spot, arrived_at};
use crate::booking::book;
use crate::finding::find;
use crate::waiting::Waiting;
use inst_base::{Fault, Ident};
use inst_board::{Board, Wish};
use inst_command::{Ask, Command, Place, Reply, State};
use inst_ledger::Ledger;
use inst_transfers::Found;

/// A decision that a command asks of the board: the transfer found, its place, and the wish.
#[derive(Clone, Copy)]
pub(crate) struct Request {
    pub(crate) found: Found,
    pub(crate) place: Place,
    pub(crate) wish: Wish,
}

/// Returns the decision that a command asks for; `None` if it decides no transfer.
pub(crate) fn request_of(ledger: &Ledger, arrivals: &[Spot], command: &Command) -> Option<Request>
    requires spots { AreSpots (rows_of ledger.now.book.who ledger.now.book.events) arrivals.now }
    ensures { GivesRequest ledger.now
        (request (book_with_spots ledger.now.book arrivals.now) command.now)
        (decided_id command.now) result }
{
    match command {
        Command::Confirm { from, id } => answer_to(ledger, arrivals, *from, id, Wish::Accept),
        Command::Reject { from, id, reason } => answer_to(
            ledger,
            arrivals,
            *from,
            id,
            Wish::Reject(*reason),
        ),
        Command::Investigate { id } => question_about(ledger, id),
        _ => None,
    }
}

/// Returns the request for a forwarded transfer without a booked outcome.
fn answer_to(
    ledger: &Ledger,
    arrivals: &[Spot],
    from: u8,
    id: &Ident,
    wish: Wish,
) -> Option<Request>
    requires spots { AreSpots (rows_of ledger.now.book.who ledger.now.book.events) arrivals.now }
    requires answers { is_expiry wish ≡ false }
    ensures { GivesRequest ledger.now
        (wish_for wish from (booked from id.now ledger.now.book.events)
        (arrived_at from id.now
        (arrivals_of (rows_of ledger.now.book.who ledger.now.book.events) arrivals.now))) id.now
        result }
{
    let found = ledger.find(from, id)?;
    if found.transfer.outcome.is_some() {
        return None;
    }
    let index = arrived_at(ledger, arrivals, &found)?;
    let place = Place { owner: from, index };
    Some(Request { found, place, wish })
}

/// Returns the request for an own transfer without a booked outcome: it may expire.
fn question_about(ledger: &Ledger, id: &Ident) -> Option<Request>
    ensures { GivesRequest ledger.now
        (wish_for Wish.Expire ledger.now.book.who
        (booked ledger.now.book.who id.now ledger.now.book.events)
        (position (takes id.now) (live_taken ledger.now.book.who ledger.now.book.events))) id.now
        result }
{
    let owner = ledger.who();
    let found = ledger.find(owner, id)?;
    if found.transfer.outcome.is_some() {
        return None;
    }
    let index = ledger.found_index(&found)?;
    let place = Place { owner, index };
    let wish = Wish::Expire;
    Some(Request { found, place, wish })
}

/// Returns the reply if the transfer stays pending. A confirmation is then too late.
fn pending(wish: &Wish, from: u8, id: Ident) -> Result<Reply, Fault>
    ensures { result ≡ reply_result (pending_for wish.now from id) }
{
    match wish {
        Wish::Accept => Err(Fault::Expired),
        Wish::Reject(_) | Wish::Expire => Ok(Reply::State {
            from,
            id,
            state: State::Pending,
        }),
    }
}

/// Answers a command that decides the transfer of a request, without hashing.
///
/// All capacity is reserved before the board decides; nothing fails after the decision.
pub(crate) fn settle<B: Board>(
    ledger: &mut Ledger,
    waiting: &mut Waiting,
    board: &mut B,
    ask: &Ask,
    asked: &Request,
    arrivals: &[Spot],
) -> Result<Reply, Fault>
    requires lawful { IsLawfulBoard B.settings B.knows B.has_role board.old
        (book_with_spots ledger.old.book arrivals.now) }
    requires asking { IsAsking ledger.old
        (request (book_with_spots ledger.old.book arrivals.now) ask.now.command)
        (decided_id ask.now.command)
        asked.now }
    requires spots { AreSpots (rows_of ledger.old.book.who ledger.old.book.events) arrivals.now }
    requires right { IsRightSlot ledger.old.book.settings ledger.old.book.who ledger.old.book.events
        (own_ids ledger.old.book.who ledger.old.book.events) waiting.old }
    ensures settles { Settles (B.settings board.old).margin B.knows B.has_role B.stood B.stays
        board.old
        (book_with_spots ledger.old.book arrivals.now) ask.now asked.now.place asked.now.wish result
        board.new (book_with_spots ledger.new.book arrivals.now) }
    ensures right { IsRightSlot ledger.new.book.settings ledger.new.book.who ledger.new.book.events
        (own_ids ledger.new.book.who ledger.new.book.events) waiting.new }
    ensures spots { AreSpots (rows_of ledger.new.book.who ledger.new.book.events) arrivals.now }
    ensures stays { B.stays board.old board.new }
{
    let margin = ledger.settings().margin();
    let Found { from, id, .. } = asked.found;
    let decided = find(ledger, board, margin, asked.place, asked.wish, ask.at)?;
    let Some(outcome) = &decided else {
        return pending(&asked.wish, from, id);
    };
    book(ledger, waiting, &asked.found, asked.place.index, outcome)?;
    let state = State::Decided(*outcome);
    Ok(Reply::State { from, id, state })
}
