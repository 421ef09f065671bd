//! Closes hubs with too little memory, growing from try to try. After a failure the rest closes
//! with the books of the row.
ghost use Rattle.inst_model.specs.Opening.{Opening};
ghost use Rattle.inst_close.specs.Closing.{IsOpenedSo};
ghost use Rattle.inst_loads.specs.Tellers.{AreAllOf};

use crate::flaw::Flaw;
use crate::scarce::asking::ask_and_compare;
use crate::scarce::want::{MOST_TRIES, Need, QUANTUM, Want};
use crate::told::RaceReply;
use inst_base::{Fault, Ident, mention};
use inst_close::{Books, CloseFault, close};
use inst_command::{Outcome, State, Step};
use inst_fixtures::{A, B, confirm, fund, settings, submit};
use inst_hub::{Hub, Teller, Ticket};
use std::alloc::Global;
use std::sync::Wait;

/// What happens to the transfer before its hub closes.
#[derive(Clone, Copy)]
enum Row {
    /// Its follow-up fails to allocate, and it stays pending.
    Dropped,
    /// It is confirmed.
    Confirmed,
}

impl Row {
    /// Returns the expected state of the transfer, and the expected positions of originator and
    /// beneficiary, in cents.
    fn expected(self) -> (State, u128, u128) {
        match self {
            Row::Dropped => (State::Pending, 50_000, 0),
            Row::Confirmed => (State::Decided(Outcome::Accepted), 30_000, 20_000),
        }
    }
}

/// Returns `true` if the books have what the row expects.
fn are_right(books: &Books, ticket: &Ticket, row: Row) -> bool {
    mention::<(State, Outcome)>();
    let Ok(id) = Ident::new("T1") else {
        return false;
    };
    let (told, first, second) = row.expected();
    books.settings().participants() >= 2
        && books.told(ticket) == told
        && books.journal(B).is_forwarded(A, &id)
        && books.journal(A).position() == first
        && books.journal(B).position() == second
        && books.net() == 50_000
        && books.sum() == 50_000
}

/// Asks by the teller with this index, and returns the ticket, if there is one.
fn ask_by<R: Wait>(
    rt: &R,
    hub: &Hub,
    tellers: &mut Vec<Teller>,
    index: usize,
    step: &Step,
    wanted: RaceReply,
) -> Result<Option<Ticket>, Flaw>
    requires { AreAllOf hub.now tellers.old.items }
    ensures { AreAllOf hub.now tellers.new.items }
{
    if index >= tellers.len() {
        return Err(Flaw::Refused(Fault::BadField));
    }
    ask_and_compare(rt, hub, &mut tellers[index], step, wanted)
}

/// Participant 0 submits the transfer with the least memory that suffices, so that the follow-up
/// fails to allocate.
fn submit_dropping<R: Wait>(
    rt: &R,
    hub: &Hub,
    want: &mut Want,
    tellers: &mut Vec<Teller>,
    step: &Step,
) -> Result<Option<Ticket>, Flaw>
    requires { AreAllOf hub.now tellers.old.items }
    ensures { AreAllOf hub.now tellers.new.items }
{
    for quanta in 0..MOST_TRIES {
        if !want.hoard.leave(quanta * QUANTUM) {
            return Err(Flaw::NoHoard);
        }
        let answer = ask_by(rt, hub, tellers, 0, step, RaceReply::Taken("T1", 11_000));
        want.hoard.give_back();
        match answer {
            Err(Flaw::Refused(Fault::Memory)) => {}
            answer => return answer,
        }
    }
    Err(Flaw::NeverServed)
}

/// Makes the row's calls, and returns the ticket of its transfer: participant 0 is funded and
/// submits the transfer; in one row participant 1 confirms it.
fn asked<R: Wait>(
    rt: &R,
    hub: &Hub,
    want: &mut Want,
    tellers: &mut Vec<Teller>,
    row: Row,
) -> Result<Option<Ticket>, Flaw>
    requires { AreAllOf hub.now tellers.old.items }
    ensures { AreAllOf hub.now tellers.new.items }
{
    let funding = fund(A, "F1", 50_000, 0)?;
    ask_by(rt, hub, tellers, 0, &funding, RaceReply::Done("F1"))?;
    let submission = submit(A, "T1", B, 20_000, 1_000, 1_000)?;
    match row {
        Row::Dropped => submit_dropping(rt, hub, want, tellers, &submission),
        Row::Confirmed => {
            let ticket = ask_by(
                rt,
                hub,
                tellers,
                0,
                &submission,
                RaceReply::Taken("T1", 11_000),
            )?;
            let confirmation = confirm(B, A, "T1", 2_000)?;
            ask_by(
                rt,
                hub,
                tellers,
                1,
                &confirmation,
                RaceReply::Accepted(A, "T1"),
            )?;
            Ok(ticket)
        }
    }
}

/// Returns `is_refused` if the books have what the row expects.
fn check_books(
    books: &Books,
    ticket: &Option<Ticket>,
    row: Row,
    is_refused: bool,
) -> Result<bool, Flaw> {
    match ticket {
        Some(ticket) if are_right(books, ticket, row) => Ok(is_refused),
        _ => Err(Flaw::OtherAnswer),
    }
}

/// Closes the hub with this much memory. If that fails to allocate, closes the rest with enough
/// memory and returns `true`. The books must have what the row expects.
fn close_in_want(
    alloc: Global,
    want: &mut Want,
    quanta: usize,
    hub: Hub,
    tellers: Vec<Teller>,
    ticket: &Option<Ticket>,
    row: Row,
) -> Result<bool, Flaw>
    requires all { AreAllOf hub tellers.items }
    requires opened { (O : Opening) × IsOpenedSo O hub }
{
    if !want.hoard.leave(quanta.saturating_mul(QUANTUM)) {
        return Err(Flaw::NoHoard);
    }
    let closed = close(alloc, hub, tellers);
    want.hoard.give_back();
    match closed {
        Ok(books) => check_books(&books, ticket, row, false),
        Err(CloseFault::Memory { rest }) => match rest.close(alloc) {
            Ok(books) => check_books(&books, ticket, row, true),
            Err(_) => Err(Flaw::Refused(Fault::Memory)),
        },
    }
}

/// Returns `true` if closing a new hub of the row failed to allocate. Checks the books in any case.
fn is_refused<R: Wait>(
    rt: &R,
    alloc: Global,
    want: &mut Want,
    quanta: usize,
    row: Row,
) -> Result<bool, Flaw> {
    let (hub, mut tellers) = Hub::open(alloc, settings(alloc)?, 2)?;
    let ticket = asked(rt, &hub, want, &mut tellers, row)?;
    close_in_want(alloc, want, quanta, hub, tellers, &ticket, row)
}

/// Closes a new hub of the row, each time with a little more memory, until the closing succeeds.
fn close_row<R: Wait>(rt: &R, alloc: Global, want: &mut Want, row: Row) -> Result<(), Flaw> {
    for quanta in 0..MOST_TRIES {
        if !is_refused(rt, alloc, want, quanta, row)? {
            want.tries.count(Need::Takes, quanta);
            return Ok(());
        }
    }
    Err(Flaw::NeverServed)
}

/// Closes the hubs of both rows.
pub(crate) fn closings<R: Wait>(rt: &R, alloc: Global, want: &mut Want) -> Result<(), Flaw> {
    close_row(rt, alloc, want, Row::Dropped)?;
    close_row(rt, alloc, want, Row::Confirmed)
}
