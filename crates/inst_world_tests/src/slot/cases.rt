//! Cases: acts, one after another, their answers, and the histories.
use crate::ledger::asked::{ShortAsk, command};
use crate::slot::answers::{ExpectedResult, tells};
use crate::slot::histories::{ShortEvent, are_copied, copied, keeps};
use inst_base::{Fault, Ident, Moment, mention};
use inst_command::{Answer, Place};
use inst_fixtures::{Act, Slots};
use std::alloc::Global;
use std::process::Abort;
use std::test::Fail;

/// An act, as short texts and plain numbers: a command, a step at a place, or a question to the
/// slot.
#[derive(Clone, Copy)]
pub(crate) enum Does {
    Fund(&'static str, u64),
    Submit(&'static str, u8, u64, u64),
    Confirm(u8, &'static str),
    Reject(u8, &'static str, &'static str),
    Investigate(&'static str),
    Fetch(u32),
    Position,
    Statement,
    Deliver(u8, u16),
    Learn(u8, u16),
    Adopt(u8, u16),
    Expire(u16),
    /// The slot has a place of its own transfer.
    TellPlace(&'static str),
    /// The slot has this beneficiary of its own transfer.
    Pays(&'static str, Option<u8>),
    /// Among the pending transfers the second pair follows the first.
    DueAfter(Option<(u64, u16)>, Option<(u64, u16)>),
    /// The first arrival from this position on without a booked outcome is this one: its position,
    /// and the index of its place of the first participant.
    UnbookedFrom(usize, Option<(usize, u16)>),
    /// The places of this many carried transfers aren't found yet.
    Misses(usize),
}

/// The participant, its act, the clock reading, and the expected answer.
pub(crate) type Row = (u8, Does, u64, ExpectedResult);

/// The first participant has 50,000 cents, and submits T1 of 20,000 cents to the second.
const SUBMITTED: &[Row] = &[
    (0, Does::Fund("F1", 50_000), 0, ExpectedResult::Done),
    (
        0,
        Does::Submit("T1", 1, 20_000, 1000),
        1000,
        ExpectedResult::Taken(11_000),
    ),
];

/// Acts at a hub with this margin, and the histories afterwards.
pub(crate) struct Case {
    pub(crate) margin: u32,
    pub(crate) rows: &'static [Row],
    pub(crate) histories: [&'static [ShortEvent]; 3],
}

/// Returns the command, or `None` for a step or a question.
fn asks(does: &Does) -> Option<ShortAsk> {
    Some(match *does {
        Does::Fund(reference, cents) => ShortAsk::Fund(reference, cents),
        Does::Submit(id, to, cents, stamp) => ShortAsk::Submit(id, to, cents, stamp),
        Does::Confirm(from, id) => ShortAsk::Confirm(from, id),
        Does::Reject(from, id, reason) => ShortAsk::Reject(from, id, reason),
        Does::Investigate(id) => ShortAsk::Investigate(id),
        Does::Fetch(max) => ShortAsk::Fetch(max),
        Does::Position => ShortAsk::Position,
        Does::Statement => ShortAsk::Statement(0, 10),
        _ => return None,
    })
}

/// Returns the step, or `None` for a command or a question.
fn step(does: &Does) -> Option<Act> {
    match *does {
        Does::Deliver(owner, index) => Some(Act::Deliver(Place { owner, index })),
        Does::Learn(owner, index) => Some(Act::Learn(Place { owner, index })),
        Does::Adopt(owner, index) => Some(Act::Adopt(Place { owner, index })),
        Does::Expire(index) => Some(Act::Expire(index)),
        _ => None,
    }
}

/// Returns the command or step, or `None` for a question.
fn act(does: &Does) -> Result<Option<Act>, Fault> {
    match asks(does) {
        Some(asks) => Ok(Some(Act::Ask(command(&asks)?))),
        None => Ok(step(does)),
    }
}

/// Returns the pair of a deadline and an index.
fn pair(pair: Option<(u64, u16)>) -> Result<Option<(Moment, u16)>, Fault> {
    match pair {
        None => Ok(None),
        Some((deadline, index)) => Ok(Some((Moment::new(0, deadline)?, index))),
    }
}

/// Returns the position of an arrival and its place, which is one of the first participant's.
fn arrival(arrival: Option<(usize, u16)>) -> Option<(usize, Place)> {
    let (position, index) = arrival?;
    Some((position, Place { owner: 0, index }))
}

/// Returns `true` if the slot confirms the question.
fn question(slots: &Slots, who: u8, does: &Does) -> Result<bool, Fault> {
    let Some(slot) = slots.slot(who) else {
        return Err(Fault::BadField);
    };
    if slot.who() != who || slot.settings().participants() != 3 {
        return Err(Fault::BadSettings);
    }
    match *does {
        Does::TellPlace(id) => Ok(slot.place_of(who, &Ident::new(id)?).is_some()),
        Does::Pays(id, to) => Ok(slot.beneficiary_of(&Ident::new(id)?) == to),
        Does::DueAfter(before, next) => Ok(slot.due_after(pair(before)?) == pair(next)?),
        Does::UnbookedFrom(position, next) => { Ok(slot.unbooked_from(position) == arrival(next)) }
        Does::Misses(count) => Ok(slot.unfound() == count),
        _ => Err(Fault::BadField),
    }
}

/// Returns the answer to the act. An allocation may be made to fail: after `Memory` the history
/// must be as before, and the act is repeated.
fn answer(
    rt: &impl Abort,
    slots: &mut Slots,
    who: u8,
    act: &Act,
    at: Moment,
) -> Result<Answer, Fault> {
    let before = copied(slots.history(who));
    let answer = slots.act(who, act, at);
    if !matches!(&answer, Err(Fault::Memory)) {
        return answer;
    }
    assert!(rt; are_copied(slots.history(who), &before));
    slots.act(who, act, at)
}

/// Returns `true` if the row's answer is the expected one.
fn is_answered(rt: &impl Abort, slots: &mut Slots, row: &Row) -> Result<bool, Fault> {
    let (who, does, at, told) = row;
    let answer = match act(does)? {
        Some(act) => answer(rt, slots, *who, &act, Moment::new(0, *at)?),
        None => Ok(Answer::New(question(slots, *who, does)?)),
    };
    Ok(tells(&answer, told))
}

fn answers(rt: &impl Abort, slots: &mut Slots, rows: &[Row]) -> Result<(), Fail> {
    for (nth, row) in rows.iter().enumerate() {
        assert!(rt; is_answered(rt, slots, row)?, "row {nth}");
    }
    Ok(())
}

/// Checks the answers of the case, and the histories afterwards.
fn follows(rt: &impl Abort, slots: &mut Slots, case: &Case) -> Result<(), Fail> {
    answers(rt, slots, case.rows)?;
    for (who, history) in case.histories.iter().enumerate() {
        keeps(rt, slots.history(who as u8), history);
    }
    Ok(())
}

/// Opens a hub for the first time. After `Memory` it is opened again.
fn opened(alloc: Global, margin: u32) -> Result<Slots, Fault> {
    match Slots::open(alloc, margin) {
        Err(Fault::Memory) => Slots::open(alloc, margin),
        opened => opened,
    }
}

/// Opens a hub from the books of this one, likewise.
fn opened_again(alloc: Global, books: &Slots, is_first_new: bool) -> Result<Slots, Fault> {
    match books.open_again(alloc, is_first_new) {
        Err(Fault::Memory) => books.open_again(alloc, is_first_new),
        opened => opened,
    }
}

/// Submits T1, and then checks the case.
fn submits_and_follows(rt: &impl Abort, slots: &mut Slots, case: &Case) -> Result<(), Fail> {
    answers(rt, slots, SUBMITTED)?;
    follows(rt, slots, case)
}

/// Returns a new hub on which T1 was submitted and the case was checked.
fn followed(rt: &(impl Abort + AllocGlobal), case: &Case) -> Result<Slots, Fail> {
    mention::<ShortEvent>();
    let mut slots = opened(rt.alloc(), case.margin)?;
    submits_and_follows(rt, &mut slots, case)?;
    Ok(slots)
}

/// Checks the case at a new hub after T1 was submitted.
pub(crate) fn comes(rt: &(impl Abort + AllocGlobal), case: &Case) -> Result<(), Fail> {
    followed(rt, case)?;
    Ok(())
}

/// Checks the case at a hub that opens from the books of this one.
fn follows_again(
    rt: &(impl Abort + AllocGlobal),
    books: &Slots,
    is_first_new: bool,
    case: &Case,
) -> Result<(), Fail> {
    let mut slots = opened_again(rt.alloc(), books, is_first_new)?;
    follows(rt, &mut slots, case)
}

/// Checks the case at a hub that opens from the books of one on which the case `before` was
/// checked.
pub(crate) fn comes_again(
    rt: &(impl Abort + AllocGlobal),
    before: &Case,
    is_first_new: bool,
    case: &Case,
) -> Result<(), Fail> {
    let books = followed(rt, before)?;
    follows_again(rt, &books, is_first_new, case)
}
