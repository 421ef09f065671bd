//! Ten openings, each from the books of the one before, in which threads submit, confirm and sweep.
use crate::comparing::same;
use crate::drill::kept::{TransferCounts, funded, kept_of};
use inst_base::Fault;
use inst_close::Books;
use inst_drill::{DrillError, DrillRequest, drill};
use inst_fixtures::{A, B, settings_with};
use inst_hub::Ungated;
use std::alloc::Global;
use std::process::Abort;
use std::sync::Wait;
use std::thread::Threads;

/// How many transfers an opening has.
const TRANSFERS: u16 = 20;

/// How many openings there are.
const OPENINGS: u8 = 10;

/// Returns the four lines of all openings.
fn expected(alloc: Global) -> Result<Vec<u8>, Fault> {
    let mut lines = Vec::new(alloc);
    for opening in 1..=u64::from(OPENINGS) {
        let net = 2_000 * opening;
        let text = format!(in alloc;
            "jobs 40 answered 40\ndecided 20\ndisagree 0\nnet {net} sum {net}\n"
        )?;
        lines.extend_from_slice(text.as_bytes())?;
    }
    Ok(lines)
}

/// Returns `true` if the transfer is accepted; `None` unless both sides have it once, over 100
/// cents, with one outcome and the same.
fn is_accepted(originator: TransferCounts, beneficiary: TransferCounts) -> Option<bool> {
    let accepted = originator.accepted;
    let expected = TransferCounts {
        taken: 1,
        forwarded: 0,
        cents: 100,
        accepted,
        timed_out: 1u32.saturating_sub(accepted),
    };
    let forwarded = TransferCounts {
        taken: 0,
        forwarded: 1,
        ..expected
    };
    if accepted > 1 || originator != expected || beneficiary != forwarded {
        return None;
    }
    Some(accepted == 1)
}

/// Counts the accepted transfers of an opening; `None` if the books of one are wrong.
fn accepted_in(alloc: Global, books: &Books, opening: u32) -> Result<Option<u64>, Fault> {
    let mut accepted = 0u64;
    if books.settings().participants() < 2 {
        return Ok(None);
    }
    let before = u32::from(TRANSFERS).saturating_mul(opening.saturating_sub(1));
    for index in 1..=u32::from(TRANSFERS) {
        let number = before.saturating_add(index);
        let originator = kept_of(alloc, books.journal(A), number)?;
        let beneficiary = kept_of(alloc, books.journal(B), number)?;
        match is_accepted(originator, beneficiary) {
            Some(true) => accepted = accepted.saturating_add(1),
            Some(false) => {}
            None => return Ok(None),
        }
    }
    Ok(Some(accepted))
}

/// Counts the accepted transfers of all openings, and returns their lines; `None` if the books of
/// one transfer are wrong.
fn accepted_in_all(alloc: Global, books: &Books) -> Result<Option<(u64, Vec<u8>)>, Fault> {
    let mut all = 0u64;
    let mut lines = Vec::new(alloc);
    for opening in 1..=u32::from(OPENINGS) {
        let Some(accepted) = accepted_in(alloc, books, opening)? else {
            return Ok(None);
        };
        let timed_out = u64::from(TRANSFERS).saturating_sub(accepted);
        let line = format!(in alloc; "accepted {accepted} timed_out {timed_out}\n")?;
        lines.extend_from_slice(line.as_bytes())?;
        all = all.saturating_add(accepted);
    }
    Ok(Some((all, lines)))
}

/// Returns `true` if both books have the right openings, funding and positions, given what was
/// paid.
fn are_of(books: &Books, paid: u64) -> bool {
    if books.settings().participants() < 2 {
        return false;
    }
    let (first, second) = (books.journal(A), books.journal(B));
    funded(first) == (9, 20_000)
        && funded(second) == (9, 0)
        && first.position() == u128::from(20_000u64.saturating_sub(paid))
        && second.position() == u128::from(paid)
}

/// Runs the drill, and returns the books of its last opening.
fn drilled<R: Threads + Wait + Sync>(
    rt: &R,
    alloc: Global,
    written: &mut Vec<u8>,
    progress: &mut Vec<u8>,
) -> Result<Books, DrillError> {
    let request = DrillRequest {
        settings: settings_with(alloc, TRANSFERS, 0)?,
        transfers: TRANSFERS,
        openings: OPENINGS,
        gate: &Ungated,
        is_watched: false,
    };
    let left = drill(rt, alloc, &request, written, progress)?;
    Ok(left.books)
}

/// Compares what was written, and the books with what was paid.
fn lose_nothing(
    rt: &impl Abort,
    alloc: Global,
    books: &Books,
    written: &[u8],
    paid: u64,
) -> Result<(), Fault> {
    same(rt, written, expected(alloc)?.as_slice());
    same(
        rt,
        (are_of(books, paid), books.net(), books.sum()),
        (true, 20_000, 20_000),
    );
    Ok(())
}

/// Ten openings by threads lose no transfer, no outcome and no cent; some transfers time out.
#[test]
fn ten_openings_by_threads_lose_nothing(rt: HostRuntime) -> Result<(), DrillError> {
    let alloc = rt.alloc();
    let mut written = Vec::new(alloc);
    let mut progress = Vec::new(alloc);
    let books = drilled(&rt, alloc, &mut written, &mut progress)?;
    let Some((accepted, lines)) = accepted_in_all(alloc, &books)? else {
        return Err(DrillError::Fault(Fault::UnknownTransfer));
    };
    let paid = accepted.saturating_mul(100);
    lose_nothing(&rt, alloc, &books, written.as_slice(), paid)?;
    same(&rt, progress.as_slice(), lines.as_slice());
    // Half of each opening's transfers are confirmed before its sweep begins.
    let raced = accepted >= 100 && accepted < 200;
    assert_eq!(rt; raced, true);
    Ok(())
}
