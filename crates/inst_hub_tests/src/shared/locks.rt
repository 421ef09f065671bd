//! A take returns, at once or when the lock is given back, with the value that was left, and
//! nothing is lost if two threads take one lock in turn.
ghost use Rattle.std.specs.Prelude.{◌≡◌, ℕ, ◌<◌, IfOk, List};
ghost use mathlib.Core.List.{IsPrefix};
ghost use Rattle.inst_row.specs.Seated.{IsOn, IsFree, Has, HasAll, view_of};
ghost use Rattle.inst_row.specs.Row.{row_id, key_of, size};

use crate::comparing::same;
use inst_row::{Lawful, LockRow, RowSeat};
use std::alloc::{AllocError, Global};
use std::process::Abort;
use std::sync::Wait;
use std::test::Fail;
use std::thread::{Threads, join, sleep};
use std::time::{Clock, Duration};

/// The value behind a lock: a book of guests.
#[derive(Drop)]
struct Book {
    lock: u64,
    guests: Vec<u64>,
}

/// The law: a book names its lock, and its history is its guests.
struct GuestLaw;

impl Lawful<Book, u64, ()> for GuestLaw {
    ghost use Rattle.std.specs.Prelude.{◌≡◌};

    ghost law = { λ _ p x. x.lock ≡ p };

    ghost history = { λ x. x.guests.items };
}

/// How often each guest comes. With a quarter of this, one thread was done before the other began.
const VISITS: u64 = 20_000;

type Row = LockRow<Book, u64, (), GuestLaw>;

type Caller = RowSeat<Book, u64, ()>;

fn empty_book(alloc: Global, lock: u64) -> Book
    ensures { result.lock ≡ lock }
{
    Book {
        lock,
        guests: Vec::new(alloc),
    }
}

/// Opens a row of two books without guests.
fn open_two(alloc: Global) -> Result<(Row, Caller), AllocError>
    ensures { IfOk result (λ r. (size r.0 ≡ 2) × IsOn (row_id r.0) (key_of r.0) r.1 × HasAll r.1) }
{
    let mut books = Vec::new(alloc);
    books.reserve(2)?;
    books.push_reserved(Some(empty_book(alloc, 0)));
    books.push_reserved(Some(empty_book(alloc, 1)));
    LockRow::open(alloc, books, &())
}

/// Writes the guest into the book behind the lock. Returns how many entries were there before;
/// `None` if allocation fails.
fn visit<R: Wait>(rt: &R, row: &Row, seat: &mut Caller, lock: usize, guest: u64) -> Option<usize>
    requires on { IsOn (row_id row.now) (key_of row.now) seat.old }
    requires lock { lock < size row.now }
    requires free { IsFree seat.old }
    ensures on { IsOn (row_id row.now) (key_of row.now) seat.new }
    ensures free { IsFree seat.new }
    ensures parts { (view_of seat.new).parts ≡ (view_of seat.old).parts }
{
    let mut book = row.take(rt, seat, lock);
    let before = book.guests.len();
    let written = book.guests.push(guest);
    row.give(seat, lock, book);
    written.is_ok().then_some(before)
}

/// Writes the guest again and again. Returns `true` if no allocation failed.
fn visit_often<R: Wait>(
    rt: &R,
    row: &Row,
    mut seat: Caller,
    lock: usize,
    guest: u64,
) -> (Caller, bool)
    requires on { IsOn (row_id row.now) (key_of row.now) seat }
    requires lock { lock < size row.now }
    requires free { IsFree seat }
    ensures on { IsOn (row_id row.now) (key_of row.now) result.0 }
    ensures free { IsFree result.0 }
    ensures parts { (view_of result.0).parts ≡ (view_of seat).parts }
{
    let mut written = true;
    for _ in 0..VISITS {
        written &= visit(rt, row, &mut seat, lock, guest).is_some();
    }
    (seat, written)
}

/// Lets two guests write into the second book at the same time.
fn visit_together<R: Threads + Wait + Sync>(
    rt: &R,
    row: &Row,
    one: Caller,
    two: Caller,
) -> ((Caller, bool), (Caller, bool))
    requires on { IsOn (row_id row.now) (key_of row.now) one
        × IsOn (row_id row.now) (key_of row.now) two }
    requires two { 1 < size row.now }
    requires free { IsFree one × IsFree two }
    ensures on { IsOn (row_id row.now) (key_of row.now) result.0.0
        × IsOn (row_id row.now) (key_of row.now) result.1.0 }
    ensures free { IsFree result.0.0 × IsFree result.1.0 }
    ensures parts { ((view_of result.0.0).parts ≡ (view_of one).parts)
        × ((view_of result.1.0).parts ≡ (view_of two).parts) }
{
    join(
        rt,
        move || visit_often(rt, row, one, 1, 1),
        move || visit_often(rt, row, two, 1, 2),
    )
}

/// Keeps the lock for a while, then gives it back.
fn give_late<R: Clock>(rt: &R, row: &Row, mut seat: Caller, lock: usize, book: Book) -> Caller
    requires on { IsOn (row_id row.now) (key_of row.now) seat }
    requires lock { lock < size row.now }
    requires has { (found : List ℕ) × Has lock found seat × IsPrefix found book.guests.items }
    requires law { book.lock ≡ lock }
{
    sleep(rt, Duration::from_millis(20));
    row.give(&mut seat, lock, book);
    seat
}

/// Lets two guests wait for the second book. Returns how many entries each finds.
fn wait_together<R: Threads + Wait + Sync>(
    rt: &R,
    row: &Row,
    mut two: Caller,
    mut three: Caller,
) -> (Option<usize>, Option<usize>)
    requires on { IsOn (row_id row.now) (key_of row.now) two
        × IsOn (row_id row.now) (key_of row.now) three }
    requires two { 1 < size row.now }
    requires free { IsFree two × IsFree three }
{
    join(
        rt,
        move || visit(rt, row, &mut two, 1, 2),
        move || visit(rt, row, &mut three, 1, 3),
    )
}

/// Holds the second book with the first guest while two others wait for it. Returns what these
/// find.
fn visit_in_turn<R: Threads + Wait + Clock + Sync>(
    rt: &R,
    row: &Row,
    mut one: Caller,
    two: Caller,
    three: Caller,
) -> (Option<usize>, Option<usize>)
    requires on { IsOn (row_id row.now) (key_of row.now) one
        × IsOn (row_id row.now) (key_of row.now) two
        × IsOn (row_id row.now) (key_of row.now) three }
    requires two { 1 < size row.now }
    requires free { IsFree one × IsFree two × IsFree three }
{
    let book = row.take(rt, &mut one, 1);
    let (_one, found) = join(
        rt,
        move || give_late(rt, row, one, 1, book),
        move || -> (Option<usize>, Option<usize>)
            requires on { IsOn (row_id row.now) (key_of row.now) two
                × IsOn (row_id row.now) (key_of row.now) three }
            requires two { 1 < size row.now }
            requires free { IsFree two × IsFree three }
        { wait_together(rt, row, two, three) },
    );
    found
}

/// Returns the books of a row that ends.
fn books(row: Row, seat: Caller) -> (Book, Book)
    requires on { IsOn (row_id row) (key_of row) seat }
    requires all { HasAll seat }
    requires two { size row ≡ 2 }
{
    let mut ended = row.take_apart(seat);
    let first = ended.take(0);
    let second = ended.take(1);
    ended.free();
    (first, second)
}

/// Returns how many entries two guests find in the second book, and one in the first.
fn visit_thrice<R: Wait>(rt: &R, row: &Row, seat: &mut Caller) -> [Option<usize>; 3]
    requires on { IsOn (row_id row.now) (key_of row.now) seat.old }
    requires two { 1 < size row.now }
    requires free { IsFree seat.old }
    ensures on { IsOn (row_id row.now) (key_of row.now) seat.new }
    ensures free { IsFree seat.new }
    ensures parts { (view_of seat.new).parts ≡ (view_of seat.old).parts }
{
    [
        visit(rt, row, seat, 1, 5),
        visit(rt, row, seat, 1, 6),
        visit(rt, row, seat, 0, 7),
    ]
}

/// Compares that each guest found those who came to that book before, and is listed after them.
fn stand_where_they_came(rt: &impl Abort, found: [Option<usize>; 3], first: &Book, second: &Book) {
    same(
        rt,
        (found, first.guests.as_slice(), second.guests.as_slice()),
        (
            [Some(0), Some(1), Some(0)],
            [7].as_slice(),
            [5, 6].as_slice(),
        ),
    );
}

/// A lock has the value that was left there, whatever happens at the other lock.
#[test]
fn a_lock_has_what_was_left_behind_it(rt: HostRuntime) -> Result<(), Fail> {
    let (row, mut seat) = open_two(rt.alloc())?;
    let found = visit_thrice(&rt, &row, &mut seat);
    let (first, second) = books(row, seat);
    stand_where_they_came(&rt, found, &first, &second);
    Ok(())
}

/// Counts the entries of the guest in the book.
fn visits(book: &Book, guest: u64) -> u64 {
    book.guests.iter().filter(|x| **x == guest).count() as u64
}

/// Compares that both guests could always write, that the first book is empty, and that the second
/// has each guest as often as it came.
fn have_all_visits(rt: &impl Abort, written: (bool, bool), first: &Book, second: &Book) {
    let found = (first.guests.len(), visits(second, 1), visits(second, 2));
    same(rt, (written, found), ((true, true), (0, VISITS, VISITS)));
}

/// Two threads that write into one value lose no entry.
#[test]
fn two_threads_lose_nothing(rt: HostRuntime) -> Result<(), Fail> {
    let (row, mut one) = open_two(rt.alloc())?;
    let two = row.split(&mut one);
    let ((mut one, written), (two, also)) = visit_together(&rt, &row, one, two);
    row.join(&mut one, two);
    let (first, second) = books(row, one);
    have_all_visits(&rt, (written, also), &first, &second);
    Ok(())
}

/// Threads that wait for a lock get it once it is given back.
#[test]
fn who_waits_gets_on(rt: HostRuntime) -> Result<(), Fail> {
    let (row, mut one) = open_two(rt.alloc())?;
    let two = row.split(&mut one);
    let three = row.split(&mut one);
    let found = visit_in_turn(&rt, &row, one, two, three);
    assert!(rt; matches!(found, (Some(0), Some(1)) | (Some(1), Some(0))));
    Ok(())
}
