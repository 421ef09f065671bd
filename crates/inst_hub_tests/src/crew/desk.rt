//! The order of jobs, and full and empty desks.
ghost use Rattle.std.specs.Prelude.{◌≡◌, IfOk};
ghost use Rattle.inst_desk.specs.Desk.{IsHandOf, hand_parts};
ghost use Rattle.inst_desk.specs.declared.desk.opening.TheConstants.{MOST_HANDS};

use inst_base::{Fault, Moment};
use inst_command::{Ask, Command, Query};
use inst_desk::{Desk, Hand, Job, Tally};
use std::alloc::Global;
use std::sync::Wait;

fn job(number: u32) -> Result<Job, Fault> {
    let ask = Ask {
        who: 0,
        command: Command::Query(Query::Position),
        at: Moment::new(0, 1_000)?,
    };
    Ok(Job { number, ask })
}

fn number_of(job: Option<Job>) -> Option<u32> {
    match job {
        Some(job) => Some(job.number),
        None => None,
    }
}

/// Opens a desk for two jobs, with one hand.
fn open(alloc: Global) -> Result<(Desk, Hand), Fault>
    ensures { IfOk result (λ r. IsHandOf r.0 r.1 × (hand_parts r.1 ≡ MOST_HANDS)) }
{
    let (desk, mut hands) = Desk::open(alloc, 2, 1)?;
    let Some(hand) = hands.pop() else {
        return Err(Fault::BadSettings);
    };
    Ok((desk, hand))
}

/// Puts three jobs, and returns the numbers of those that come back.
fn put_three<R: Wait>(rt: &R, desk: &Desk, hand: &mut Hand) -> Result<[Option<u32>; 3], Fault>
    requires { IsHandOf desk.now hand.old }
    ensures of { IfOk result (λ r. IsHandOf desk.now hand.new) }
    ensures parts { IfOk result (λ r. hand_parts hand.new ≡ hand_parts hand.old) }
{
    let first = desk.put(rt, hand, job(1)?).err();
    let second = desk.put(rt, hand, job(2)?).err();
    let third = desk.put(rt, hand, job(3)?).err();
    Ok([number_of(first), number_of(second), number_of(third)])
}

/// Takes three times, and returns the numbers of the jobs.
fn take_three<R: Wait>(rt: &R, desk: &Desk, hand: &mut Hand) -> [Option<u32>; 3]
    requires { IsHandOf desk.now hand.old }
    ensures of { IsHandOf desk.now hand.new }
    ensures parts { hand_parts hand.new ≡ hand_parts hand.old }
{
    [
        number_of(desk.take(rt, hand)),
        number_of(desk.take(rt, hand)),
        number_of(desk.take(rt, hand)),
    ]
}

/// How many jobs were put, taken and left, and the number of the first that is left.
type Ending = (u64, u64, usize, Option<u32>);

fn numbers(tally: &Tally) -> Ending {
    let first = match tally.left.first() {
        Some(job) => Some(job.number),
        None => None,
    };
    (tally.put, tally.taken, tally.left.len(), first)
}

/// Ends a desk with its only hand.
fn end<R: Wait>(rt: &R, alloc: Global, desk: Desk, hand: Hand) -> Result<Ending, Fault>
    requires { IsHandOf desk hand × (hand_parts hand ≡ MOST_HANDS) }
{
    let mut hands = Vec::new(alloc);
    hands.push(hand)?;
    Ok(numbers(&desk.finish(rt, hands)))
}

/// A desk for two jobs returns the third, and the jobs are taken in order.
#[test]
fn desk_of_two(rt: HostRuntime) -> Result<(), Fault> {
    let (desk, mut hand) = open(rt.alloc())?;
    let put = put_three(&rt, &desk, &mut hand)?;
    let taken = take_three(&rt, &desk, &mut hand);
    let numbers = end(&rt, rt.alloc(), desk, hand)?;
    assert_eq!(rt;
        (put, taken, numbers),
        (
            [None, None, Some(3)],
            [Some(1), Some(2), None],
            (2, 2, 0, None)
        )
    );
    Ok(())
}

/// A job that nobody took is left when the desk ends.
#[test]
fn desk_of_two_with_one_left(rt: HostRuntime) -> Result<(), Fault> {
    let (desk, mut hand) = open(rt.alloc())?;
    let put = put_three(&rt, &desk, &mut hand)?;
    let taken = number_of(desk.take(&rt, &mut hand));
    let numbers = end(&rt, rt.alloc(), desk, hand)?;
    assert_eq!(rt;
        (put, taken, numbers),
        ([None, None, Some(3)], Some(1), (2, 1, 1, Some(2)))
    );
    Ok(())
}

/// A desk opens only with 1 to 4,096 jobs and 1 to 16 hands.
#[test]
fn desks_that_do_not_open(rt: HostRuntime) {
    for (capacity, hands) in [(0, 1), (4_097, 1), (1, 0), (1, 17)] {
        let fault = Desk::open(rt.alloc(), capacity, hands).err();
        assert_eq!(rt; fault, Some(Fault::BadSettings));
    }
}

/// Opens a desk for two jobs, with two hands.
fn open_for_two(alloc: Global) -> Result<(Desk, Hand, Hand), Fault>
    ensures { IfOk result (λ r. IsHandOf r.0 r.1 × IsHandOf r.0 r.2) }
{
    let (desk, mut hands) = Desk::open(alloc, 2, 2)?;
    let Some(second) = hands.pop() else {
        return Err(Fault::BadSettings);
    };
    let Some(first) = hands.pop() else {
        return Err(Fault::BadSettings);
    };
    Ok((desk, first, second))
}

// One hand puts while the other takes: each job is taken, and a job comes back only from a full
// desk.
#[test]
fn desk_of_two_hands(rt: HostRuntime) -> Result<(), Fault> {
    let (desk, mut puts, mut takes) = open_for_two(rt.alloc())?;
    for _round in 0..3 {
        let put = put_three(&rt, &desk, &mut puts)?;
        let taken = take_three(&rt, &desk, &mut takes);
        assert_eq!(rt;
            (put, taken),
            ([None, None, Some(3)], [Some(1), Some(2), None])
        );
    }
    Ok(())
}
