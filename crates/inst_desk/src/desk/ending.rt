//! Ending a desk, with all its hands.
ghost use Rattle.std.specs.Prelude.{◌≡◌, [], ◌++◌, vec_capacity};
ghost use Rattle.crossbeam_queue.specs.Passes.{view, IsPassOf, ruled_capacity};
ghost use Rattle.inst_desk.specs.Account.{EachAsOften, account, counted};
ghost use Rattle.inst_desk.specs.inner.Account.{together};
ghost use Rattle.inst_desk.specs.Desk.{account_of, AreAllHandsOf, put_together, taken_together};
ghost use Rattle.inst_desk.specs.declared.desk.opening.TheConstants.{MOST_HANDS};

use super::Desk;
use crate::hand::Hand;
use crate::job::Job;
use crate::rule::{DeskPass, Gathering, Queue, Taking};
use crate::tally::Tally;
use std::sync::Wait;

/// Joins two hands into one that did what both did.
fn join(queue: &Queue, hand: Hand, other: Hand) -> Hand
    requires { IsPassOf queue.now hand.seat × IsPassOf queue.now other.seat }
    ensures on { IsPassOf queue.now result.seat }
    ensures both { account_of result ≡ together (account_of hand) (account_of other) }
{
    let Hand {
        mut seat,
        puts,
        takes,
    } = hand;
    queue.absorb::<Gathering>(&mut seat, other.seat);
    Hand {
        seat,
        puts: puts.saturating_add(other.puts),
        takes: takes.saturating_add(other.takes),
    }
}

/// Takes all jobs off a desk whose only hand this is.
fn drain<R: Wait>(rt: &R, queue: &Queue, seat: DeskPass, left: &mut Vec<Job>)
    requires on { IsPassOf queue.now seat }
    requires all { (view seat).parts ≡ MOST_HANDS }
    requires empty { left.old.items ≡ [] }
    requires room { vec_capacity left.old ≡ ruled_capacity queue.now }
    ensures { EachAsOften (view seat).put ((view seat).taken ++ left.new.items) }
{
    let mut seat = seat;
    queue.len_as::<Taking, R>(rt, &mut seat);
    for _ in rt.forever() {
        let Some(job) = queue.pop_as::<Taking, R>(rt, &mut seat) else {
            return;
        };
        left.push_reserved(job);
    }
    unreachable!()
}

impl Desk {
    /// Joins all hands into one that did what all these did.
    fn gather(&self, hands: Vec<Hand>) -> Hand
        requires { AreAllHandsOf self.now hands.items }
        ensures on { IsPassOf self.now.queue result.seat }
        ensures all { account_of result
            ≡ account MOST_HANDS (put_together hands.items) (taken_together hands.items) }
    {
        let mut hands = hands.into_iter();
        let Some(first) = hands.next() else {
            unreachable!()
        };
        let mut whole = first;
        for hand in hands {
            whole = join(&self.queue, whole, hand);
        }
        whole
    }

    /// Ends the desk, given all its hands, and returns the counts and the jobs that are left.
    ///
    /// Each job that was put was taken or is left, as often as it was put. May block; doesn't
    /// allocate.
    pub fn finish<R: Wait>(self, rt: &R, hands: Vec<Hand>) -> Tally
        requires { AreAllHandsOf self hands.items }
        ensures jobs { EachAsOften (put_together hands.items) (taken_together hands.items
            ++ result.left.items) }
        ensures put { result.put ≡ counted (put_together hands.items) }
        ensures taken { result.taken ≡ counted (taken_together hands.items) }
    {
        let Hand { seat, puts, takes } = self.gather(hands);
        let Desk { queue, mut left } = self;
        drain(rt, &queue, seat, &mut left);
        Tally {
            put: puts,
            taken: takes,
            left,
        }
    }
}
