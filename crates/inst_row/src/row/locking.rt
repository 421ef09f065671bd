//! Taking locks and giving them back.
ghost use Rattle.std.specs.Prelude.{◌≡◌, ◌<◌, IfSome, IfNone, List};
ghost use mathlib.Core.List.{IsPrefix};
ghost use Rattle.inst_row.specs.Seated.{IsOn, IsFree, Has, IsFoundBehind, HasTaken, HasGivenBack};
ghost use Rattle.inst_row.specs.Row.{row_id, key_of, size};

use super::{LockRow, STRIDE};
use crate::lawful::Lawful;
use crate::seat::RowSeat;
use crate::steps::{Awaiting, Giving, LockTaking};
use std::sync::Wait;
use std::thread::yield_now;

/// How often a seat tries a lock before its thread sleeps.
const TRIES: u32 = 64;

/// The word of a lock that a seat has.
const TAKEN: u64 = 1;

/// The word of a lock that a seat has while others may sleep.
const AWAITED: u64 = 2;

impl<T, E, K, L: Lawful<T, E, K>> LockRow<T, E, K, L> {
    /// Tries to take the lock some times and to set its word to `word`. Yields between tries: a
    /// lock is held for one event, which is shorter than a sleep.
    fn try_take(&self, seat: &mut RowSeat<T, E, K>, lock: usize, word: u64) -> Option<T>
        requires on { IsOn (row_id self.now) (key_of self.now) seat.old }
        requires lock { lock < size self.now }
        requires word { 0 < word }
        requires free { IsFree seat.old }
        ensures found { IfSome result (λ value.
            IsFoundBehind L.law L.history (key_of self.now) lock value seat.old) }
        ensures taken { IfSome result (λ value.
            HasTaken (row_id self.now) (key_of self.now) lock (L.history value) seat.old seat.new) }
        ensures on { IsOn (row_id self.now) (key_of self.now) seat.new }
        ensures none { IfNone result (seat.new.seat.me ≡ seat.old.seat.me) }
    {
        let shared = &self.table.shared;
        let place = lock * STRIDE;
        for _ in 0..TRIES {
            if shared.compare_exchange::<LockTaking<L>>(&mut seat.seat, place, 0, word) == 0 {
                return shared.exchange(&mut seat.seat, place, None);
            }
            yield_now();
        }
        None
    }

    /// Marks the lock as awaited, and sleeps until it is given back.
    fn wait<R: Wait>(&self, rt: &R, seat: &mut RowSeat<T, E, K>, lock: usize)
        requires on { IsOn (row_id self.now) (key_of self.now) seat.old }
        requires lock { lock < size self.now }
        ensures on { IsOn (row_id self.now) (key_of self.now) seat.new }
        ensures same { seat.new.seat.me ≡ seat.old.seat.me }
    {
        let shared = &self.table.shared;
        let place = lock * STRIDE;
        shared.compare_exchange::<Awaiting>(&mut seat.seat, place, TAKEN, AWAITED);
        shared.park(rt, place, AWAITED as u32);
    }

    /// Takes the lock and returns its value. A seat can't take a second lock.
    ///
    /// Blocks while another seat has the lock: after 64 tries the thread sleeps. The order in which
    /// waiters get a lock is not defined.
    pub fn take<R: Wait>(&self, rt: &R, seat: &mut RowSeat<T, E, K>, lock: usize) -> T
        requires on { IsOn (row_id self.now) (key_of self.now) seat.old }
        requires lock { lock < size self.now }
        requires free { IsFree seat.old }
        ensures found { IsFoundBehind L.law L.history (key_of self.now) lock result seat.old }
        ensures taken { HasTaken (row_id self.now) (key_of self.now) lock
            (L.history result) seat.old seat.new }
    {
        if let Some(value) = self.try_take(seat, lock, TAKEN) {
            return value;
        }
        for _ in rt.forever() {
            self.wait(rt, seat, lock);
            // others may still sleep
            if let Some(value) = self.try_take(seat, lock, AWAITED) {
                return value;
            }
        }
        unreachable!()
    }

    /// Gives the lock back, with a value that keeps its law and whose history extends the one that
    /// was found. Wakes one waiter if any may be asleep.
    pub fn give(&self, seat: &mut RowSeat<T, E, K>, lock: usize, value: T)
        requires on { IsOn (row_id self.now) (key_of self.now) seat.old }
        requires lock { lock < size self.now }
        requires has { (found : List E) × Has lock found seat.old
            × IsPrefix found (L.history value) }
        requires law { L.law (key_of self.now) lock value }
        ensures { HasGivenBack (row_id self.now) (key_of self.now) lock
            (L.history value) seat.old seat.new }
    {
        let shared = &self.table.shared;
        let place = lock * STRIDE;
        let old = shared.exchange(&mut seat.seat, place, Some(value));
        let None = old else { unreachable!() };
        if shared.swap::<Giving<L>>(&mut seat.seat, place, 0) == AWAITED {
            shared.wake_one(place);
        }
    }
}
