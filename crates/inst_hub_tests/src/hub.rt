//! Tests of hubs that threads share. No contract says that a peek loads, that a follow-up reaches
//! the other side, that a call doesn't wait for another participant's lock, or that two threads
//! that decide one transfer agree.
mod gate;
mod race;
mod reopening;
mod setting;
mod start;
mod sweeping;
mod two_tellers;
