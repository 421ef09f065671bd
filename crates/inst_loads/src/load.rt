//! A load of a hub. Threads, each with one teller, submit and confirm transfers in rounds, each at
//! a new hub of 64 participants. All must be settled, and the positions must sum to the funding.
pub(crate) mod rounds;

use crate::words::MOST_WORDS;

/// The number of participants of the hub.
pub(crate) const PARTICIPANTS: u16 = 64;

/// The number of places of each participant.
pub(crate) const PLACES: u16 = 1_024;

/// The funding of each participant, in cents.
pub(crate) const FUNDS: u64 = 200_000;

/// The most threads of a load or a stress: one less than the most tellers of a hub.
const MOST_THREADS: u8 = 15;

/// Which participants the threads' transfers are between.
#[derive(Clone, Copy)]
pub(crate) enum Pattern {
    /// Any two participants, in turn.
    Uniform,
    /// Each thread uses a group of participants that no other thread uses.
    Split,
    /// All threads use the same two participants.
    Hot,
}

/// Returns the size of each thread's group of participants.
fn group(threads: u8) -> u32 {
    u32::from(PARTICIPANTS) / u32::from(threads.max(1))
}

impl Pattern {
    /// Returns the most transfers of each thread that find places.
    fn most(self, threads: u8) -> u32 {
        let places = u32::from(PLACES);
        match self {
            Pattern::Uniform => u32::from(PARTICIPANTS) * places / u32::from(threads.max(1)),
            Pattern::Split => group(threads).saturating_mul(places),
            Pattern::Hot => places / u32::from(threads.max(1)),
        }
    }
}

/// Returns the numbers of threads, 1 to 15, and of rounds that these words ask for.
pub(crate) fn threads_of(words: &[String]) -> Option<(u8, u32)> {
    let threads = words.get(2)?.parse().ok()?;
    if threads == 0 || threads > MOST_THREADS {
        return None;
    }
    let rounds = words.get(3)?.parse().ok()?;
    Some((threads, rounds))
}

/// The options of a load.
#[derive(Clone, Copy)]
pub(crate) struct Load {
    pub(crate) pattern: Pattern,
    /// 1 to 15.
    pub(crate) threads: u8,
    /// The number of transfers of each thread in a round.
    pub(crate) share: u32,
    /// `true` if a round's hub isn't closed, so that the program's time is that of the load.
    pub(crate) is_left_open: bool,
}

/// Returns the words without a last word `open`, and whether there was one.
fn split_open(words: &[String]) -> (&[String], bool) {
    match words.split_last() {
        Some((last, others)) if last.as_str() == "open" => (others, true),
        _ => (words, false),
    }
}

impl Load {
    /// Returns the load and the number of rounds that these words ask for. By default a thread
    /// makes as many transfers as find places.
    pub(crate) fn of(words: &[String]) -> Option<(Load, u32)> {
        let (words, is_left_open) = split_open(words);
        if words.len() > MOST_WORDS {
            return None;
        }
        let pattern = match words.get(1)?.as_str() {
            "uniform" => Pattern::Uniform,
            "split" => Pattern::Split,
            "hot" => Pattern::Hot,
            _ => return None,
        };
        let (threads, count) = threads_of(words)?;
        let share = match words.get(4) {
            Some(word) => word.parse().ok()?,
            None => pattern.most(threads),
        };
        let load = Load {
            pattern,
            threads,
            share,
            is_left_open,
        };
        Some((load, count))
    }

    /// Returns the number of transfers of all threads in a round.
    pub(crate) fn transfers(self) -> u32 {
        self.share.saturating_mul(u32::from(self.threads))
    }

    /// Returns the originator and the beneficiary of a thread's transfer with this number.
    pub(crate) fn pair(self, thread: u8, number: u32) -> (u8, u8) {
        match self.pattern {
            Pattern::Uniform => {
                let number = number.saturating_mul(u32::from(self.threads));
                pair_of(
                    0,
                    u32::from(PARTICIPANTS),
                    number.saturating_add(u32::from(thread)),
                )
            }
            Pattern::Split => {
                let size = group(self.threads);
                pair_of(u32::from(thread).saturating_mul(size), size, number)
            }
            Pattern::Hot => (0, 1),
        }
    }
}

/// Returns pair `number` of the `size` participants from `first` on; the two differ.
fn pair_of(first: u32, size: u32, number: u32) -> (u8, u8) {
    let size = size.max(2);
    let from = number % size;
    let to = (from + 1 + number / size % (size - 1)) % size;
    (participant(first, from), participant(first, to))
}

fn participant(first: u32, number: u32) -> u8 {
    (first.saturating_add(number) % u32::from(PARTICIPANTS)) as u8
}
