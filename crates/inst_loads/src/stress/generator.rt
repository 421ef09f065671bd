//! Pseudo-random numbers.
use rand_core::utils::NextWord;
use rand_pcg::Pcg32;

/// A generator of pseudo-random numbers, always the same ones for a round and thread.
#[derive(Drop)]
pub(crate) struct Generator {
    words: Pcg32,
}

impl Generator {
    ghost use Rattle.std.specs.Prelude.{◌<◌};

    /// Returns the generator of this thread in this round.
    pub(crate) fn new(round: u32, thread: u8) -> Generator {
        Generator {
            words: Pcg32::new(u64::from(round), u64::from(thread)),
        }
    }

    /// Returns the next number, below `bound`.
    pub(crate) fn below(&mut self, bound: u32) -> u32
        requires { 0 < bound }
        ensures { result < bound }
    {
        self.words.next_word() % bound
    }
}
