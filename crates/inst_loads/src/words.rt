//! The command line.
use crate::load::Load;
use crate::stress::Stress;

/// The text that `--help` prints.
pub(crate) const HELP: &str = "\
Loads and stresses of a hub that threads share, races over shared boards, and worked rows in want of memory.

Usage:
  inst_loads uniform THREADS ROUNDS [TRANSFERS] [open]  threads submit and confirm transfers, any two of 64 participants'
  inst_loads split THREADS ROUNDS [TRANSFERS] [open]    .. each thread those of participants of its own
  inst_loads hot THREADS ROUNDS [TRANSFERS] [open]      .. all threads those of the same two participants
  inst_loads stress THREADS ROUNDS [scarce]             threads race for outcomes; with the last word in want of memory
  inst_loads race ROUNDS                                slots of two threads race for the outcomes of 200 transfers
  inst_loads race rows                                  worked rows of three slots, in one thread
  inst_loads scarce                                     worked rows in want of memory
  inst_loads --help                                     these words

There are 1 to 15 THREADS, and TRANSFERS are those that each of them makes in a round, by default as many as find
places. After each round a run in one thread is rebuilt from the books; with `open` the hub of a load isn't closed, so
that the program's time is that of the load. How it ended is told on standard error. The exit status is 0, or 1 where something isn't as it must be, or 2
where the words are others.
";

/// The most words of a load or a stress, with the program's name and without `open`.
pub(crate) const MOST_WORDS: usize = 5;

/// The task that the words ask for.
#[derive(Clone, Copy)]
pub(crate) enum Task {
    /// Prints the help.
    Help,
    /// A load, and its number of rounds.
    Load(Load, u32),
    Stress(Stress),
    /// Races, and their number.
    Races(u32),
    /// The worked rows over shared boards.
    RaceRows,
    /// The worked rows with allocation failures.
    Scarce,
}

impl Task {
    /// Returns the task that these words ask for, or `None`. The first word is the program's name.
    pub(crate) fn of(words: &[String]) -> Option<Task> {
        match words.get(1)?.as_str() {
            "--help" if words.len() == 2 => Some(Task::Help),
            "stress" if words.len() <= MOST_WORDS => Some(Task::Stress(Stress::of(words)?)),
            "race" if words.len() == 3 => race_of(words.get(2)?),
            "scarce" if words.len() == 2 => Some(Task::Scarce),
            _ => {
                let (load, count) = Load::of(words)?;
                Some(Task::Load(load, count))
            }
        }
    }
}

/// Returns the task that the word after `race` asks for.
fn race_of(word: &str) -> Option<Task> {
    if word == "rows" {
        return Some(Task::RaceRows);
    }
    Some(Task::Races(word.parse().ok()?))
}
