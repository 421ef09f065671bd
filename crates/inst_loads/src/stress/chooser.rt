//! Chooses the calls of a thread in a stress.
use crate::hub::opening::AHEAD;
use crate::stress::generator::Generator;
use crate::stress::sights::PLACES;
use crate::stress::stress_round::StressRound;
use crate::stress::transfer::{NAMES, NextTransfer, PARTICIPANTS};
use inst_base::{Cents, Fault, Moment, Reason};
use inst_command::{Ask, Command, Place, Query, Submission};
use std::alloc::Global;

/// The number of calls of a thread in a round.
pub(crate) const STEPS: u32 = 2_048;

/// The number of calls after which all threads wait for one another and proceed to the next number,
/// so that they use the same transfers at the same time.
const PACE: u32 = 32;

/// The number of transfers of an originator that are in use at a time.
const WINDOW: u32 = 4;

/// In a round with allocation failures, one call in this many is made with little memory left.
const WANT: u32 = 4;

/// The sizes of that memory are multiples of this, in bytes.
const QUANTUM: u32 = 16;

/// The number of such sizes.
const QUANTA: u32 = 64;

/// How many numbers the other calls are behind the submissions.
const BEHIND: u32 = 2;

/// One call of a thread.
#[derive(Clone, Copy)]
pub(crate) enum Choice {
    /// Asks, and peeks if there is a ticket.
    Ask(Ask),
    /// Peeks at this place, if a transfer was noted there.
    Peek(Place),
    /// Sweeps the participant at this clock reading.
    Sweep { who: u8, at: Moment },
}

/// Chooses a thread's calls, always the same ones for a round and thread.
#[derive(Drop)]
pub(crate) struct Chooser {
    generator: Generator,
    pub(crate) round: StressRound,
    thread: u8,
    step: u32,
}

impl Chooser {
    pub(crate) fn new(round: StressRound, thread: u8) -> Chooser {
        Chooser {
            generator: Generator::new(round.number, thread),
            round,
            thread,
            step: 0,
        }
    }

    /// Returns the thread's next call.
    pub(crate) fn choose(&mut self, alloc: Global) -> Result<Choice, Fault> {
        self.step = self.step.saturating_add(1);
        match self.step % PACE {
            0 => submit(&self.contested(alloc)?),
            1 => self.decide_contested(&self.contested(alloc)?),
            _ => self.any(alloc),
        }
    }

    /// Returns how many arrivals the threads wait for now, or `None` if they don't wait. They wait
    /// first before the first call.
    pub(crate) fn arrivals(&self) -> Option<u32> {
        if self.step % PACE != 0 {
            return None;
        }
        let times = (self.step / PACE).saturating_add(1);
        Some(times.saturating_mul(u32::from(self.round.threads)))
    }

    /// Returns how many bytes of memory are left for the chosen call, or `None` if all are.
    pub(crate) fn bytes_left(&mut self) -> Option<usize> {
        if !self.round.is_scarce || self.generator.below(WANT) != 0 {
            return None;
        }
        Some((self.generator.below(QUANTA) * QUANTUM) as usize)
    }

    /// Returns the contested transfer: all threads submit it before they wait for one another, and
    /// then decide it at the same time.
    fn contested(&self, alloc: Global) -> Result<NextTransfer, Fault> {
        let number = self.step / PACE;
        let participants = u32::from(PARTICIPANTS);
        NextTransfer::of(
            alloc,
            (number % participants) as u8,
            NAMES.saturating_add(number / participants),
        )
    }

    /// Half of the threads confirm or reject the contested transfer in time; the others let it
    /// expire.
    fn decide_contested(&self, transfer: &NextTransfer) -> Result<Choice, Fault> {
        let NextTransfer { from, to, id, .. } = *transfer;
        let deadline = transfer.deadline();
        let in_time = deadline.saturating_sub(u64::from(self.round.margin) + 1);
        match (self.step / PACE).saturating_add(u32::from(self.thread)) % 4 {
            0 => command_at(to, Command::Confirm { from, id }, in_time),
            2 => {
                let reason = self.reason()?;
                command_at(to, Command::Reject { from, id, reason }, in_time)
            }
            _ => command_at(from, Command::Investigate { id }, deadline),
        }
    }

    /// Returns a random call.
    fn any(&mut self, alloc: Global) -> Result<Choice, Fault> {
        let from = self.participant();
        let number = self.number();
        if self.generator.below(8) == 0 {
            return Ok(Choice::Peek(Place {
                owner: from,
                index: (number % u32::from(PLACES)) as u16,
            }));
        }
        if self.generator.below(3) == 0 {
            let transfer = NextTransfer::of(alloc, from, self.submitted(number))?;
            return self.submission(&transfer);
        }
        let transfer = NextTransfer::of(alloc, from, number.saturating_sub(BEHIND))?;
        self.question(&transfer)
    }

    fn participant(&mut self) -> u8 {
        self.generator.below(u32::from(PARTICIPANTS)) as u8
    }

    /// Returns one of the numbers in use, or at times any number.
    fn number(&mut self) -> u32 {
        if self.generator.below(8) == 0 {
            return self.generator.below(NAMES);
        }
        (self.step / PACE + self.generator.below(WINDOW)) % NAMES
    }

    /// Returns the number that the thread submits instead: all threads submit the even numbers, one
    /// thread each odd one.
    fn submitted(&self, number: u32) -> u32 {
        let threads = u32::from(self.round.threads.max(1));
        if number % 2 == 1 && number / 2 % threads != u32::from(self.thread) {
            return number - 1;
        }
        number
    }

    /// Returns a submission, mostly in time. Some have another beneficiary and so aren't repeats.
    fn submission(&mut self, transfer: &NextTransfer) -> Result<Choice, Fault> {
        let is_other = self.generator.below(32) == 0;
        let to = if is_other {
            self.participant()
        } else {
            transfer.to
        };
        let at = match self.generator.below(16) {
            0 => transfer.stamp.saturating_sub(u64::from(AHEAD) + 1),
            1 => transfer.deadline(),
            2 => transfer.deadline().saturating_sub(1),
            early => transfer.stamp.saturating_add(u64::from(early)),
        };
        submit_so(transfer, to, at)
    }

    /// Returns another command about a transfer or a participant, or a sweep.
    fn question(&mut self, transfer: &NextTransfer) -> Result<Choice, Fault> {
        let NextTransfer { from, to, id, .. } = *transfer;
        let at = self.reading(transfer.deadline());
        match self.generator.below(17) {
            0..=5 => command_at(to, Command::Confirm { from, id }, at),
            6..=8 => {
                let reason = self.reason()?;
                command_at(to, Command::Reject { from, id, reason }, at)
            }
            9..=12 => command_at(from, Command::Investigate { id }, at),
            13 => command_at(to, Command::Fetch { max: 3 }, at),
            14 => command_at(self.participant(), Command::Confirm { from, id }, at),
            15 if self.round.sweeps => Ok(Choice::Sweep {
                who: self.participant(),
                at: Moment::new(0, at)?,
            }),
            _ => command_at(from, Command::Query(Query::Position), at),
        }
    }

    /// Returns a clock reading for a decision: well before the deadline, or near the margin or the
    /// deadline.
    fn reading(&mut self, deadline: u64) -> u64 {
        let margin = u64::from(self.round.margin);
        match self.generator.below(16) {
            0..=6 => deadline.saturating_sub(5_000),
            7 | 8 => deadline.saturating_sub(margin).saturating_sub(1),
            9 | 10 => deadline.saturating_sub(margin),
            11 => deadline.saturating_sub(margin / 2),
            12 | 13 => deadline.saturating_sub(1),
            14 => deadline,
            _ => deadline.saturating_add(1),
        }
    }

    /// Returns a reason that depends on the thread.
    fn reason(&self) -> Result<Reason, Fault> {
        Reason::new(match self.thread % 4 {
            0 => "AC01",
            1 => "AC04",
            2 => "AM09",
            _ => "MS03",
        })
    }
}

/// Returns a submission of the transfer, in time.
fn submit(transfer: &NextTransfer) -> Result<Choice, Fault> {
    submit_so(transfer, transfer.to, transfer.stamp)
}

fn submit_so(transfer: &NextTransfer, to: u8, at: u64) -> Result<Choice, Fault> {
    let submission = Submission {
        id: transfer.id,
        to,
        cents: Cents::new(transfer.cents)?,
        stamp: Moment::new(0, transfer.stamp)?,
    };
    command_at(transfer.from, Command::Submit(submission), at)
}

fn command_at(who: u8, command: Command, at: u64) -> Result<Choice, Fault> {
    Ok(Choice::Ask(Ask {
        who,
        command,
        at: Moment::new(0, at)?,
    }))
}
