//! Putting and taking jobs.
ghost use Rattle.std.specs.Prelude.{◌≡◌, None, IfErr, IfSome, OnOk, OnErr};
ghost use Rattle.inst_desk.specs.Desk.{IsHandOf, IsSameHand, PutsJob, TakesJob, FindsFull};
ghost use Rattle.inst_desk.specs.Desk.{FindsEmpty};

use super::Desk;
use crate::hand::Hand;
use crate::job::Job;
use crate::rule::{Putting, Taking};
use std::sync::Wait;

impl Desk {
    /// Appends a job, or returns the same job if the desk is full. May block.
    ///
    /// The contract rules out a wrong "full" only for the one hand of a desk; what other hands did
    /// until then is open.
    pub fn put<R: Wait>(&self, rt: &R, hand: &mut Hand, job: Job) -> Result<(), Job>
        requires of { IsHandOf self.now hand.old }
        ensures of { IsHandOf self.now hand.new }
        ensures same { IsSameHand hand.old hand.new }
        ensures put { OnOk result (PutsJob hand.old hand.new job) }
        ensures back { IfErr result (λ x. x ≡ job) }
        ensures full { OnErr result (FindsFull self.now hand.old hand.new) }
    {
        self.queue.push_as::<Putting, R>(rt, &mut hand.seat, job)?;
        hand.puts = hand.puts.saturating_add(1);
        Ok(())
    }

    /// Takes the oldest job, or returns `None` if the desk is empty. May block.
    ///
    /// The contract rules out a wrong `None` only for the one hand of a desk; what other hands did
    /// until then is open.
    pub fn take<R: Wait>(&self, rt: &R, hand: &mut Hand) -> Option<Job>
        requires of { IsHandOf self.now hand.old }
        ensures of { IsHandOf self.now hand.new }
        ensures same { IsSameHand hand.old hand.new }
        ensures taken { IfSome result (λ job. TakesJob hand.old hand.new job) }
        ensures none { result ≡ None → FindsEmpty hand.old hand.new }
    {
        let job = self.queue.pop_as::<Taking, R>(rt, &mut hand.seat)?;
        hand.takes = hand.takes.saturating_add(1);
        Some(job)
    }
}
