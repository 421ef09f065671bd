//! The rule of a desk. Each step's contract says what the hand that takes it learns.
use crate::account::Account;
use crate::job::Job;
use crossbeam_queue::protocol::{Join, Lesson, Outcome, Protocol, Split};
use crossbeam_queue::{Pass, RuledArrayQueue};
use std::alloc::Global;

/// The rule that no job is lost and none is taken twice.
pub struct Tallied;

impl Protocol<Job, Account> for Tallied {
    ghost use Rattle.inst_desk.specs.Account.{first_account};
    ghost use Rattle.inst_desk.specs.Rule.{IsTallied};

    ghost holds = { IsTallied };

    ghost first = { first_account };
}

/// The queue of jobs.
pub(crate) type Queue = RuledArrayQueue<Job, Account, Tallied, Global>;

/// A hand's access to the queue.
pub(crate) type DeskPass = Pass<Job, Account>;

/// The step that puts a job.
pub(crate) struct Putting;

impl Outcome<Job, Account> for Putting {
    ghost use Rattle.std.specs.Prelude.{◌≡◌};
    ghost use Rattle.inst_desk.specs.inner.Account.{with_put};

    ghost then = { λ v job w. w ≡ with_put v job };
}

impl Lesson<Job, Account> for Putting {
    ghost use Rattle.inst_desk.specs.Account.{MayLie};

    ghost fact = { MayLie };
}

/// The step that takes a job.
pub(crate) struct Taking;

impl Outcome<Job, Account> for Taking {
    ghost use Rattle.std.specs.Prelude.{◌≡◌};
    ghost use Rattle.inst_desk.specs.Account.{LiesFirst};
    ghost use Rattle.inst_desk.specs.inner.Account.{with_taken};

    ghost then = { λ v job w. (w ≡ with_taken v job) × LiesFirst v job };
}

impl Lesson<Job, Account> for Taking {
    ghost use Rattle.inst_desk.specs.Account.{MayLie};

    ghost fact = { MayLie };
}

/// The split that gives a new hand one part.
pub(crate) struct Dealing;

impl Split<Account> for Dealing {
    ghost use Rattle.inst_desk.specs.inner.Account.{less_one_part, one_part};

    ghost left = { less_one_part };

    ghost right = { one_part };
}

/// The join of two hands into one with the parts of both.
pub(crate) struct Gathering;

impl Join<Account> for Gathering {
    ghost use Rattle.inst_desk.specs.inner.Account.{together, no_account};

    ghost both = { together };

    ghost spent = { no_account };
}
