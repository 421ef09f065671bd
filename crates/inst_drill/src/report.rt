//! Reports.
ghost use Rattle.std.specs.Prelude.{◌≡◌, IfOk, string_bytes};
ghost use Rattle.inst_drill.specs.Report.{calls_text, outcomes_text, money_text, report_text};
ghost use Rattle.inst_drill.specs.Report.{ends_text};

use std::alloc::{AllocError, Global};

/// What was done in one opening.
#[derive(Clone, Copy)]
pub struct Report {
    /// How many jobs were put on the desk.
    pub jobs: u64,
    /// How many calls of the workers were answered.
    pub answered: u64,
    /// How many submitted transfers were accepted or timed out, by the books.
    pub decided: u64,
    /// How many of these were accepted.
    pub accepted: u64,
    /// How many of these timed out.
    pub timed_out: u64,
    /// How many outcomes were seen that the books don't have.
    pub disagree: u64,
    /// The net funding of all participants, in cents.
    pub net: u128,
    /// The sum of all positions, in cents.
    pub sum: u128,
}

impl Report {
    /// Formats the four lines `jobs J answered R`, `decided D`, `disagree X` and `net N sum S`.
    pub(crate) fn text(&self, alloc: Global) -> Result<String, AllocError>
        ensures { IfOk result (λ text. string_bytes text ≡ report_text self.now) }
    {
        let calls = self.calls(alloc)?;
        let outcomes = self.outcomes(alloc)?;
        let money = self.money(alloc)?;
        Ok(format!(in alloc; "{calls}{outcomes}{money}")?)
    }

    /// Formats the line `accepted A timed_out T`.
    pub(crate) fn ends(&self, alloc: Global) -> Result<String, AllocError>
        ensures { IfOk result (λ text. string_bytes text ≡ ends_text self.now) }
    {
        let Report {
            accepted,
            timed_out,
            ..
        } = *self;
        Ok(format!(in alloc; "accepted {accepted} timed_out {timed_out}\n")?)
    }

    /// Formats the line `jobs J answered R`.
    fn calls(&self, alloc: Global) -> Result<String, AllocError>
        ensures { IfOk result (λ text. string_bytes text ≡ calls_text self.now) }
    {
        let Report { jobs, answered, .. } = *self;
        Ok(format!(in alloc; "jobs {jobs} answered {answered}\n")?)
    }

    /// Formats the lines `decided D` and `disagree X`.
    fn outcomes(&self, alloc: Global) -> Result<String, AllocError>
        ensures { IfOk result (λ text. string_bytes text ≡ outcomes_text self.now) }
    {
        let Report {
            decided,
            disagree,
            ..
        } = *self;
        Ok(format!(in alloc; "decided {decided}\ndisagree {disagree}\n")?)
    }

    /// Formats the line `net N sum S`.
    fn money(&self, alloc: Global) -> Result<String, AllocError>
        ensures { IfOk result (λ text. string_bytes text ≡ money_text self.now) }
    {
        let Report { net, sum, .. } = *self;
        Ok(format!(in alloc; "net {net} sum {sum}\n")?)
    }
}
