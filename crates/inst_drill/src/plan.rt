//! The commands of a drill: participant 0 is funded and submits transfers to participant 1, which
//! confirms them.
ghost use Rattle.std.specs.Prelude.{◌≡◌, ◌≤◌, ◌++◌, true, length, IfOk, IsOkUnless, Err};
ghost use Rattle.std.specs.List.{list_all};
ghost use Rattle.std.specs.Fmt.{decimal};
ghost use Rattle.inst_base.specs.Text.{is_latin};
ghost use Rattle.inst_base.specs.declared.cents.TheConstants.{MOST_CENTS};
ghost use Rattle.inst_base.specs.declared.moment.TheConstants.{LAST};
ghost use Rattle.inst_settings.specs.Settings.{HubSettings};
ghost use Rattle.inst_command.specs.Ask.{ask_fits};
ghost use Rattle.inst_drill.specs.Plan.{MayDrill};
ghost use Rattle.inst_drill.specs.inner.Plan.{IsPlan, IsSweepOf, submission_of, confirmation_of};

use inst_base::{Cents, Fault, Ident, Moment};
use inst_command::{Ask, Command, Funding, Submission};
use inst_crew::Sweep;
use inst_hub::Teller;
use inst_settings::Settings;
use std::alloc::{AllocError, Global};

/// The amount of each transfer, in cents.
const CENTS: u64 = 100;

/// The most openings of a drill.
pub const MOST_DRILL_OPENINGS: u8 = 10;

/// What a drill does in each opening.
#[derive(Clone, Copy)]
pub(crate) struct Plan {
    /// How many transfers there are.
    pub(crate) transfers: u16,
    /// The amount of all of them, in cents.
    pub(crate) funding: Cents,
    /// When they are confirmed: the last moment in time.
    pub(crate) last: Moment,
    /// Their deadline.
    pub(crate) deadline: Moment,
}

/// Returns an amount that is known to be valid.
fn cents(amount: u64) -> Cents
    requires { (1 ≤ amount) × (amount ≤ MOST_CENTS) }
    ensures { result ≡ amount }
{
    let Ok(cents) = Cents::new(amount) else {
        unreachable!()
    };
    cents
}

/// Returns a moment that is known to be valid.
fn moment(past_base: u64) -> Moment
    requires { past_base ≤ LAST }
    ensures { result ≡ past_base }
{
    let Ok(moment) = Moment::new(0, past_base) else {
        unreachable!()
    };
    moment
}

/// Returns the identifier of the letter and the number.
fn name(alloc: Global, letter: &str, number: u32) -> Result<Ident, AllocError>
    requires { (length letter.now ≡ 1) × (list_all is_latin letter.now ≡ true) }
    ensures { IfOk result (λ id. id ≡ letter.now ++ decimal number) }
{
    let digits = number.to_string(alloc)?;
    let text = format!(in alloc; "{letter}{digits}")?;
    let Ok(name) = Ident::new(text.as_str()) else {
        unreachable!()
    };
    Ok(name)
}

impl Plan {
    /// Makes the plan of so many transfers in each of so many openings.
    ///
    /// # Errors
    ///
    /// `BadSettings` if a hub with these settings can't do it.
    pub(crate) fn of(settings: &Settings, transfers: u16, openings: u8) -> Result<Plan, Fault>
        ensures ok { IfOk result (λ plan. IsPlan settings.now plan × (plan.transfers ≡ transfers)) }
        ensures may { IfOk result (λ plan. MayDrill settings.now transfers openings) }
        ensures bad { result ≡ Err Fault.BadSettings → ¬ MayDrill settings.now transfers openings }
        ensures only { IsOkUnless result Fault.BadSettings }
    {
        let all = CENTS * u64::from(transfers);
        if settings.participants() < 2
            || transfers == 0
            || transfers > settings.places()
            || all > settings.ceiling()
            || openings == 0
            || openings > MOST_DRILL_OPENINGS
        {
            return Err(Fault::BadSettings);
        }
        let limit = u64::from(settings.limit());
        let margin = u64::from(settings.margin());
        Ok(Plan {
            transfers,
            funding: cents(all),
            last: moment(limit - margin - 1),
            deadline: moment(limit),
        })
    }

    /// Returns the ask by which participant 0 funds its position for all transfers of this opening.
    pub(crate) fn funding(&self, alloc: Global, opening: u8) -> Result<Ask, AllocError>
        ensures { IfOk result (λ ask. (s : HubSettings) → IsPlan s self.now →
            ask_fits s ask ≡ true) }
    {
        let command = Command::Fund(Funding {
            reference: name(alloc, "F", u32::from(opening))?,
            cents: self.funding,
        });
        Ok(Ask {
            who: 0,
            command,
            at: moment(0),
        })
    }

    /// Returns the ask by which participant 0 submits the transfer with this number.
    pub(crate) fn submission(&self, alloc: Global, number: u32) -> Result<Ask, AllocError>
        ensures { IfOk result (λ ask. ask ≡ submission_of number) }
    {
        let submission = Submission {
            id: name(alloc, "D", number)?,
            to: 1,
            cents: cents(CENTS),
            stamp: moment(0),
        };
        Ok(Ask {
            who: 0,
            command: Command::Submit(submission),
            at: moment(0),
        })
    }

    /// Returns the ask by which participant 1 confirms it.
    pub(crate) fn confirmation(&self, alloc: Global, number: u32) -> Result<Ask, AllocError>
        ensures { IfOk result (λ ask. ask ≡ confirmation_of self.now number) }
    {
        let command = Command::Confirm {
            from: 0,
            id: name(alloc, "D", number)?,
        };
        Ok(Ask {
            who: 1,
            command,
            at: self.last,
        })
    }

    /// Returns the sweep of participant 0 at the deadline, once half of the transfers are
    /// confirmed.
    pub(crate) fn sweep(&self, teller: Teller) -> Sweep
        ensures { IsSweepOf self.now teller result }
    {
        Sweep {
            teller,
            who: 0,
            at: self.deadline,
            after: u64::from(self.transfers / 2),
        }
    }
}
