//! The steps of scripts, as the worked rows of the model write them.
ghost use Rattle.std.specs.Prelude.{◌≡◌, IfOk};
ghost use Rattle.inst_model.specs.Deciders.{asks};
ghost use Rattle.inst_model.specs.Rows as rows;

use inst_base::{Cents, Fault, Ident, Moment};
use inst_command::{Ask, Command, Funding, Step, Submission};

/// Returns the step in which the participant `who` gives this command, `at` milliseconds since
/// base.
///
/// # Errors
///
/// The fault of the clock reading.
pub fn ask(who: u8, command: Command, at: u64) -> Result<Step, Fault>
    ensures { IfOk result (λ step. step ≡ asks who command at) }
{
    let at = Moment::new(0, at)?;
    Ok(Step::Ask(Ask { who, command, at }))
}

/// Returns the step in which it funds `cents` under this reference.
///
/// # Errors
///
/// The fault of the first part that isn't valid.
pub fn fund(who: u8, reference: &str, cents: u64, at: u64) -> Result<Step, Fault>
    ensures { IfOk result (λ step. step ≡ rows.fund_step who reference.now cents at) }
{
    let reference = Ident::new(reference)?;
    let cents = Cents::new(cents)?;
    ask(who, Command::Fund(Funding { reference, cents }), at)
}

/// Returns the step in which it submits a transfer to the participant `to`.
///
/// # Errors
///
/// The fault of the first part that isn't valid.
pub fn submit(who: u8, id: &str, to: u8, cents: u64, stamp: u64, at: u64) -> Result<Step, Fault>
    ensures { IfOk result (λ step. step ≡ rows.submit_step who id.now to cents stamp at) }
{
    let id = Ident::new(id)?;
    let cents = Cents::new(cents)?;
    let stamp = Moment::new(0, stamp)?;
    let submission = Submission {
        id,
        to,
        cents,
        stamp,
    };
    ask(who, Command::Submit(submission), at)
}

/// Returns the step in which it confirms a transfer of the participant `from`.
///
/// # Errors
///
/// The fault of the first part that isn't valid.
pub fn confirm(who: u8, from: u8, id: &str, at: u64) -> Result<Step, Fault>
    ensures { IfOk result (λ step. step ≡ rows.confirm_step who from id.now at) }
{
    let id = Ident::new(id)?;
    ask(who, Command::Confirm { from, id }, at)
}
