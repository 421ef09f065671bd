//! Checks made once all fields of a line were read: amount, moments, participants.
ghost use Rattle.std.specs.Prelude.{◌≡◌, true, IfOk};
ghost use Rattle.inst_base.specs.Moment.{is_moment, moment_of};
ghost use Rattle.inst_base.specs.TimeLimit.{deadline_of};
ghost use Rattle.inst_settings.specs.Settings.{is_participant, is_within_ceiling};
ghost use Rattle.inst_json.specs.Checks.{amount_of, stamp_of, participant_of};

use inst_base::{Cents, Code, Fault, Moment};
use inst_settings::Settings;

/// Returns the amount of this many cents; `BadAmount` outside 1 to the ceiling.
#[tactic(auto, unfolding(crate::specs::Checks::amount_of))]
pub(crate) fn amount(settings: &Settings, cents: u64) -> Result<Cents, Fault>
    ensures value { result ≡ amount_of settings.now cents }
    ensures fits { IfOk result (λ amount. is_within_ceiling settings.now amount ≡ true) }
{
    let ceiling = settings.ceiling();
    let amount = Cents::new(cents)?;
    if cents > ceiling {
        return Err(Fault::BadAmount);
    }
    Ok(amount)
}

/// Returns the moment at `ms` absolute milliseconds; `BadMoment` outside the hub's moments.
pub(crate) fn moment(settings: &Settings, ms: u64) -> Result<Moment, Fault>
    ensures { result ≡ moment_of settings.now.base ms }
{
    Moment::new(settings.base(), ms)
}

/// Returns the time stamp at `ms` absolute milliseconds; `BadMoment` if it or its deadline is
/// outside the hub's moments.
#[tactic(auto, unfolding(crate::specs::Checks::stamp_of))]
pub(crate) fn time_stamp(settings: &Settings, ms: u64) -> Result<Moment, Fault>
    ensures value { result ≡ stamp_of settings.now ms }
    ensures fits { IfOk result (λ stamp. is_moment (deadline_of settings.now.limit stamp) ≡ true) }
{
    let stamp = moment(settings, ms)?;
    if !stamp.has_deadline(settings.limit()) {
        return Err(Fault::BadMoment);
    }
    Ok(stamp)
}

/// Returns the number of the participant with this code.
///
/// # Errors
///
/// [`Fault::UnknownParticipant`] if no participant has the code.
#[tactic(auto, unfolding(crate::specs::Checks::participant_of))]
pub fn participant(settings: &Settings, code: &Code) -> Result<u8, Fault>
    ensures value { result ≡ participant_of settings.now code.now }
    ensures fits { IfOk result (λ number. is_participant settings.now number ≡ true) }
{
    settings.index_of(code).ok_or(Fault::UnknownParticipant)
}
