//! The reasons for which the program ends without success.
ghost use Rattle.std.specs.Prelude.{◌≡◌, is_ok, IfErr};
ghost use Rattle.inst_logged.specs.Refused.{IsRefused};
ghost use Rattle.inst_program.specs.inner.ExitReason.{status_of_ending};

use crate::logs::LogsError;
use inst_base::Fault;
use inst_chain::Prefix;
use inst_drill::DrillError;
use inst_log::LogError;
use inst_logged::LoggedError;
use inst_options::LogFault;
use std::alloc::AllocError;
use std::io::Write;

/// Why the program ends without having done what the words ask for.
#[derive(Clone, Copy)]
pub(crate) enum ExitReason {
    /// No hub can do the drill, or the task failed with this fault.
    Fault(Fault),
    /// The log was refused, or failed.
    Log(LogFault),
    /// No fault has the number or name that is to be explained.
    Unexplained,
    /// No run in one thread was found that leaves the books of a drill's opening.
    NoInterleaving,
    /// The file for the script of a drill isn't empty.
    ScriptNotEmpty,
    /// The books of a log don't allow the change that the option of this name asks for.
    Unfit(&'static str),
    /// A new chain can't begin while a transfer is pending.
    PendingTransfer,
    /// A log doesn't begin as `next` begins one from the log before it.
    BrokenChain,
}

impl From<Fault> for ExitReason {
    ghost use Rattle.inst_program.specs.declared.exit_reason.ExitReason.TheVariants as ending;

    ghost from_gives = { λ fault result. result ≡ ending.Fault fault };

    fn from(fault: Fault) -> ExitReason {
        ExitReason::Fault(fault)
    }
}

impl From<AllocError> for ExitReason {
    ghost use Rattle.inst_base.specs.declared.fault.Fault.TheVariants.{Memory};
    ghost use Rattle.inst_program.specs.declared.exit_reason.ExitReason.TheVariants as ending;

    ghost from_gives = { λ _ result. result ≡ ending.Fault Memory };

    fn from(_error: AllocError) -> ExitReason {
        ExitReason::Fault(Fault::Memory)
    }
}

impl From<LogsError> for ExitReason {
    ghost use Rattle.inst_program.specs.inner.ExitReason.{ending_of_error};

    ghost from_gives = { λ error result. result ≡ ending_of_error error };

    fn from(error: LogsError) -> ExitReason {
        match error {
            LogsError::Memory => ExitReason::Fault(Fault::Memory),
            LogsError::Log(fault) => ExitReason::Log(fault),
        }
    }
}

impl From<DrillError> for ExitReason {
    ghost use Rattle.inst_program.specs.inner.ExitReason.{ending_of_drill};

    ghost from_gives = { λ error result. result ≡ ending_of_drill error };

    fn from(error: DrillError) -> ExitReason {
        match error {
            DrillError::Fault(fault) => ExitReason::Fault(fault),
            DrillError::NoInterleaving => ExitReason::NoInterleaving,
        }
    }
}

/// Returns the reason to end for this error of a hub with a log.
pub(crate) fn ending_of(error: LoggedError) -> ExitReason
    ensures { status_of_ending result ≡ 2 → IsRefused error }
{
    match error {
        LoggedError::Read => ExitReason::Fault(Fault::ReadFault),
        LoggedError::Books => ExitReason::Log(LogFault::BadBooks),
        LoggedError::Damaged(_) => ExitReason::Log(LogFault::DamagedLog),
        LoggedError::OtherDigest => ExitReason::Log(LogFault::OtherDigest),
        LoggedError::Changed => ExitReason::Log(LogFault::ChangedLog),
        LoggedError::Log(LogError::Memory) => ExitReason::Fault(Fault::Memory),
        LoggedError::Log(LogError::Write) => ExitReason::Fault(Fault::WriteFault),
        LoggedError::Log(LogError::Disk(_) | LogError::Full) => ExitReason::Log(
            LogFault::DiskFault,
        ),
        LoggedError::Log(LogError::Told) => ExitReason::Log(LogFault::ToldAhead),
        LoggedError::Log(LogError::OtherSettings) => ExitReason::Log(LogFault::OtherSettings),
        LoggedError::Log(LogError::NoLog) => ExitReason::Log(LogFault::NoLog),
    }
}

/// Replaces the error of a hub with a log by the reason to end.
pub(crate) fn or_ending(outcome: Result<(), LoggedError>) -> Result<(), ExitReason>
    ensures variant { is_ok result ≡ is_ok outcome }
    ensures refused { IfErr outcome (λ error.
        IfErr result (λ ending. status_of_ending ending ≡ 2 → IsRefused error)) }
{
    match outcome {
        Ok(()) => Ok(()),
        Err(error) => Err(ending_of(error)),
    }
}

/// Returns the reason to end for this error of a hub with a log. If the log is damaged, prints on
/// `errors` how far it is right.
pub(crate) fn told_ending<E: Write>(error: LoggedError, errors: &mut E) -> ExitReason
    ensures { status_of_ending result ≡ 2 → IsRefused error }
{
    if let LoggedError::Damaged(right) = error {
        tell_damage(right, errors);
    }
    ending_of(error)
}

/// Prints the line after which a log is damaged.
pub(crate) fn tell_damage<E: Write>(right: Prefix, errors: &mut E) {
    let Prefix { lines, bytes } = right;
    let _ = writeln!(
        errors,
        "the log is damaged after line {lines}, byte {bytes}"
    );
}
