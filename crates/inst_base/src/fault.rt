//! The eighteen faults: their numbers, names and explanations.
ghost use Rattle.std.specs.Prelude.{◌≡◌};
ghost use Rattle.inst_base.specs.declared.fault.Fault.TheVariants.{Memory};

use std::alloc::{AllocError, AllocFailed};
use std::error::Error;
use std::fmt::{self, Display, Formatter};

/// Why a line, a command or a run is refused.
///
/// The first thirteen are declared in the order in which a line and a command are checked. `Memory`
/// has no place in it: any call that allocates may return it. The last four concern settings, the
/// length of a line, and the input and output of a run.
#[derive(Clone, Copy, Debug, PartialEq, Eq)]
pub enum Fault {
    /// The line is not JSON.
    NotJson,
    /// The line is no object, its command is unknown, or a field is missing or malformed.
    BadField,
    /// An identifier or a funding reference isn't 1 to 35 characters of the basic Latin set.
    BadIdentifier,
    /// An amount is outside 1 cent to the hub's ceiling.
    BadAmount,
    /// A moment is outside the hub's range, or a deadline is after its last moment.
    BadMoment,
    /// No participant has the code, which is well formed.
    UnknownParticipant,
    /// A submission names its own originator as the beneficiary.
    SelfTransfer,
    /// The transfer wasn't forwarded to the asker, which confirms or rejects it, or wasn't
    /// submitted by the asker, which investigates it.
    UnknownTransfer,
    /// The identifier or reference is already kept with other contents.
    Duplicate,
    /// A time stamp is too far after the clock reading.
    StampAhead,
    /// A submission is read at or after its deadline, or a confirmation of a pending transfer
    /// within the margin before it.
    Expired,
    /// All places of the originator, or all fundings of the participant, are used until the next
    /// opening.
    Full,
    /// The amount is more than what is available.
    Shortage,
    /// An allocation failed.
    Memory,
    /// Settings are outside their ranges.
    BadSettings,
    /// A line has more than 4,096 bytes.
    LineTooLong,
    /// The input failed, or exceeded the limits of a run.
    ReadFault,
    /// The output failed, or took no byte.
    WriteFault,
}

impl Fault {
    ghost use Rattle.inst_base.specs.Fault.{number_of, name_of};

    /// Returns the number that a reply or the program's fault line shows, 1 to 18.
    pub fn number(self) -> u8
        ensures { result ≡ number_of self }
    {
        self as u8 + 1
    }

    /// Returns the name that a reply or the program's fault line shows.
    pub fn name(self) -> &'static str
        ensures { result.now ≡ name_of self }
    {
        match self {
            Fault::NotJson => "NotJson",
            Fault::BadField => "BadField",
            Fault::BadIdentifier => "BadIdentifier",
            Fault::BadAmount => "BadAmount",
            Fault::BadMoment => "BadMoment",
            Fault::UnknownParticipant => "UnknownParticipant",
            Fault::SelfTransfer => "SelfTransfer",
            Fault::UnknownTransfer => "UnknownTransfer",
            Fault::Duplicate => "Duplicate",
            Fault::StampAhead => "StampAhead",
            Fault::Expired => "Expired",
            Fault::Full => "Full",
            Fault::Shortage => "Shortage",
            Fault::Memory => "Memory",
            Fault::BadSettings => "BadSettings",
            Fault::LineTooLong => "LineTooLong",
            Fault::ReadFault => "ReadFault",
            Fault::WriteFault => "WriteFault",
        }
    }
}

/// Writes an explanation without a full stop, for people who read a log.
impl Display for Fault {
    ghost use Rattle.std.specs.Prelude.{Some};
    ghost use Rattle.inst_base.specs.Fault.{meaning_of};

    ghost output = { λ fault. Some (meaning_of fault) };

    fn fmt<W: fmt::Write>(&self, f: &mut Formatter<W>) -> fmt::Result {
        f.write_str(match self {
            Fault::NotJson => "the line is not JSON",
            Fault::BadField => {
                "the line is not an object, its command is unknown, or a field is missing or malformed"
            }
            Fault::BadIdentifier => {
                "an identifier or a reference isn't 1 to 35 characters of the basic Latin set"
            }
            Fault::BadAmount => "the amount isn't from 1 cent to the ceiling",
            Fault::BadMoment => {
                "a moment is outside the hub's range, or the deadline is after the last moment"
            }
            Fault::UnknownParticipant => "no participant has the code",
            Fault::SelfTransfer => "a transfer may not go to its own originator",
            Fault::UnknownTransfer => "the asker has no such transfer",
            Fault::Duplicate => "the identifier or reference is taken with other contents",
            Fault::StampAhead => "the time stamp is too far ahead of the clock reading",
            Fault::Expired => "the clock reading is too late",
            Fault::Full => "all places or all fundings are used",
            Fault::Shortage => "the amount is above what is available",
            Fault::Memory => "an allocation failed",
            Fault::BadSettings => "the settings are outside their ranges",
            Fault::LineTooLong => "the line has more than 4,096 bytes",
            Fault::ReadFault => "reading the input failed, or it exceeded the limits of a run",
            Fault::WriteFault => "writing the output failed, or it took no byte",
        })
    }
}

impl Error for Fault {}

impl From<AllocError> for Fault {
    ghost from_gives = { λ _ fault. fault ≡ Memory };

    fn from(_error: AllocError) -> Fault {
        Fault::Memory
    }
}

impl<T: Drop> From<AllocFailed<T>> for Fault {
    ghost from_gives = { λ _ fault. fault ≡ Memory };

    fn from(_error: AllocFailed<T>) -> Fault {
        Fault::Memory
    }
}
