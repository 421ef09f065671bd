//! All faults of the program, numbered 1 to 31.
ghost use Rattle.std.specs.Prelude.{◌≡◌, ◌↔◌, IfSome, None, true};
ghost use Rattle.inst_options.specs.AnyFault.{any_fault_number, any_fault_name, IsNamed};
ghost use Rattle.inst_options.specs.declared.any_fault.AnyFault.{AnyFault as SomeFault};

use crate::log_fault::LogFault;
use inst_base::Fault;

/// A reason to refuse a line or to end the program.
#[derive(Clone, Copy, Debug, PartialEq, Eq)]
pub enum AnyFault {
    /// A refusal of a line or command, or a fault of a run: 1 to 18.
    Hub(Fault),
    /// A fault of a run's log: 19 to 28.
    Log(LogFault),
    /// No run in one thread was found that leaves the books of a drill's opening: 29.
    NoInterleaving,
    /// A transfer is pending, so no new chain can begin with the positions alone: 30.
    PendingTransfer,
    /// A log doesn't begin as `next` begins one from the log before it: 31.
    BrokenChain,
}

/// All faults, ordered by number.
const ALL: &'static [AnyFault] = &[
    AnyFault::Hub(Fault::NotJson),
    AnyFault::Hub(Fault::BadField),
    AnyFault::Hub(Fault::BadIdentifier),
    AnyFault::Hub(Fault::BadAmount),
    AnyFault::Hub(Fault::BadMoment),
    AnyFault::Hub(Fault::UnknownParticipant),
    AnyFault::Hub(Fault::SelfTransfer),
    AnyFault::Hub(Fault::UnknownTransfer),
    AnyFault::Hub(Fault::Duplicate),
    AnyFault::Hub(Fault::StampAhead),
    AnyFault::Hub(Fault::Expired),
    AnyFault::Hub(Fault::Full),
    AnyFault::Hub(Fault::Shortage),
    AnyFault::Hub(Fault::Memory),
    AnyFault::Hub(Fault::BadSettings),
    AnyFault::Hub(Fault::LineTooLong),
    AnyFault::Hub(Fault::ReadFault),
    AnyFault::Hub(Fault::WriteFault),
    AnyFault::Log(LogFault::DiskFault),
    AnyFault::Log(LogFault::OtherSettings),
    AnyFault::Log(LogFault::NoLog),
    AnyFault::Log(LogFault::ToldAhead),
    AnyFault::Log(LogFault::LogInUse),
    AnyFault::Log(LogFault::BadBooks),
    AnyFault::Log(LogFault::LastOpening),
    AnyFault::Log(LogFault::DamagedLog),
    AnyFault::Log(LogFault::OtherDigest),
    AnyFault::Log(LogFault::ChangedLog),
    AnyFault::NoInterleaving,
    AnyFault::PendingTransfer,
    AnyFault::BrokenChain,
];

impl AnyFault {
    /// Returns the number, as replies and fault lines show it.
    pub fn number(self) -> u8
        ensures { result ≡ any_fault_number self }
    {
        match self {
            AnyFault::Hub(fault) => fault.number(),
            AnyFault::Log(fault) => fault.number(),
            AnyFault::NoInterleaving => 29,
            AnyFault::PendingTransfer => 30,
            AnyFault::BrokenChain => 31,
        }
    }

    /// Returns the name, as replies and fault lines show it.
    pub fn name(self) -> &'static str
        ensures { result.now ≡ any_fault_name self }
    {
        match self {
            AnyFault::Hub(fault) => fault.name(),
            AnyFault::Log(fault) => fault.name(),
            AnyFault::NoInterleaving => "NoInterleaving",
            AnyFault::PendingTransfer => "PendingTransfer",
            AnyFault::BrokenChain => "BrokenChain",
        }
    }
}

/// Returns the fault with this name or number, or `None` if there is none. A number is decimal
/// digits, which may follow a plus sign.
///
/// ```text
/// fault_of("13")       // Some(AnyFault::Hub(Fault::Shortage))
/// fault_of("Shortage") // the same
/// fault_of("32")       // None
/// ```
pub fn fault_of(word: &str) -> Option<AnyFault>
    ensures named { IfSome result (λ fault. IsNamed word.now fault) }
    ensures none { result ≡ None → (fault : SomeFault) → ¬ IsNamed word.now fault }
{
    for fault in ALL {
        if is_named(word, *fault) {
            return Some(*fault);
        }
    }
    None
}

/// Returns `true` if this word is the fault's name or number.
fn is_named(word: &str, fault: AnyFault) -> bool
    ensures { (result ≡ true) ↔ IsNamed word.now fault }
{
    word == fault.name() || word.parse::<u8>() == Ok(fault.number())
}
