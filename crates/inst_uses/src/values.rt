//! Values, settings, asks, faults and codes.
ghost use Rattle.std.specs.Prelude.{◌≡◌, true, IfOk};
ghost use Rattle.inst_settings.specs.Settings.{participants};
ghost use Rattle.inst_command.specs.Ask.{ask_fits};

use inst_base::{Cents, Code, Fault, Moment};
use inst_command::{Ask, Command};
use inst_options::{Invocation, fault_of, wished};
use inst_settings::{HubParameters, Settings, parse_codes};
use std::alloc::Global;

/// Returns an amount, and whether a transfer is due by its deadline.
pub fn base() -> Result<(Cents, bool), Fault>
    ensures { IfOk result (λ r. (r.0 ≡ 20000) × (r.1 ≡ true)) }
{
    let cents = Cents::new(20_000)?; // `BadAmount` at 0
    let stamp = Moment::new(0, 1_000)?; // 1,000 ms after the base, which is 0 here
    let at = Moment::new(0, 11_000)?;
    if !stamp.has_deadline(10_000) {
        return Err(Fault::BadMoment);
    }
    let deadline = stamp.deadline(10_000); // 11,000 ms after the base
    Ok((cents, at.is_due(deadline))) // true
}

/// Returns the settings of a hub of two participants, and the number of the second.
pub fn settings(alloc: Global) -> Result<(Settings, Option<u8>), Fault>
    ensures { IfOk result (λ r. (participants r.0 ≡ 2) × (r.0.places ≡ 1024)) }
{
    let codes = vec![in alloc; Code::new("AAAADEFF")?, Code::new("BBBBFRPP")?]?;
    let numbers = HubParameters {
        places: 1_024,
        ..HubParameters::DEFAULT
    };
    let settings = Settings::check(codes, numbers)?; // or `BadSettings`
    let second = settings.index_of(&Code::new("BBBBFRPP")?);
    Ok((settings, second)) // Some(1)
}

/// Returns an ask that fits the hub.
pub fn command(settings: &Settings, who: u8, at: Moment) -> Result<Ask, Fault>
    ensures { IfOk result (λ ask. ask_fits settings.now ask ≡ true) }
{
    let command = Command::Fetch { max: 10 };
    let ask = Ask { who, command, at };
    if !ask.fits(settings) {
        return Err(Fault::BadField); // no participant has this number
    }
    Ok(ask) // the other crates' calls require an ask that fits
}

/// Returns the number of a fault and what to do about it.
pub fn faults() -> Option<(u8, &'static str)> {
    let fault = fault_of("Shortage")?; // or `fault_of("13")`
    Some((fault.number(), fault.advice())) // 13
}

/// Returns the settings of two participants, whose codes are read from a text.
pub fn participants(alloc: Global) -> Result<Settings, Fault> {
    let codes = parse_codes(alloc, b"AAAADEFF,BBBBFRPP")?; // two codes, or `BadSettings`
    Settings::check(codes, HubParameters::DEFAULT)
}

/// Returns the settings that the words of a command line choose for a run.
pub fn options(alloc: Global, words: &[String]) -> Option<Settings> {
    // The words are `run`, `--participants` and `AAAADEFF,BBBBFRPP`.
    match wished(alloc, words) {
        Ok(Invocation::Run(settings, _, _)) => Some(settings), // two participants, and the defaults
        _ => None, // another task, or an error that says why
    }
}
