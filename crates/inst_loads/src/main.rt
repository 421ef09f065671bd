//! Loads and stresses of a hub for many threads, races of slots over shared boards, and worked rows
//! with allocation failures. `--help` prints the command line. The result is printed on standard
//! error. The exit status is 0, or 1 if something is wrong, or 2 for wrong words.
#![tactic(auto)]

mod flaw;
mod hoard;
mod hub;
mod load;
mod race;
mod scarce;
mod stress;
mod told;
mod words;

use flaw::{Failure, Flaw};
use load::rounds::rounds;
use race::rounds::{EndedRace, races};
use race::rows::failed;
use scarce::run_apart;
use scarce::want::Tries;
use std::alloc::Global;
use std::env;
use std::io::Write;
use std::process::ExitCode;
use stress::play_apart;
use stress::tally::StressTally;
use words::{HELP, Task};

fn main(rt: HostRuntime) -> ExitCode {
    let alloc = rt.alloc();
    match task(&rt, alloc) {
        None => ExitCode::from(2),
        Some(Task::Help) => help(&rt),
        Some(Task::Load(load, count)) => tell_load(&rt, &rounds(&rt, alloc, load, count)),
        Some(Task::Stress(stress)) => tell_stress(&rt, &play_apart(&rt, alloc, stress)),
        Some(Task::Races(count)) => tell_races(&rt, races(&rt, alloc, count)),
        Some(Task::RaceRows) => tell_rows(&rt, failed(alloc)),
        Some(Task::Scarce) => tell_scarce(&rt, &run_apart(&rt, alloc)),
    }
}

/// Returns the task that the command line asks for, or `None`.
fn task(rt: &HostRuntime, alloc: Global) -> Option<Task> {
    let words: Vec<String> = env::args(rt).ok()?.collect::<Vec<_>>(alloc).ok()?;
    Task::of(&words)
}

/// Prints the help.
fn help(rt: &HostRuntime) -> ExitCode {
    match rt.stdout().write_all(HELP.as_bytes()) {
        Ok(()) => ExitCode::from(0),
        Err(_) => ExitCode::from(1),
    }
}

/// Prints how many transfers a load settled, or its failure.
fn tell_load(rt: &HostRuntime, ended: &Result<u64, Failure>) -> ExitCode {
    match ended {
        Ok(settled) => {
            let _ = writeln!(rt.stderr(), "settled {settled}");
            ExitCode::from(0)
        }
        Err(failure) => tell_failure(rt, failure),
    }
}

/// Prints how the transfers of a stress ended, or its failure.
fn tell_stress(rt: &HostRuntime, ended: &Result<StressTally, Failure>) -> ExitCode {
    match ended {
        Ok(tally) => {
            let _ = writeln!(rt.stderr(), "{tally}");
            ExitCode::from(0)
        }
        Err(failure) => tell_failure(rt, failure),
    }
}

fn tell_failure(rt: &HostRuntime, failure: &Failure) -> ExitCode {
    let _ = writeln!(rt.stderr(), "{failure}");
    ExitCode::from(1)
}

/// Prints how the transfers of all races ended, if none failed.
fn tell_races(rt: &HostRuntime, ended: Option<EndedRace>) -> ExitCode {
    match ended {
        Some(ended) => {
            let _ = writeln!(
                rt.stderr(),
                "accepted {}, timed out {}",
                ended.accepted,
                ended.timed_out
            );
            ExitCode::from(0)
        }
        None => ExitCode::from(1),
    }
}

/// Prints which worked row failed, if one did.
fn tell_rows(rt: &HostRuntime, failed: Option<&str>) -> ExitCode {
    match failed {
        None => ExitCode::from(0),
        Some(name) => {
            let _ = writeln!(rt.stderr(), "{name} failed");
            ExitCode::from(1)
        }
    }
}

/// Prints how many calls succeeded, how often one failed to allocate, and the first flaw, if any.
fn tell_scarce(rt: &HostRuntime, ended: &(Option<Flaw>, Tries)) -> ExitCode {
    let (flaw, tries) = ended;
    let _ = writeln!(
        rt.stderr(),
        "answered {}, refused {} times",
        tries.answered,
        tries.refused
    );
    match flaw {
        None => ExitCode::from(0),
        Some(flaw) => {
            let _ = writeln!(rt.stderr(), "{flaw}");
            ExitCode::from(1)
        }
    }
}
