//! The program: passes the words of its command line, the standard streams and the machine's files
//! to `inst_program`, and exits with the status that it returns.
#![tactic(auto)]

mod host_logs;

use host_logs::HostLogs;
use inst_program::{Console, program, words_failed};
use std::env;
use std::io::IsTerminal;
use std::process::ExitCode;

fn main(rt: HostRuntime) -> ExitCode {
    let alloc = rt.alloc();
    let mut errors = rt.stderr();
    let words = match env::args(&rt).and_then(|words| Ok(words.collect::<Vec<_>>(alloc)?)) {
        Ok(words) => words,
        Err(error) => return ExitCode::from(words_failed(&error, &mut errors)),
    };
    let is_watched = errors.is_terminal();
    let mut console = Console {
        reader: rt.stdin(),
        writer: rt.stdout(),
        errors,
        is_watched,
    };
    let mut logs = HostLogs::new(&rt);
    ExitCode::from(program(&rt, &mut logs, words, &mut console))
}
