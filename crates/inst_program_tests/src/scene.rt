//! The lines of one hub, and runs of the program with logs in memory.
ghost use Rattle.std.specs.Prelude.{◌≡◌, None};

use crate::memory_logs::MemoryLogs;
use inst_program::{Console, program};
use std::io::Read;
use std::process::Abort;
use std::sync::Wait;
use std::test::Fail;
use std::thread::Threads;

/// A run with its log in the first file.
pub(crate) const RUN: &str = "run --participants AAAADEFF,BBBBFRPP,CCCCITMM --log a";

/// The next opening, whose log is the second file.
pub(crate) const NEXT: &str = "next --log a --to b";

/// The lines of a transfer that is accepted, and one line that is refused.
pub(crate) const LINES: &[u8] =
    b"{\"at\":0,\"cents\":50000,\"cmd\":\"fund\",\"ref\":\"F1\",\"who\":\"AAAADEFF\"}\n\
    {\"at\":1000,\"cents\":20000,\"cmd\":\"submit\",\"id\":\"T1\",\"stamp\":1000,\"to\":\"BBBBFRPP\",\
    \"who\":\"AAAADEFF\"}\n\
    {\"at\":1500,\"cmd\":\"fetch\",\"max\":10,\"who\":\"BBBBFRPP\"}\n\
    no JSON\n\
    {\"at\":2000,\"cmd\":\"confirm\",\"from\":\"AAAADEFF\",\"id\":\"T1\",\"who\":\"BBBBFRPP\"}\n\
    {\"at\":2100,\"cmd\":\"position\",\"who\":\"BBBBFRPP\"}\n";

/// The replies to them.
pub(crate) const REPLIES: &[u8] = b"{\"ref\":\"F1\",\"reply\":\"done\"}\n\
    {\"deadline\":11000,\"id\":\"T1\",\"reply\":\"taken\"}\n\
    {\"entries\":[{\"cents\":20000,\"deadline\":11000,\"from\":\"AAAADEFF\",\"id\":\"T1\"}],\"reply\":\"inbox\"}\n\
    {\"fault\":\"NotJson\",\"number\":1,\"reply\":\"refused\"}\n\
    {\"from\":\"AAAADEFF\",\"id\":\"T1\",\"reply\":\"state\",\"state\":\"accepted\"}\n\
    {\"available\":20000,\"position\":20000,\"reply\":\"position\",\"reserved\":0}\n";

/// The exit status of the program, and its outputs.
#[derive(Drop)]
pub(crate) struct EndedRun {
    pub(crate) status: u8,
    pub(crate) output: Vec<u8>,
    pub(crate) errors: Vec<u8>,
}

/// Runs the program on these logs. `words` are its arguments, separated by spaces.
pub(crate) fn run<H: Threads + Wait + Sync + AllocGlobal, R: Read + Drop>(
    rt: &H,
    logs: &mut MemoryLogs,
    words: &str,
    reader: R,
) -> Result<EndedRun, Fail>
    requires { logs.old.out ≡ None }
    ensures { logs.new.out ≡ None }
{
    let mut all = Vec::new(rt.alloc());
    all.push(String::from_str(rt.alloc(), "inst_main")?)?;
    for word in words.split(' ') {
        all.push(String::from_str(rt.alloc(), word)?)?;
    }
    let mut console = Console {
        reader,
        writer: Vec::new(rt.alloc()),
        errors: Vec::new(rt.alloc()),
        is_watched: false,
    };
    let status = program(rt, logs, all, &mut console);
    let Console { writer, errors, .. } = console;
    Ok(EndedRun {
        status,
        output: writer,
        errors,
    })
}

/// Runs the program, and compares its status and outputs.
pub(crate) fn run_to<H: Threads + Wait + Sync + AllocGlobal + Abort>(
    rt: &H,
    logs: &mut MemoryLogs,
    words: &str,
    input: &[u8],
    wanted: (u8, &[u8], &[u8]),
) -> Result<(), Fail>
    requires { logs.old.out ≡ None }
    ensures { logs.new.out ≡ None }
{
    let ended = run(rt, logs, words, input)?;
    let found = (
        ended.status,
        ended.output.as_slice(),
        ended.errors.as_slice(),
    );
    assert_eq!(rt; (words, found), (words, wanted));
    Ok(())
}
