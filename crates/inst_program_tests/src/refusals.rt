//! Logs that are refused and left unchanged.
ghost use Rattle.std.specs.Prelude.{◌≡◌, None};

use crate::memory_logs::{MemoryLogs, Which};
use crate::scene::{LINES, NEXT, REPLIES, RUN, run_to};
use std::process::Abort;
use std::sync::Wait;
use std::test::Fail;
use std::thread::Threads;

/// A run that must find its log.
const RESUME: &str = "run --participants AAAADEFF,BBBBFRPP,CCCCITMM --log a --resume";

const NO_LOG: &[u8] = b"fault 21 NoLog\n";

#[test]
fn a_log_that_is_not_there_is_not_made(rt: HostRuntime) -> Result<(), Fail> {
    let mut logs = MemoryLogs::new(rt.alloc());
    run_to(&rt, &mut logs, RESUME, LINES, (2, b"", NO_LOG))?;
    assert!(rt; !logs.is_made(Which::First));
    Ok(())
}

#[test]
fn an_empty_log_stays_empty(rt: HostRuntime) -> Result<(), Fail> {
    let mut logs = MemoryLogs::new(rt.alloc());
    logs.put_first(b"")?;
    run_to(&rt, &mut logs, RESUME, LINES, (2, b"", NO_LOG))?;
    assert!(rt; logs.bytes(Which::First).is_empty());
    Ok(())
}

/// Runs a task that refuses the damaged log. It leaves the log unchanged and makes no second one.
fn is_refused<H: Threads + Wait + Sync + AllocGlobal + Abort>(
    rt: &H,
    logs: &mut MemoryLogs,
    words: &str,
    errors: &[u8],
    damaged: &[u8],
) -> Result<(), Fail>
    requires { logs.old.out ≡ None }
    ensures { logs.new.out ≡ None }
{
    run_to(rt, logs, words, LINES, (2, b"", errors))?;
    assert_eq!(rt; logs.bytes(Which::First), damaged);
    assert!(rt; !logs.is_made(Which::Second));
    Ok(())
}

/// The position of the first line's amount in a log. The settings and their mark are 241 bytes.
const AMOUNT: usize = 241 + 16;

#[test]
fn a_damaged_log_stays_as_it_is(rt: HostRuntime) -> Result<(), Fail> {
    let mut logs = MemoryLogs::new(rt.alloc());
    run_to(&rt, &mut logs, RUN, LINES, (0, REPLIES, b""))?;
    let mut damaged = logs.bytes(Which::First).to_vec(rt.alloc())?;
    assert_eq!(rt; damaged.get(AMOUNT), Some(&b'5'));
    if let Some(byte) = damaged.get_mut(AMOUNT) {
        *byte = b'6';
    }
    logs.put_first(&damaged)?;
    let errors = b"the log is damaged after line 2, byte 241\nfault 26 DamagedLog\n";
    is_refused(&rt, &mut logs, RUN, errors, &damaged)?;
    is_refused(&rt, &mut logs, "log a", errors, &damaged)?;
    is_refused(&rt, &mut logs, NEXT, errors, &damaged)
}

/// Changes that the books of the lines don't allow, with the option that is named.
const UNFIT: &'static [(&'static str, &'static str)] = &[
    ("--participants BBBBFRPP,AAAADEFF,CCCCITMM", "participants"),
    ("--participants AAAADEFF,BBBBFRPP", "participants"),
    (
        "--participants AAAADEFF,BBBBFRPP,CCCCITMM,CCCCITMM",
        "participants",
    ),
    ("--places 0", "places"),
    ("--places 65537", "places"),
    ("--fundings 1025", "fundings"),
    ("--limit 9999", "limit"),
    ("--margin 10000", "margin"),
    ("--margin 10 --ceiling 19999", "ceiling"),
    ("--limit 100 --margin 50 --places 2", "limit"),
    ("--base 1", "base"),
    ("--positions --base 1000", "base"),
    ("--positions --base 4611686018427387905", "base"),
    (
        "--positions --participants AAAADEFF,CCCCITMM",
        "participants",
    ),
    ("--positions --places 0", "places"),
    ("--positions --limit 100 --margin 100", "margin"),
    ("--positions --ceiling 9999 --fundings 3", "fundings"),
    ("--positions --ceiling 10000 --fundings 2", "fundings"),
];

/// The lines of a transfer that stays pending.
const PENDING: &[u8] =
    b"{\"at\":0,\"cents\":50000,\"cmd\":\"fund\",\"ref\":\"F1\",\"who\":\"AAAADEFF\"}\n\
    {\"at\":1000,\"cents\":20000,\"cmd\":\"submit\",\"id\":\"T1\",\"stamp\":1000,\"to\":\"BBBBFRPP\",\
    \"who\":\"AAAADEFF\"}\n";

#[test]
fn a_pending_transfer_is_not_carried_into_a_new_chain(rt: HostRuntime) -> Result<(), Fail> {
    let mut logs = MemoryLogs::new(rt.alloc());
    let replies = b"{\"ref\":\"F1\",\"reply\":\"done\"}\n\
        {\"deadline\":11000,\"id\":\"T1\",\"reply\":\"taken\"}\n";
    run_to(&rt, &mut logs, RUN, PENDING, (0, replies, b""))?;
    let log = logs.bytes(Which::First).to_vec(rt.alloc())?;
    let words = format!(in rt.alloc(); "{NEXT} --positions")?;
    let errors = b"the transfer 'T1' of AAAADEFF is pending; its deadline is 11000\n\
        fault 30 PendingTransfer\n";
    run_to(&rt, &mut logs, &words, b"", (2, b"", errors))?;
    assert_eq!(rt; logs.bytes(Which::First), log.as_slice());
    assert!(rt; !logs.is_made(Which::Second));
    Ok(())
}

#[test]
fn a_change_that_the_books_do_not_allow_is_named(rt: HostRuntime) -> Result<(), Fail> {
    let mut logs = MemoryLogs::new(rt.alloc());
    run_to(&rt, &mut logs, RUN, LINES, (0, REPLIES, b""))?;
    let log = logs.bytes(Which::First).to_vec(rt.alloc())?;
    for (options, name) in UNFIT {
        let words = format!(in rt.alloc(); "{NEXT} {options}")?;
        let errors = format!(in rt.alloc();
            "fault 15 BadSettings\nthe log and its books don't allow this --{name}\n"
        )?;
        run_to(&rt, &mut logs, &words, b"", (2, b"", errors.as_bytes()))?;
        assert_eq!(rt; logs.bytes(Which::First), log.as_slice());
        assert!(rt; !logs.is_made(Which::Second));
    }
    Ok(())
}
