//! A drill writes its script only to a file that is new or empty.
use crate::memory_logs::{MemoryLogs, Which};
use crate::scene::{LINES, REPLIES, RUN, run, run_to};
use std::test::Fail;

/// A drill whose script goes to the second file.
const DRILL: &str = "drill --participants AAAADEFF,BBBBFRPP --transfers 2 --script b";

/// A drill whose script would go to the first file.
const DRILL_TO_A_LOG: &str = "drill --participants AAAADEFF,BBBBFRPP --transfers 2 --script a";

const DRILLED: &[u8] = b"jobs 4 answered 4\ndecided 2\ndisagree 0\nnet 200 sum 200\n";

const NOT_EMPTY: &[u8] = b"error: the file that --script names is not empty; name a new one\n";

/// The number of events in the books: a funding, and for each transfer the submission, the
/// forwarding, and an outcome on both sides.
const EVENTS: usize = 9;

#[test]
fn a_script_goes_to_a_new_file_alone(rt: HostRuntime) -> Result<(), Fail> {
    let mut logs = MemoryLogs::new(rt.alloc());
    run_to(&rt, &mut logs, RUN, LINES, (0, REPLIES, b""))?;
    let log = logs.bytes(Which::First).to_vec(rt.alloc())?;
    run_to(&rt, &mut logs, DRILL_TO_A_LOG, b"", (2, b"", NOT_EMPTY))?;
    assert_eq!(rt; logs.bytes(Which::First), log.as_slice());
    let mut reader = b"".as_slice();
    let drilled = run(&rt, &mut logs, DRILL, reader)?;
    assert_eq!(rt; (drilled.status, drilled.output.as_slice()), (0, DRILLED));
    let script = logs.bytes(Which::Second).to_vec(rt.alloc())?;
    let lines = script.iter().filter(|byte| **byte == b'\n').count();
    assert_eq!(rt; lines, EVENTS);
    run_to(&rt, &mut logs, DRILL, b"", (2, b"", NOT_EMPTY))?;
    assert_eq!(rt; logs.bytes(Which::Second), script.as_slice());
    Ok(())
}
