//! A run writes a log, the task `log` shows it, and the task `next` makes the log of the next
//! opening.
use crate::memory_logs::{MemoryLogs, Which};
use crate::scene::{LINES, NEXT, REPLIES, RUN, run_to};
use std::test::Fail;

/// The output of the task `log` for the first log. `sha256sum` prints the digest for the bytes from
/// the first mark up to the second one.
const SHOWN: &[u8] =
    b"settings {\"ahead\":1000,\"base\":0,\"ceiling\":99999999999,\"fundings\":256,\"limit\":10000,\
    \"log\":\"run\",\"margin\":0,\"participants\":[\"AAAADEFF\",\"BBBBFRPP\",\"CCCCITMM\"],\
    \"places\":256,\"version\":2}\n\
    lines 6\n\
    digest 1780d313eb39dd9f546721740fcec8a8be9d0629917cad333181a497411d20b5\n";

/// A run with its log in the second file.
const RUN_SECOND: &str = "run --participants AAAADEFF,BBBBFRPP,CCCCITMM --log b";

/// The lines of the second opening. The transfer is submitted and confirmed again, and gets the
/// replies that it had.
const SECOND_LINES: &[u8] =
    b"{\"at\":3000,\"cents\":20000,\"cmd\":\"submit\",\"id\":\"T1\",\"stamp\":1000,\"to\":\"BBBBFRPP\",\
    \"who\":\"AAAADEFF\"}\n\
    {\"at\":3000,\"cmd\":\"confirm\",\"from\":\"AAAADEFF\",\"id\":\"T1\",\"who\":\"BBBBFRPP\"}\n\
    {\"at\":3000,\"cmd\":\"position\",\"who\":\"AAAADEFF\"}\n\
    {\"at\":3000,\"cmd\":\"position\",\"who\":\"BBBBFRPP\"}\n";

const SECOND_REPLIES: &[u8] = b"{\"deadline\":11000,\"id\":\"T1\",\"reply\":\"taken\"}\n\
    {\"from\":\"AAAADEFF\",\"id\":\"T1\",\"reply\":\"state\",\"state\":\"accepted\"}\n\
    {\"available\":30000,\"position\":30000,\"reply\":\"position\",\"reserved\":0}\n\
    {\"available\":20000,\"position\":20000,\"reply\":\"position\",\"reserved\":0}\n";

#[test]
fn the_next_log_begins_with_the_books(rt: HostRuntime) -> Result<(), Fail> {
    let mut logs = MemoryLogs::new(rt.alloc());
    run_to(&rt, &mut logs, RUN, LINES, (0, REPLIES, b""))?;
    run_to(&rt, &mut logs, "log a", b"", (0, SHOWN, b""))?;
    run_to(&rt, &mut logs, NEXT, b"", (0, b"", b""))?;
    let wanted = (0, SECOND_REPLIES, b"".as_slice());
    run_to(&rt, &mut logs, RUN_SECOND, SECOND_LINES, wanted)
}

/// The next opening with one more participant, more places and a cut-off.
const NEXT_WIDER: &str = "next --log a --to b --participants AAAADEFF,BBBBFRPP,CCCCITMM,DDDDNL2A \
    --places 512 --margin 100";

/// A run of that opening.
const RUN_WIDER: &str =
    "run --participants AAAADEFF,BBBBFRPP,CCCCITMM,DDDDNL2A --places 512 --margin 100 --log b \
    --resume";

/// A transfer to the participant that joined.
const WIDER_LINES: &[u8] =
    b"{\"at\":3000,\"cents\":100,\"cmd\":\"submit\",\"id\":\"T2\",\"stamp\":3000,\"to\":\"DDDDNL2A\",\
    \"who\":\"AAAADEFF\"}\n\
    {\"at\":3000,\"cmd\":\"confirm\",\"from\":\"AAAADEFF\",\"id\":\"T2\",\"who\":\"DDDDNL2A\"}\n\
    {\"at\":3000,\"cmd\":\"position\",\"who\":\"AAAADEFF\"}\n\
    {\"at\":3000,\"cmd\":\"position\",\"who\":\"DDDDNL2A\"}\n";

const WIDER_REPLIES: &[u8] = b"{\"deadline\":13000,\"id\":\"T2\",\"reply\":\"taken\"}\n\
    {\"from\":\"AAAADEFF\",\"id\":\"T2\",\"reply\":\"state\",\"state\":\"accepted\"}\n\
    {\"available\":29900,\"position\":29900,\"reply\":\"position\",\"reserved\":0}\n\
    {\"available\":100,\"position\":100,\"reply\":\"position\",\"reserved\":0}\n";

#[test]
fn the_next_log_has_other_settings(rt: HostRuntime) -> Result<(), Fail> {
    let mut logs = MemoryLogs::new(rt.alloc());
    run_to(&rt, &mut logs, RUN, LINES, (0, REPLIES, b""))?;
    run_to(&rt, &mut logs, NEXT_WIDER, b"", (0, b"", b""))?;
    let wanted = (0, WIDER_REPLIES, b"".as_slice());
    run_to(&rt, &mut logs, RUN_WIDER, WIDER_LINES, wanted)
}

/// A new chain under other settings: one bank leaves, another joins, and the limit is shorter.
const NEW_CHAIN: &str =
    "next --log a --to b --positions --participants DDDDNL2A,BBBBFRPP,AAAADEFF --limit 500 \
    --base 3000";

/// A run of its first log.
const RUN_CHAIN: &str =
    "run --participants DDDDNL2A,BBBBFRPP,AAAADEFF --limit 500 --base 3000 --log b --resume";

/// The old submission and its confirmation, sent again, then a new submission with the same
/// identifier.
const CHAIN_LINES: &[u8] = b"{\"at\":3000,\"cmd\":\"position\",\"who\":\"AAAADEFF\"}\n\
    {\"at\":3000,\"cmd\":\"position\",\"who\":\"BBBBFRPP\"}\n\
    {\"at\":3000,\"cmd\":\"position\",\"who\":\"DDDDNL2A\"}\n\
    {\"at\":3000,\"cents\":20000,\"cmd\":\"submit\",\"id\":\"T1\",\"stamp\":1000,\"to\":\"BBBBFRPP\",\
    \"who\":\"AAAADEFF\"}\n\
    {\"at\":3000,\"cmd\":\"confirm\",\"from\":\"AAAADEFF\",\"id\":\"T1\",\"who\":\"BBBBFRPP\"}\n\
    {\"at\":3000,\"cents\":20000,\"cmd\":\"submit\",\"id\":\"T1\",\"stamp\":3000,\"to\":\"BBBBFRPP\",\
    \"who\":\"AAAADEFF\"}\n";

const CHAIN_REPLIES: &[u8] =
    b"{\"available\":30000,\"position\":30000,\"reply\":\"position\",\"reserved\":0}\n\
    {\"available\":20000,\"position\":20000,\"reply\":\"position\",\"reserved\":0}\n\
    {\"available\":0,\"position\":0,\"reply\":\"position\",\"reserved\":0}\n\
    {\"fault\":\"BadMoment\",\"number\":5,\"reply\":\"refused\"}\n\
    {\"fault\":\"UnknownTransfer\",\"number\":8,\"reply\":\"refused\"}\n\
    {\"deadline\":3500,\"id\":\"T1\",\"reply\":\"taken\"}\n";

#[test]
fn a_new_chain_has_the_positions_alone(rt: HostRuntime) -> Result<(), Fail> {
    let mut logs = MemoryLogs::new(rt.alloc());
    run_to(&rt, &mut logs, RUN, LINES, (0, REPLIES, b""))?;
    run_to(&rt, &mut logs, NEW_CHAIN, b"", (0, b"", b""))?;
    let wanted = (0, CHAIN_REPLIES, b"".as_slice());
    run_to(&rt, &mut logs, RUN_CHAIN, CHAIN_LINES, wanted)
}

/// A new chain whose first fundings are as many as an opening has, each of the ceiling.
const FULL_CHAIN: &str = "next --log a --to b --positions --ceiling 10000 --fundings 3";

/// The first lines of its log: the base is 1 ms after the time stamp of the books.
const FULL_LOG: &[u8] =
    b"{\"ahead\":1000,\"base\":1001,\"books\":5,\"ceiling\":10000,\"fundings\":3,\"limit\":10000,\
    \"log\":\"run\",\"margin\":0,\"participants\":[\"AAAADEFF\",\"BBBBFRPP\",\"CCCCITMM\"],\
    \"places\":256,\
    \"previous\":\"1780d313eb39dd9f546721740fcec8a8be9d0629917cad333181a497411d20b5\",\"version\":2}\n\
    {\"book\":\"AAAADEFF\",\"cents\":10000,\"event\":\"funded\",\"ref\":\"CARRY 1\"}\n\
    {\"book\":\"AAAADEFF\",\"cents\":10000,\"event\":\"funded\",\"ref\":\"CARRY 2\"}\n\
    {\"book\":\"AAAADEFF\",\"cents\":10000,\"event\":\"funded\",\"ref\":\"CARRY 3\"}\n\
    {\"book\":\"BBBBFRPP\",\"cents\":10000,\"event\":\"funded\",\"ref\":\"CARRY 1\"}\n\
    {\"book\":\"BBBBFRPP\",\"cents\":10000,\"event\":\"funded\",\"ref\":\"CARRY 2\"}\n";

#[test]
fn a_position_takes_all_fundings_of_an_opening(rt: HostRuntime) -> Result<(), Fail> {
    let mut logs = MemoryLogs::new(rt.alloc());
    run_to(&rt, &mut logs, RUN, LINES, (0, REPLIES, b""))?;
    run_to(&rt, &mut logs, FULL_CHAIN, b"", (0, b"", b""))?;
    assert!(rt; logs.bytes(Which::Second).starts_with(FULL_LOG));
    Ok(())
}

/// The lines of an audit of both logs after [`NEXT`].
const AUDITED: &[u8] =
    b"a: lines 6, digest 1780d313eb39dd9f546721740fcec8a8be9d0629917cad333181a497411d20b5\n\
    b: lines 0, digest 22e60a72b53dd9b90ff9dc3f8d2ed594afc7f70204b9edb383f5705f95a70c45\n";

/// The lines of an audit of both logs after [`NEW_CHAIN`]. `sha256sum` prints the second digest for
/// the settings and the books.
const CHAIN_AUDITED: &[u8] =
    b"a: lines 6, digest 1780d313eb39dd9f546721740fcec8a8be9d0629917cad333181a497411d20b5\n\
    b: lines 0, digest 8310c73869d0ee1624d317c1d5381f1b42699d2de684553e16474de6d04db5c6\n";

#[test]
fn an_audit_finds_what_follows(rt: HostRuntime) -> Result<(), Fail> {
    let mut logs = MemoryLogs::new(rt.alloc());
    run_to(&rt, &mut logs, RUN, LINES, (0, REPLIES, b""))?;
    run_to(&rt, &mut logs, NEXT, b"", (0, b"", b""))?;
    run_to(&rt, &mut logs, "audit a b", b"", (0, AUDITED, b""))?;
    let broken = b"the log a is refused\nfault 31 BrokenChain\n".as_slice();
    run_to(&rt, &mut logs, "audit b a", b"", (2, b"", broken))?;
    run_to(&rt, &mut logs, "audit a b a", b"", (2, b"", broken))
}

#[test]
fn an_audit_finds_a_new_chain(rt: HostRuntime) -> Result<(), Fail> {
    let mut logs = MemoryLogs::new(rt.alloc());
    run_to(&rt, &mut logs, RUN, LINES, (0, REPLIES, b""))?;
    run_to(&rt, &mut logs, NEW_CHAIN, b"", (0, b"", b""))?;
    run_to(&rt, &mut logs, "audit a b", b"", (0, CHAIN_AUDITED, b""))?;
    // The first log goes on, so its digest is another.
    run_to(&rt, &mut logs, RUN, MORE_LINES, (0, MORE_REPLIES, b""))?;
    let broken = b"the log b is refused\nfault 31 BrokenChain\n".as_slice();
    run_to(&rt, &mut logs, "audit a b", b"", (2, b"", broken))
}

/// One more line of the first log, which changes no position.
const MORE_LINES: &[u8] = b"{\"at\":3000,\"cmd\":\"position\",\"who\":\"BBBBFRPP\"}\n";

const MORE_REPLIES: &[u8] =
    b"{\"available\":20000,\"position\":20000,\"reply\":\"position\",\"reserved\":0}\n";
