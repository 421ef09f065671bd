//! Faults and the words that name them.
use crate::comparing::{same, same_at};
use inst_base::Fault;
use inst_command::{Reply, refusals_told};
use inst_options::{AnyFault, LogFault, excerpt, fault_of};
use std::test::Fail;

const WORDS: &[(&str, Option<AnyFault>)] = &[
    ("1", Some(AnyFault::Hub(Fault::NotJson))),
    ("13", Some(AnyFault::Hub(Fault::Shortage))),
    ("Shortage", Some(AnyFault::Hub(Fault::Shortage))),
    ("19", Some(AnyFault::Log(LogFault::DiskFault))),
    ("28", Some(AnyFault::Log(LogFault::ChangedLog))),
    ("ChangedLog", Some(AnyFault::Log(LogFault::ChangedLog))),
    ("29", Some(AnyFault::NoInterleaving)),
    ("30", Some(AnyFault::PendingTransfer)),
    ("31", Some(AnyFault::BrokenChain)),
    ("0", None),
    ("32", None),
    ("269", None),
    ("shortage", None),
    ("", None),
];

/// Each fault is found by its number and by its name, and no other word finds one.
#[test]
fn faults_are_found_by_number_and_by_name(rt: HostRuntime) {
    for (word, wanted) in WORDS {
        same_at(&rt, *word, fault_of(word), *wanted);
    }
}

const EXCERPTS: &[(&[u8], &str)] = &[
    (b"", ""),
    (b"{\"base\":0} ~", "{\"base\":0} ~"),
    (b"\x1b[2J\n\x7f", "\\x1b[2J\\x0a\\x7f"),
    (b"\xc2\x9b\\", "\\xc2\\x9b\\x5c"),
];

/// An excerpt has no control character, and ends with two points if the text has more than 200
/// bytes.
#[test]
fn excerpts_are_printable(rt: HostRuntime) -> Result<(), Fail> {
    for (bytes, wanted) in EXCERPTS {
        same(&rt, excerpt(rt.alloc(), *bytes)?.as_str(), *wanted);
    }
    let most = [b'a'; 200];
    let more = [b'a'; 201];
    let all = excerpt(rt.alloc(), &most)?;
    let part = excerpt(rt.alloc(), &more)?;
    same(&rt, all.as_bytes(), &most);
    same(
        &rt,
        part.as_bytes(),
        format!(in rt.alloc(); "{}..", all)?.as_bytes(),
    );
    Ok(())
}

/// Returns the fault of the reply to a refusal for this fault, or `None` if it has no reply.
fn told(fault: Fault) -> Option<Option<Fault>> {
    match &refusals_told(Err(fault)) {
        Ok(Reply::Refused(fault)) => Some(Some(*fault)),
        Ok(_) => Some(None),
        Err(_) => None,
    }
}

/// A refusal becomes a reply, and an allocation failure doesn't.
#[test]
fn refusals_are_told(rt: HostRuntime) {
    same(&rt, told(Fault::Full), Some(Some(Fault::Full)));
    same(&rt, told(Fault::Memory), None);
}
