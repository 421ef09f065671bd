//! Logs that must have a digest.
use crate::comparing::same_at;
use crate::logged::damage::{USES, Use, use_log};
use crate::logged::vector;
use inst_chain::Digest;
use inst_logged::LoggedError;
use inst_settings::Settings;
use std::process::Abort;
use std::test::Fail;

/// The digests of the log of three batches.
const ITS: [&str; 3] = [
    "82639397cdb3038a8a14df57915fa340b0190580d3e5c1b81e7714aff3b2c0b9",
    "fef5e841af5b1814218f2129d82071dd359c1483f181e184f14764f386f2abca",
    "0d5f61eaf5985576c2048c2d2a77b598caf566be348f75845506476b8970d7f0",
];

/// The digest of the empty text, and two texts that aren't a digest of the log: one in capital
/// letters, one with another last digit.
const OTHERS: [&str; 3] = [
    "e3b0c44298fc1c149afbf4c8996fb92427ae41e4649b934ca495991b7852b855",
    "0D5F61EAF5985576C2048C2D2A77B598CAF566BE348F75845506476B8970D7F0",
    "0d5f61eaf5985576c2048c2d2a77b598caf566be348f75845506476b8970d7f1",
];

/// The first digest without its first character.
const SHORT: &str = "2639397cdb3038a8a14df57915fa340b0190580d3e5c1b81e7714aff3b2c0b9";

/// A log of version 1 with the same settings and no line.
const UNMARKED: &[u8] =
    b"{\"ahead\":1000,\"base\":0,\"ceiling\":99999999999,\"fundings\":256,\"limit\":10000,\
    \"log\":\"run\",\"margin\":0,\"participants\":[\"AAAADEFF\",\"BBBBFRPP\",\"CCCCITMM\"],\
    \"places\":256,\"version\":1}\n\0";

/// Runs or closes the log with these bytes, which must have this digest, and checks that it is
/// unchanged.
fn outcome(
    rt: &(impl Abort + AllocGlobal),
    settings: &Settings,
    log: &[u8],
    how: Use,
    digest: &str,
) -> Result<Result<(), LoggedError>, Fail> {
    let wanted = Digest::of(digest);
    same_at(rt, digest, wanted.is_some(), true);
    let ended = use_log(rt.alloc(), settings, log, how, wanted)?;
    same_at(rt, digest, ended.log.as_slice(), log);
    let is_written = !ended.written.is_empty();
    same_at(
        rt,
        digest,
        is_written,
        ended.outcome.is_ok() && how == Use::Run,
    );
    Ok(ended.outcome)
}

/// Checks that the log has the digests `its` and none of `others`.
fn has(
    rt: &(impl Abort + AllocGlobal),
    settings: &Settings,
    log: &[u8],
    its: &[&str],
    others: &[&str],
) -> Result<(), Fail> {
    for how in USES {
        for digest in its {
            let found = outcome(rt, settings, log, how, digest)?;
            same_at(rt, (*digest, how), found.is_ok(), true);
        }
        for digest in others {
            let found = outcome(rt, settings, log, how, digest)?;
            let is_other = matches!(found, Err(LoggedError::OtherDigest));
            same_at(rt, (*digest, how), is_other, true);
        }
    }
    Ok(())
}

#[test]
fn a_log_has_the_digest_or_is_refused(rt: HostRuntime) -> Result<(), Fail> {
    let settings = vector::settings(rt.alloc())?;
    has(&rt, &settings, vector::LOG, &ITS, &OTHERS)?;
    has(&rt, &settings, b"", &[], &ITS)?;
    has(&rt, &settings, UNMARKED, &[], &ITS)
}

#[test]
fn a_digest_has_64_bytes(rt: HostRuntime) -> Result<(), Fail> {
    for text in ["", "0", SHORT] {
        same_at(&rt, text, Digest::of(text).is_none(), true);
    }
    Ok(())
}
