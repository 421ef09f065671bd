//! The texts of the errors of a hub with a log.
use crate::comparing::tells;
use inst_chain::{ChainError, Prefix};
use inst_log::LogError;
use inst_logged::LoggedError;
use std::test::Fail;

/// Errors and their texts. An error of the log has the log's text.
const ROWS: &[(LoggedError, &str)] = &[
    (
        LoggedError::Log(LogError::NoLog),
        "the file isn't a log; it is unchanged",
    ),
    (LoggedError::Read, "reading the input failed"),
    (
        LoggedError::Books,
        "a hub can't open from the books after the log's settings",
    ),
    (
        LoggedError::Damaged(Prefix {
            lines: 5,
            bytes: 470,
        }),
        "the log is damaged after line 5, byte 470",
    ),
    (
        LoggedError::OtherDigest,
        "the log doesn't contain the digest that was asked for",
    ),
    (
        LoggedError::Changed,
        "the log was changed by another program",
    ),
];

#[test]
fn an_error_tells_what_went_wrong(rt: HostRuntime) -> Result<(), Fail> {
    for (error, told) in ROWS {
        tells(&rt, error, told)?;
    }
    Ok(())
}

#[test]
fn an_error_of_a_chain_tells_the_same(rt: HostRuntime) -> Result<(), Fail> {
    tells(
        &rt,
        &ChainError::Log(LogError::NoLog),
        "the file isn't a log; it is unchanged",
    )?;
    let right = Prefix {
        lines: 5,
        bytes: 470,
    };
    tells(
        &rt,
        &ChainError::Damaged(right),
        "the log is damaged after line 5, byte 470",
    )
}
