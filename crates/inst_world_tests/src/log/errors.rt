//! The texts of a log's errors.
use crate::comparing::tells;
use inst_log::LogError;
use std::io::{Error, ErrorKind};
use std::test::Fail;

/// Errors without a field, and their texts.
const ROWS: &[(LogError, &str)] = &[
    (LogError::Memory, "an allocation failed"),
    (
        LogError::Full,
        "the log has 2^62 bytes or more; nothing can be appended",
    ),
    (
        LogError::Write,
        "the replies could not be written; the log has their lines",
    ),
    (
        LogError::Told,
        "more replies were acknowledged than the log has",
    ),
    (
        LogError::OtherSettings,
        "the log begins with other settings; it is unchanged",
    ),
    (LogError::NoLog, "the file isn't a log; it is unchanged"),
];

#[test]
fn an_error_tells_what_went_wrong(rt: HostRuntime) -> Result<(), Fail> {
    for (error, told) in ROWS {
        tells(&rt, error, told)?;
    }
    Ok(())
}

#[test]
fn an_error_of_the_disk_tells_the_disks_own(rt: HostRuntime) -> Result<(), Fail> {
    let error = LogError::Disk(Error::from(ErrorKind::NotFound));
    tells(&rt, &error, "the disk failed: entity not found")
}
