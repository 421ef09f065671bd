//! A log of three batches, byte for byte.
use crate::comparing::same;
use crate::logged::keeping::go_on;
use inst_base::Code;
use inst_lines::Mode;
use inst_settings::{HubParameters, Settings};
use std::alloc::Global;
use std::test::Fail;

/// The log. Each digest is what `sha256sum` prints for the lines after the mark before it, with
/// that mark: `sed -n 1p`, `sed -n 2,4p` and `sed -n 5,6p`.
pub(crate) const LOG: &[u8] =
    b"{\"ahead\":1000,\"base\":0,\"ceiling\":99999999999,\"fundings\":256,\"limit\":10000,\
    \"log\":\"run\",\"margin\":0,\"participants\":[\"AAAADEFF\",\"BBBBFRPP\",\"CCCCITMM\"],\
    \"places\":256,\"version\":2}\n\
    {\x01{82639397cdb3038a8a14df57915fa340b0190580d3e5c1b81e7714aff3b2c0b9\n\
    {\"at\":0,\"cents\":50000,\"cmd\":\"fund\",\"ref\":\"F1\",\"who\":\"AAAADEFF\"}\n\
    {\"at\":1000,\"cents\":20000,\"cmd\":\"submit\",\"id\":\"T1\",\"stamp\":1000,\"to\":\"BBBBFRPP\",\
    \"who\":\"AAAADEFF\"}\n\
    {\x01{fef5e841af5b1814218f2129d82071dd359c1483f181e184f14764f386f2abca\n\
    {\x01no JSON\n\
    {\x01{0d5f61eaf5985576c2048c2d2a77b598caf566be348f75845506476b8970d7f0\n\0";

/// The lines of the second and the third batch.
const BATCHES: [&[u8]; 2] = [
    b"{\"at\":0,\"cents\":50000,\"cmd\":\"fund\",\"ref\":\"F1\",\"who\":\"AAAADEFF\"}\n\
    {\"at\":1000,\"cents\":20000,\"cmd\":\"submit\",\"id\":\"T1\",\"stamp\":1000,\"to\":\"BBBBFRPP\",\
    \"who\":\"AAAADEFF\"}\n",
    b"no JSON\n",
];

/// The replies to its lines.
pub(crate) const REPLIES: &[u8] = b"{\"ref\":\"F1\",\"reply\":\"done\"}\n\
    {\"deadline\":11000,\"id\":\"T1\",\"reply\":\"taken\"}\n\
    {\"fault\":\"NotJson\",\"number\":1,\"reply\":\"refused\"}\n";

/// Returns the log's settings.
pub(crate) fn settings(alloc: Global) -> Result<Settings, Fail> {
    let codes = [
        Code::new("AAAADEFF")?,
        Code::new("BBBBFRPP")?,
        Code::new("CCCCITMM")?,
    ];
    Ok(Settings::check(codes.to_vec(alloc)?, HubParameters::DEFAULT)?)
}

/// Returns the log of two runs with these settings, each of one batch.
pub(crate) fn made(
    alloc: Global,
    settings: &Settings,
    written: &mut Vec<u8>,
) -> Result<Vec<u8>, Fail> {
    let mut log = Vec::new(alloc);
    for input in BATCHES {
        log = go_on(alloc, Mode::Run, settings, &log, None, input, written)?;
    }
    Ok(log)
}

#[test]
fn a_log_has_these_bytes(rt: HostRuntime) -> Result<(), Fail> {
    let mut written = Vec::new(rt.alloc());
    let settings = settings(rt.alloc())?;
    let log = made(rt.alloc(), &settings, &mut written)?;
    same(&rt, log.as_slice(), LOG);
    same(&rt, written.as_slice(), REPLIES);
    Ok(())
}
