//! The first lines of a log. Each digest is what `sha256sum` prints for the line before it.
use crate::comparing::same;
use inst_fixtures::{settings, settings_with};
use inst_lines::Mode;
use inst_logged::{Version, first_batch};
use inst_settings::Settings;
use std::process::Abort;
use std::test::Fail;

/// The header of a run of the worked rows.
const RUN: &str =
    "{\"ahead\":1000,\"base\":0,\"ceiling\":99999999999,\"fundings\":4,\"limit\":10000,\
    \"log\":\"run\",\"margin\":0,\"participants\":[\"AAAADEFF\",\"BBBBFRPP\",\"CCCCITMM\"],\
    \"places\":2,\"version\":2}\n\
    {\u{1}{4d057f65c67e3ab8d49d42bddbd1df7e96c7bcde51e68810333a5d2c2568ac2d\n\0";

/// The header of a play with other places and another margin.
const PLAY: &str =
    "{\"ahead\":1000,\"base\":0,\"ceiling\":99999999999,\"fundings\":4,\"limit\":10000,\
    \"log\":\"play\",\"margin\":250,\"participants\":[\"AAAADEFF\",\"BBBBFRPP\",\"CCCCITMM\"],\
    \"places\":1024,\"version\":2}\n\
    {\u{1}{2f7ea5dd4a415bada9bcf3e2f6283a8077bbec8a8f5752dda32b9f4f6253945a\n\0";

fn begins(
    rt: &(impl Abort + AllocGlobal),
    mode: Mode,
    settings: &Settings,
    header: &str,
) -> Result<(), Fail> {
    let heading = first_batch(rt.alloc(), Version::Two, mode, settings)?;
    same(rt, heading.batch.as_slice(), header.as_bytes());
    Ok(())
}

#[test]
fn logs_begin_with_their_settings(rt: HostRuntime) -> Result<(), Fail> {
    begins(&rt, Mode::Run, &settings(rt.alloc())?, RUN)?;
    begins(
        &rt,
        Mode::Play,
        &settings_with(rt.alloc(), 1_024, 250)?,
        PLAY,
    )
}
