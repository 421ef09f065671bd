//! The most lines that a run answers, and one byte more.
use crate::comparing::same;
use crate::lines::serving::NOT_JSON;
use inst_base::Fault;
use inst_fixtures::settings;
use inst_lines::{Counts, run_lines};
use inst_settings::Settings;
use std::io::{self, Write};
use std::process::Abort;
use std::test::Fail;

/// The length of a refusal with its newline, in bytes.
const REFUSAL_BYTES: usize = 49;

/// A writer that compares each byte with those of refusals, and stores none.
#[derive(Drop)]
struct Refusals {
    taken: usize,
    right: usize,
}

impl Write for Refusals {
    fn write(&mut self, buf: &[u8]) -> io::Result<usize> {
        for byte in buf {
            let at = self.taken % REFUSAL_BYTES;
            if byte == NOT_JSON.as_bytes().get(at).unwrap_or(&b'\n') {
                self.right = self.right.saturating_add(1);
            }
            self.taken = self.taken.saturating_add(1);
        }
        Ok(buf.len())
    }

    fn flush(&mut self) -> io::Result<()> {
        Ok(())
    }
}

/// Compares the result of a run over `count` newlines, and what is written.
fn ends(
    rt: &(impl Abort + AllocGlobal),
    settings: &Settings,
    newlines: &[u8],
    expected: Result<Counts, Fault>,
) {
    let mut reader = newlines;
    let mut writer = Refusals { taken: 0, right: 0 };
    let outcome = run_lines(rt.alloc(), settings, &mut reader, &mut writer);
    same(rt, outcome, expected);
    let all = 1_000_000 * REFUSAL_BYTES;
    same(rt, (writer.taken, writer.right), (all, all));
}

#[test]
fn a_million_newlines(rt: HostRuntime) -> Result<(), Fail> {
    let settings = settings(rt.alloc())?;
    let mut input = Vec::new(rt.alloc());
    input.resize(1_000_001, b'\n')?;
    let all = Counts {
        lines: 1_000_000,
        refused: 1_000_000,
    };
    for (len, expected) in [(1_000_000, Ok(all)), (1_000_001, Err(Fault::ReadFault))] {
        ends(&rt, &settings, &input[..len], expected);
    }
    Ok(())
}
