//! Statement lines as texts.
ghost use Rattle.std.specs.Prelude.{◌≡◌, true, IfOk};
ghost use Rattle.inst_settings.specs.Settings.{participants};
ghost use Rattle.inst_command.specs.LineText.{line_fits};

use crate::comparing::same;
use inst_base::{Cents, Code, Fault, Ident};
use inst_command::{Line, LineKind, line_text};
use inst_settings::{HubParameters, Settings};
use std::alloc::Global;
use std::process::Abort;

fn hub(alloc: Global) -> Result<Settings, Fault>
    ensures { IfOk result (λ s. participants s ≡ 2) }
{
    let codes = [Code::new("AAAADEFF")?, Code::new("BBBBFRPP123")?];
    Settings::check(codes.to_vec(alloc)?, HubParameters::DEFAULT)
}

/// Checks the text of a line, which has 91 columns.
fn assert_text(rt: &(impl Abort + AllocGlobal), settings: &Settings, line: &Line, wanted: &str)
    requires { line_fits settings.now line.now ≡ true }
{
    let text = line_text(rt.alloc(), settings, line).expect(rt, "a text");
    same(rt, (text.len(), text.as_str()), (91, wanted));
}

/// Checks lines of fundings, which have no other side.
fn lays_out_fundings(rt: &(impl Abort + AllocGlobal), hub: &Settings) -> Result<(), Fault>
    requires { participants hub.now ≡ 2 }
{
    let funded = Line {
        number: 1,
        kind: LineKind::Funded,
        other: None,
        id: Ident::new("F1")?,
        cents: Cents::new(50_000)?,
        position: 50_000,
    };
    let text =
        "     1 FND             F1                                        50000                50000";
    assert_text(rt, hub, &funded, text);
    let defunded = Line {
        number: 3,
        kind: LineKind::Defunded,
        other: None,
        id: Ident::new("D1")?,
        cents: Cents::new(5000)?,
        position: 25_000,
    };
    let text =
        "     3 DFD             D1                                         5000                25000";
    assert_text(rt, hub, &defunded, text);
    Ok(())
}

/// Checks lines of transfers, which have one, with all columns full.
fn lays_out_transfers(rt: &(impl Abort + AllocGlobal), hub: &Settings) -> Result<(), Fault>
    requires { participants hub.now ≡ 2 }
{
    let paid = Line {
        number: 2,
        kind: LineKind::Paid,
        other: Some(0),
        id: Ident::new("T1")?,
        cents: Cents::new(20_000)?,
        position: 30_000,
    };
    let text =
        "     2 OUT AAAADEFF    T1                                        20000                30000";
    assert_text(rt, hub, &paid, text);
    let widest = Line {
        number: 999_999,
        kind: LineKind::Received,
        other: Some(1),
        id: Ident::new("INV/2026-07 O'Brien (final) part 01")?,
        cents: Cents::new(99_999_999_999)?,
        position: u64::MAX,
    };
    let text =
        "999999 IN  BBBBFRPP123 INV/2026-07 O'Brien (final) part 01 99999999999 18446744073709551615";
    assert_text(rt, hub, &widest, text);
    Ok(())
}

#[test]
fn lays_out_lines(rt: HostRuntime) -> Result<(), Fault> {
    let hub = hub(rt.alloc())?;
    lays_out_fundings(&rt, &hub)?;
    lays_out_transfers(&rt, &hub)
}
