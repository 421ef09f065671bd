//! The last of a hub's tellers, and scripts that it plays.
ghost use Rattle.std.specs.Prelude.{◌≡◌, ◌+◌, IfOk, length};
ghost use Rattle.inst_hub.specs.Calls.{IsTellerOf, AreOf};

use crate::asking::{ScriptLine, play};
use inst_base::Fault;
use inst_hub::{Hub, Teller};
use std::process::Abort;
use std::sync::Wait;

/// Returns the last of these tellers.
pub(crate) fn last(hub: &Hub, tellers: &mut Vec<Teller>) -> Result<Teller, Fault>
    requires { AreOf hub.now tellers.old.items }
    ensures last { IfOk result (λ teller. IsTellerOf hub.now teller) }
    ensures rest { AreOf hub.now tellers.new.items }
    ensures one_less { IfOk result (λ teller.
        length tellers.new.items + 1 ≡ length tellers.old.items) }
{
    match tellers.pop() {
        Some(teller) => Ok(teller),
        None => Err(Fault::BadSettings),
    }
}

/// Returns the last two of these tellers.
pub(crate) fn last_two(hub: &Hub, tellers: &mut Vec<Teller>) -> Result<(Teller, Teller), Fault>
    requires { AreOf hub.now tellers.old.items }
    ensures last { IfOk result (λ two. IsTellerOf hub.now two.0 × IsTellerOf hub.now two.1) }
    ensures rest { AreOf hub.now tellers.new.items }
{
    let second = last(hub, tellers)?;
    let first = last(hub, tellers)?;
    Ok((first, second))
}

/// Returns the hub with the last of its tellers.
pub(crate) fn with_teller(opened: (Hub, Vec<Teller>)) -> Result<(Hub, Teller), Fault>
    requires { AreOf opened.0 opened.1.items }
    ensures { IfOk result (λ r. IsTellerOf r.0 r.1) }
{
    let (hub, mut tellers) = opened;
    let teller = last(&hub, &mut tellers)?;
    Ok((hub, teller))
}

/// Plays the lines at a hub, through the last of its tellers.
pub(crate) fn played<R: Wait + Abort>(
    rt: &R,
    opened: (Hub, Vec<Teller>),
    lines: &[ScriptLine<'_>],
) -> Result<(), Fault>
    requires { AreOf opened.0 opened.1.items }
{
    let (hub, mut teller) = with_teller(opened)?;
    play(rt, &hub, &mut teller, lines)?;
    Ok(())
}
