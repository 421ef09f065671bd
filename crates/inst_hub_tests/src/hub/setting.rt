//! A submitted transfer.
ghost use Rattle.inst_hub.specs.Calls.{IsTellerOf};

use crate::asking::{SUBMITTED, play};
use inst_base::Fault;
use inst_hub::{Hub, Teller, Ticket};
use std::process::Abort;
use std::sync::Wait;

/// Funds participant 0 and submits one of its transfers, through the teller.
pub(crate) fn submitted<R: Wait + Abort>(
    rt: &R,
    hub: &Hub,
    teller: &mut Teller,
) -> Result<Ticket, Fault>
    requires { IsTellerOf hub.now teller.old }
    ensures { IsTellerOf hub.now teller.new }
{
    let ticket = play(rt, hub, teller, &SUBMITTED)?;
    ticket.ok_or(Fault::UnknownTransfer)
}
