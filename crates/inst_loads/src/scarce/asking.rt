//! Commands at a hub for many threads.
ghost use Rattle.inst_hub.specs.Calls.{IsTellerOf, TellerKnowsMore};

use crate::flaw::Flaw;
use crate::told::{RaceReply, is_reply};
use inst_base::Fault;
use inst_command::Step;
use inst_hub::{Hub, Teller, Ticket};
use std::sync::Wait;

/// Returns `true` if there is a ticket exactly if the expected reply concerns a transfer.
fn is_ticketed(ticket: &Option<Ticket>, wanted: RaceReply) -> bool {
    match wanted {
        RaceReply::Taken(..) | RaceReply::Accepted(..) | RaceReply::TimedOut(..) =>
            ticket.is_some(),
        RaceReply::Done(_) | RaceReply::Position(..) | RaceReply::New(_) => ticket.is_none(),
    }
}

/// Asks, and returns the ticket, if there is one. Fails with `OtherAnswer` if the reply isn't the
/// expected one.
pub(crate) fn ask_and_compare<R: Wait>(
    rt: &R,
    hub: &Hub,
    teller: &mut Teller,
    step: &Step,
    wanted: RaceReply,
) -> Result<Option<Ticket>, Flaw>
    requires { IsTellerOf hub.now teller.old }
    ensures of { IsTellerOf hub.now teller.new }
    ensures knows { TellerKnowsMore teller.old teller.new }
{
    let Step::Ask(ask) = step else {
        return Err(Flaw::Refused(Fault::BadField));
    };
    if !ask.fits(hub.settings()) {
        return Err(Flaw::Refused(Fault::BadField));
    }
    match hub.call(rt, teller, ask) {
        Ok((reply, ticket)) => {
            if !is_reply(&reply, wanted) || !is_ticketed(&ticket, wanted) {
                return Err(Flaw::OtherAnswer);
            }
            Ok(ticket)
        }
        Err(_) => Err(Flaw::Refused(Fault::Memory)),
    }
}
