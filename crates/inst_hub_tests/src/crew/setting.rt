//! A desk with jobs for a hub.
ghost use Rattle.std.specs.Prelude.{◌≡◌, IfOk, length};
ghost use Rattle.inst_desk.specs.Desk.{IsHandOf, AreHandsOf};

use inst_base::Fault;
use inst_command::Ask;
use inst_desk::{Desk, Hand, Job};
use std::alloc::Global;
use std::sync::Wait;

/// Puts a job for each ask, as far as the desk has capacity.
fn put_all<R: Wait>(rt: &R, desk: &Desk, hand: &mut Hand, asks: &[Ask])
    requires { IsHandOf desk.now hand.old }
    ensures { IsHandOf desk.now hand.new }
{
    for ask in asks {
        let _ = desk.put(
            rt,
            hand,
            Job {
                number: 0,
                ask: *ask,
            },
        );
    }
}

/// Opens a desk for two jobs, with a job for each ask and so many hands.
pub(crate) fn desk<R: Wait>(
    rt: &R,
    alloc: Global,
    asks: &[Ask],
    hands: u8,
) -> Result<(Desk, Vec<Hand>), Fault>
    ensures of { IfOk result (λ r. AreHandsOf r.0 r.1.items) }
    ensures enough { IfOk result (λ r. length r.1.items ≡ hands) }
{
    let (desk, mut all) = Desk::open(alloc, 2, hands)?;
    let Some(mut hand) = all.pop() else {
        return Err(Fault::BadSettings);
    };
    put_all(rt, &desk, &mut hand, asks);
    all.push(hand)?;
    Ok((desk, all))
}
