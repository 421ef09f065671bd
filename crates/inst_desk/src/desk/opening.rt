//! Opening a desk, with its hands.
ghost use Rattle.std.specs.Prelude.{◌≡◌, ◌⊎◌, ◌↔◌, ◌<◌, ◌≤◌, [], Err, IfOk, IfErr, All, length};
ghost use Rattle.crossbeam_queue.specs.Passes.{view, IsPassOf};
ghost use Rattle.inst_desk.specs.Account.{first_account};
ghost use Rattle.inst_desk.specs.Desk.{capacity_of, AreAllHandsOf, IsNewHand, MayOpenDesk};

use super::Desk;
use crate::hand::Hand;
use crate::rule::{Dealing, DeskPass, Queue};
use inst_base::Fault;
use std::alloc::{AllocError, Global};

/// The most jobs that a desk holds.
pub const MOST_ROOM: u16 = 4_096;

/// The most hands that a desk has.
pub const MOST_HANDS: u8 = 16;

/// Makes a hand that neither put nor took.
fn new_hand(seat: DeskPass) -> Hand
    requires { ((view seat).put ≡ []) × ((view seat).taken ≡ []) }
    ensures { result.seat ≡ seat }
{
    Hand {
        seat,
        puts: 0,
        takes: 0,
    }
}

impl Desk {
    /// Makes so many hands, the last with this seat. Together they have all parts.
    fn hands(&self, alloc: Global, seat: DeskPass, hands: u8) -> Result<Vec<Hand>, AllocError>
        requires on { IsPassOf self.now.queue seat }
        requires first { view seat ≡ first_account }
        requires hands { (0 < hands) × (hands ≤ MOST_HANDS) }
        ensures enough { IfOk result (λ all. length all.items ≡ hands) }
        ensures all { IfOk result (λ all. AreAllHandsOf self.now all.items) }
        ensures new { IfOk result (λ all. All IsNewHand all.items) }
    {
        let mut seat = seat;
        let mut all = Vec::new(alloc);
        for _number in 1..hands {
            let new = self.queue.another::<Dealing>(&mut seat);
            all.push(new_hand(new))?;
        }
        all.push(new_hand(seat))?;
        Ok(all)
    }

    /// Opens a desk for up to `capacity` jobs, 1 to 4,096, with 1 to 16 hands.
    ///
    /// # Errors
    ///
    /// `BadSettings` exactly if one of these numbers is out of range; [`Memory`](Fault::Memory) if
    /// allocation fails.
    pub fn open(alloc: Global, capacity: u16, hands: u8) -> Result<(Desk, Vec<Hand>), Fault>
        ensures capacity { IfOk result (λ r. capacity_of r.0 ≡ capacity) }
        ensures enough { IfOk result (λ r. length r.1.items ≡ hands) }
        ensures all { IfOk result (λ r. AreAllHandsOf r.0 r.1.items) }
        ensures new { IfOk result (λ r. All IsNewHand r.1.items) }
        ensures bad { (result ≡ Err Fault.BadSettings) ↔ ¬ MayOpenDesk capacity hands }
        ensures only { IfErr result (λ e. (e ≡ Fault.Memory) ⊎ (e ≡ Fault.BadSettings)) }
    {
        if capacity == 0 || capacity > MOST_ROOM || hands == 0 || hands > MOST_HANDS {
            return Err(Fault::BadSettings);
        }
        let room = usize::from(capacity);
        let left = Vec::with_capacity(alloc, room)?;
        let (queue, seat) = Queue::ruled(alloc, room)?;
        let desk = Desk { queue, left };
        let all = desk.hands(alloc, seat, hands)?;
        Ok((desk, all))
    }
}
