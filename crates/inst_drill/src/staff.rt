//! The staff of an opening: two hands with a teller each, one hand that puts the jobs, and one
//! teller that sweeps.
ghost use Rattle.std.specs.Prelude.{◌≡◌, length, IfOk, OnOk};
ghost use Rattle.inst_desk.specs.Desk.{AreAllHandsOf};
ghost use Rattle.inst_hub.specs.Calls.{AreOf};
ghost use Rattle.inst_hub.specs.Opening.{HaveAllParts};
ghost use Rattle.inst_crew.specs.Later.{Pairs, IsLaterTeller};
ghost use Rattle.inst_crew.specs.Seen.{AreSeenByOne};
ghost use Rattle.inst_drill.specs.inner.Plan.{IsPlan};
ghost use Rattle.inst_drill.specs.inner.Staff.{IsStaffOf, tellers_of};

use crate::feeding::{Phase, feed};
use crate::plan::Plan;
use crate::round::Round;
use inst_command::State;
use inst_crew::{Team, Workplace, run_crew};
use inst_desk::{Desk, Hand};
use inst_hub::{Gate, Hub, Teller, Ticket};
use std::alloc::{AllocError, Global};
use std::sync::Wait;
use std::thread::Threads;

/// How many hands the desk has, and how many tellers the hub.
pub(crate) const STAFF: u8 = 3;

/// The hands and tellers of an opening.
#[derive(Drop)]
pub(crate) struct Staff {
    /// Puts the jobs.
    feeder: Hand,
    /// Take the jobs, one hand in each thread.
    hands: Vec<Hand>,
    /// Sweeps participant 0.
    sweeper: Teller,
    /// One for each of the taking hands.
    tellers: Vec<Teller>,
}

/// What was done in a phase of an opening.
#[derive(Drop)]
pub(crate) struct Work {
    /// The staff afterwards.
    pub(crate) staff: Staff,
    /// How many jobs were answered.
    pub(crate) answered: u64,
    /// The state of the transfer of each ticket.
    pub(crate) states: Vec<(Ticket, State)>,
}

impl Staff {
    /// Makes the staff: the last hand feeds, the last teller sweeps, and the others work.
    pub(crate) fn of(hub: &Hub, desk: &Desk, hands: Vec<Hand>, tellers: Vec<Teller>) -> Staff
        requires hands { AreAllHandsOf desk.now hands.items × (length hands.items ≡ 3) }
        requires tellers { AreOf hub.now tellers.items × (length tellers.items ≡ 3) }
        requires parts { HaveAllParts tellers.items }
        ensures { IsStaffOf hub.now desk.now result }
    {
        let mut hands = hands;
        let mut tellers = tellers;
        let Some(feeder) = hands.pop() else {
            unreachable!()
        };
        let Some(sweeper) = tellers.pop() else {
            unreachable!()
        };
        Staff {
            feeder,
            hands,
            sweeper,
            tellers,
        }
    }

    /// Funds participant 0 for all transfers of the opening.
    pub(crate) fn fund<R: Wait, G>(
        &mut self,
        rt: &R,
        alloc: Global,
        hub: &Hub,
        round: &Round<G>,
    ) -> Result<(), AllocError>
        requires staff { (desk : Desk) × IsStaffOf hub.now desk self.old }
        requires plan { IsPlan hub.now.settings round.now.plan.now }
        ensures staff { (desk : Desk) → IsStaffOf hub.now desk self.old →
            IsStaffOf hub.now desk self.new }
    {
        let ask = round.plan.funding(alloc, round.opening)?;
        hub.call(rt, &mut self.sweeper, &ask)?;
        Ok(())
    }

    /// Submits all transfers of the opening, through two threads.
    pub(crate) fn submit<R: Threads + Wait + Sync, G: Gate + Sync>(
        self,
        rt: &R,
        alloc: Global,
        place: &Workplace<G>,
        round: &Round<G>,
    ) -> Result<Work, AllocError>
        requires { IsStaffOf place.now.hub.now place.now.desk.now self }
        ensures staff { IfOk result (λ work.
            IsStaffOf place.now.hub.now place.now.desk.now work.staff) }
        ensures states { IfOk result (λ work.
            AreSeenByOne (tellers_of work.staff) work.states.items) }
    {
        let Staff {
            mut feeder,
            hands,
            sweeper,
            tellers,
        } = self;
        let asks = round.asks(Phase::Submitting);
        feed(rt, alloc, place.desk, &mut feeder, &asks)?;
        let team = Team {
            hands,
            tellers,
            sweep: None,
        };
        let crew = run_crew(rt, alloc, place, team)?;
        Ok(Work {
            staff: Staff {
                feeder,
                hands: crew.hands,
                sweeper,
                tellers: crew.tellers,
            },
            answered: crew.answered,
            states: crew.states,
        })
    }

    /// Confirms all of them, through two threads. Once half of them are confirmed, a third thread
    /// sweeps participant 0 at their deadline, and the others continue together with it.
    pub(crate) fn confirm<R: Threads + Wait + Sync, G: Gate + Sync>(
        self,
        rt: &R,
        alloc: Global,
        place: &Workplace<G>,
        round: &Round<G>,
    ) -> Result<Work, AllocError>
        requires staff { IsStaffOf place.now.hub.now place.now.desk.now self }
        requires plan { IsPlan place.now.hub.now.settings round.now.plan.now }
        ensures staff { IfOk result (λ work.
            IsStaffOf place.now.hub.now place.now.desk.now work.staff) }
        ensures later { IfOk result (λ work.
            Pairs (IsLaterTeller place.now.hub.now) (tellers_of self) (tellers_of work.staff)) }
        ensures states { IfOk result (λ work.
            AreSeenByOne (tellers_of work.staff) work.states.items) }
    {
        let Staff {
            mut feeder,
            hands,
            sweeper,
            tellers,
        } = self;
        let asks = round.asks(Phase::Confirming);
        feed(rt, alloc, place.desk, &mut feeder, &asks)?;
        let team = Team {
            hands,
            tellers,
            sweep: Some(round.plan.sweep(sweeper)),
        };
        let crew = run_crew(rt, alloc, place, team)?;
        let mut tellers = crew.tellers;
        let Some(sweeper) = tellers.pop() else {
            unreachable!()
        };
        Ok(Work {
            staff: Staff {
                feeder,
                hands: crew.hands,
                sweeper,
                tellers,
            },
            answered: crew.answered,
            states: crew.states,
        })
    }

    /// Sweeps both participants once, at the deadline of the transfers.
    pub(crate) fn sweep<R: Wait>(
        &mut self,
        rt: &R,
        hub: &Hub,
        plan: &Plan,
    ) -> Result<(), AllocError>
        requires staff { (desk : Desk) × IsStaffOf hub.now desk self.old }
        requires plan { IsPlan hub.now.settings plan.now }
        ensures staff { (desk : Desk) → IsStaffOf hub.now desk self.old →
            IsStaffOf hub.now desk self.new }
        ensures later { OnOk result
            (Pairs (IsLaterTeller hub.now) (tellers_of self.old) (tellers_of self.new)) }
    {
        hub.sweep(rt, &mut self.sweeper, 0, plan.deadline)?;
        hub.sweep(rt, &mut self.sweeper, 1, plan.deadline)?;
        Ok(())
    }

    /// Returns all hands of the desk and all tellers of the hub.
    pub(crate) fn dismiss(self) -> Result<(Vec<Hand>, Vec<Teller>), AllocError>
        ensures hands { IfOk result (λ r. (hub : Hub) (desk : Desk) → IsStaffOf hub desk self →
            AreAllHandsOf desk r.0.items) }
        ensures tellers { IfOk result (λ r. r.1.items ≡ tellers_of self) }
    {
        let Staff {
            feeder,
            mut hands,
            sweeper,
            mut tellers,
        } = self;
        hands.push(feeder)?;
        tellers.push(sweeper)?;
        Ok((hands, tellers))
    }
}
