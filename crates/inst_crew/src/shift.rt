//! The work of one thread.
ghost use Rattle.std.specs.Prelude.{◌≡◌, ◌+◌, ◌^◌, ◌-◌, ◌∷◌, ◌++◌, min, true, false, [], Ok, IfOk};
ghost use Rattle.std.specs.Prelude.{OnOk};
ghost use Rattle.inst_command.specs.Ask.{ask_fits};
ghost use Rattle.inst_board.specs.declared.about.About.TheVariants.{Opened};
ghost use Rattle.inst_board.specs.Standing.{about};
ghost use Rattle.inst_command.specs.declared.outcome.State.{State as SomeState};
ghost use Rattle.inst_desk.specs.Desk.{IsHandOf, WasEmpty};
ghost use Rattle.inst_hub.specs.declared.hub.Hub.{Hub};
ghost use Rattle.inst_hub.specs.Calls.{IsTellerOf, TellerKnowsMore, knows_of};
ghost use Rattle.inst_crew.specs.declared.worker.Worker.{Worker};
ghost use Rattle.inst_crew.specs.inner.Seen.{AreSeen};
ghost use Rattle.inst_crew.specs.inner.Workers.{HasHandAndTeller, Works, HasEndedShift, ServesOne};

use crate::meeting::Meeting;
use crate::worker::Worker;
use crate::workplace::Workplace;
use inst_base::mention;
use inst_command::{Ask, Outcome, State};
use inst_desk::Hand;
use inst_hub::{Gate, Teller, Ticket};
use std::alloc::{AllocError, Global};
use std::sync::Wait;

/// A worker's hand and teller, with what they did so far.
#[derive(Drop)]
pub(crate) struct Shift {
    pub(crate) hand: Hand,
    pub(crate) teller: Teller,
    pub(crate) answered: u64,
    pub(crate) states: Vec<(Ticket, State)>,
}

impl Shift {
    /// Begins: nothing was done yet.
    fn begin(alloc: Global, worker: Worker) -> Shift
        ensures hand { result.hand ≡ worker.hand }
        ensures teller { result.teller ≡ worker.teller }
        ensures answered { result.answered ≡ 0 }
        ensures states { result.states.items ≡ [] }
    {
        let Worker { hand, teller } = worker;
        Shift {
            hand,
            teller,
            answered: 0,
            states: Vec::new(alloc),
        }
    }

    /// Peeks at the ticket's transfer and keeps the state.
    fn note(&mut self, ticket: Ticket) -> Result<(), AllocError>
        requires opened { knows_of self.old.teller (about ticket Opened) }
        requires seen { AreSeen self.old.teller self.old.states.items }
        ensures hand { self.new.hand ≡ self.old.hand }
        ensures of { (hub : Hub) → IsTellerOf hub self.old.teller → IsTellerOf hub self.new.teller }
        ensures knows { TellerKnowsMore self.old.teller self.new.teller }
        ensures answered { self.new.answered ≡ self.old.answered }
        ensures seen { OnOk result (AreSeen self.new.teller self.new.states.items) }
        ensures noted { OnOk result ((state : SomeState)
            × (self.new.states.items ≡ self.old.states.items ++ (ticket, state) ∷ [])) }
    {
        mention::<Outcome>();
        let state = self.teller.peek(&ticket);
        Ok(self.states.push((ticket, state))?)
    }

    /// Puts an ask to the hub, and peeks if there is a ticket.
    fn serve<R: Wait, G: Gate>(
        &mut self,
        rt: &R,
        place: &Workplace<G>,
        ask: &Ask,
    ) -> Result<(), AllocError>
        requires of { IsTellerOf place.now.hub.now self.old.teller }
        requires fits { ask_fits place.now.hub.now.settings ask.now ≡ true }
        requires seen { AreSeen self.old.teller self.old.states.items }
        ensures hand { self.new.hand ≡ self.old.hand }
        ensures of { IsTellerOf place.now.hub.now self.new.teller }
        ensures knows { TellerKnowsMore self.old.teller self.new.teller }
        ensures answered { OnOk result (self.new.answered
            ≡ min (self.old.answered + 1) (2 ^ 64 - 1)) }
        ensures seen { OnOk result (AreSeen self.new.teller self.new.states.items) }
        ensures served { OnOk result (ServesOne place.now.hub.now ask.now self.old self.new) }
    {
        let (_, ticket) = place.hub.call_with(rt, &mut self.teller, ask, place.gate)?;
        self.answered = self.answered.saturating_add(1);
        match ticket {
            Some(ticket) => self.note(ticket),
            None => Ok(()),
        }
    }

    /// Takes a job, if there is one, and puts it to the hub if its ask fits. Returns `true` if
    /// there was a job.
    fn turn<R: Wait, G: Gate>(
        &mut self,
        rt: &R,
        place: &Workplace<G>,
        meeting: &Meeting,
    ) -> Result<bool, AllocError>
        requires hand { IsHandOf place.now.desk.now self.old.hand }
        requires teller { IsTellerOf place.now.hub.now self.old.teller }
        requires seen { AreSeen self.old.teller self.old.states.items }
        ensures works { OnOk result ((w : Worker) →
            Works place.now.hub.now place.now.desk.now w self.old →
            Works place.now.hub.now place.now.desk.now w self.new) }
        ensures emptied { result ≡ Ok false → WasEmpty self.new.hand }
    {
        let Some(job) = place.desk.take(rt, &mut self.hand) else {
            return Ok(false);
        };
        if job.ask.fits(place.hub.settings()) {
            meeting.come();
            self.serve(rt, place, &job.ask)?;
            meeting.count();
        }
        Ok(true)
    }
}

/// Takes jobs and puts them to the hub until the desk is empty. Skips a job whose ask doesn't fit
/// the hub.
pub(crate) fn work<R: Wait, G: Gate>(
    rt: &R,
    alloc: Global,
    place: &Workplace<G>,
    meeting: &Meeting,
    worker: Worker,
) -> Result<Shift, AllocError>
    requires { HasHandAndTeller place.now.hub.now place.now.desk.now worker }
    ensures { IfOk result (HasEndedShift place.now.hub.now place.now.desk.now worker) }
{
    let mut shift = Shift::begin(alloc, worker);
    for _ in rt.forever() {
        if !shift.turn(rt, place, meeting)? {
            return Ok(shift);
        }
    }
    unreachable!()
}
