//! Acts of a participant, as short texts and plain numbers.
use inst_base::{Fault, Moment};
use inst_command::{Command, Query, Step};
use inst_fixtures::{ask, confirm, fund, submit};

/// A command, or a step at a place.
#[derive(Clone, Copy)]
pub(crate) enum RaceAct {
    Fund(&'static str, u64),
    Submit(&'static str, u8, u64, u64),
    Confirm(u8, &'static str),
    Position,
    Deliver(u8, u16),
    Learn(u8, u16),
    Expire(u16),
}

/// Returns the participant's step for this act, at clock reading `at` in milliseconds.
pub(crate) fn step_of(who: u8, does: &RaceAct, at: u64) -> Result<Step, Fault> {
    match *does {
        RaceAct::Fund(reference, cents) => fund(who, reference, cents, at),
        RaceAct::Submit(id, to, cents, stamp) => submit(who, id, to, cents, stamp, at),
        RaceAct::Confirm(from, id) => confirm(who, from, id, at),
        RaceAct::Position => ask(who, Command::Query(Query::Position), at),
        RaceAct::Deliver(from, index) => Ok(Step::Deliver {
            from,
            index,
            to: who,
        }),
        RaceAct::Learn(from, index) => Ok(Step::Learn { who, from, index }),
        RaceAct::Expire(index) => match Moment::new(0, at) {
            Ok(at) => Ok(Step::Expire { who, index, at }),
            Err(fault) => Err(fault),
        },
    }
}
