//! Collecting what all workers did.
ghost use Rattle.std.specs.Prelude.{◌≡◌, IfOk, List, map, Ok};
ghost use Rattle.inst_crew.specs.declared.shift.Shift.{Shift};
ghost use Rattle.inst_crew.specs.inner.Workers.{IsGathered};

use crate::crew::Crew;
use crate::shift::Shift;
use std::alloc::{AllocError, Global};

/// Collects all that the workers return, or the first allocation failure.
pub(crate) fn gather(
    alloc: Global,
    results: Vec<Result<Shift, AllocError>>,
) -> Result<Crew, AllocError>
    ensures all { IfOk result (λ crew. (shifts : List Shift) × (results.items ≡ map Ok shifts)
        × IsGathered shifts crew) }
{
    let mut crew = Crew {
        answered: 0,
        states: Vec::new(alloc),
        hands: Vec::new(alloc),
        tellers: Vec::new(alloc),
    };
    for result in results {
        let Shift {
            hand,
            teller,
            answered,
            states,
        } = result?;
        crew.answered = crew.answered.saturating_add(answered);
        crew.states.extend_from_slice(states.as_slice())?;
        crew.hands.push(hand)?;
        crew.tellers.push(teller)?;
    }
    Ok(crew)
}
