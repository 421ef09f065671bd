//! The thread that sweeps while a crew works.
ghost use Rattle.std.specs.Prelude.{IfOk, IfSome};
ghost use Rattle.inst_crew.specs.Crew.{MaySweep, IsSwept};

use crate::meeting::Meeting;
use inst_base::Moment;
use inst_hub::{Hub, Teller};
use std::alloc::AllocError;
use std::sync::Wait;

/// One more thread, which sweeps a participant once.
///
/// It begins when `after` jobs are answered, and the workers begin their next jobs together with
/// it. If so many are never answered, it sweeps after a bounded wait.
#[derive(Drop)]
pub struct Sweep {
    /// The thread's teller.
    pub teller: Teller,
    /// The participant.
    pub who: u8,
    /// The clock reading.
    pub at: Moment,
    /// How many jobs are answered before the sweep.
    pub after: u64,
}

/// Sweeps, if there is a sweep.
pub(crate) fn sweep_if<R: Wait>(
    rt: &R,
    hub: &Hub,
    meeting: &Meeting,
    sweep: Option<Sweep>,
) -> Result<Option<Teller>, AllocError>
    requires { IfSome sweep (MaySweep hub.now) }
    ensures { IfOk result (IsSwept hub.now sweep) }
{
    let Some(sweep) = sweep else {
        return Ok(None);
    };
    let Sweep {
        mut teller,
        who,
        at,
        ..
    } = sweep;
    meeting.begin();
    hub.sweep(rt, &mut teller, who, at)?;
    Ok(Some(teller))
}
