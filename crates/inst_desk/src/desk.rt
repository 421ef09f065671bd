//! The desk.
ghost use Rattle.std.specs.Prelude.{◌≡◌, [], vec_capacity};
ghost use Rattle.crossbeam_queue.specs.Passes.{ruled_capacity};

mod ending;
mod opening;
mod using;

use crate::job::Job;
use crate::rule::Queue;

/// A bounded queue of jobs. Threads share it by reference, each with its own [`Hand`]. Only
/// [`open`](Desk::open) allocates.
///
/// ```text
/// let (desk, mut hands) = Desk::open(alloc, 2, 1)?;
/// desk.put(rt, hand, job)     // the job back where the desk was full
/// desk.take(rt, hand)         // the oldest job
/// let tally = desk.finish(rt, hands);
/// ```
#[derive(Drop)]
pub struct Desk {
    pub(crate) queue: Queue,
    left: Vec<Job>,
    pub ghost empty: { left.items ≡ [] },
    pub ghost room: { vec_capacity left ≡ ruled_capacity queue },
}
